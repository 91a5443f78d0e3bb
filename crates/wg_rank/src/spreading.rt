// What one page gives to its successors.

ghost use Rattle.std.specs.Prelude.{◌≡◌, ℕ, ◌+◌, ◌<◌, ◌^◌, length, slice_index, cond, All};
ghost use Rattle.wg_graph.specs.Ascending.{Ascends, Below};
ghost use Rattle.wg_graph.specs.Numbers.{is_in};
ghost use Rattle.wg_rank.specs.Inflows.{low_flows, high_flows};

use crate::inflows::add;

// Adds a page's shares, below and above, to the sums of each listed page, in one pass along the list.
#[tactic(auto, using(crate::proofs::Spread::below_at))]
#[inline(always)]
pub(crate) fn spread(inflows: &mut [u128], list: &[u64], below: u128, above: u128)
    requires below { Below (length (low_flows inflows.old)) list.now }
    requires ascending { Ascends 0 list.now }
    requires low_room { All (λ x. x + below < 2 ^ 128) (low_flows inflows.old) }
    requires high_room { All (λ x. x + above < 2 ^ 128) (high_flows inflows.old) }
    ensures low { (v : ℕ) → v < length (low_flows inflows.old)
        → slice_index (low_flows inflows.new) v
        ≡ slice_index (low_flows inflows.old) v + cond (is_in v list.now) below 0 }
    ensures high { (v : ℕ) → v < length (low_flows inflows.old)
        → slice_index (high_flows inflows.new) v
        ≡ slice_index (high_flows inflows.old) v + cond (is_in v list.now) above 0 }
{
    for page in list {
        add(inflows, *page, below, above);
    }
}

// Adds a page's share below to the sum of each listed page, if there is one sum for each page.
#[tactic(auto, using(crate::proofs::Spread::below_at))]
#[inline(always)]
pub(crate) fn spread_low(sums: &mut [u128], list: &[u64], share: u128)
    requires below { Below (length sums.old) list.now }
    requires ascending { Ascends 0 list.now }
    requires room { All (λ x. x + share < 2 ^ 128) sums.old }
    ensures each { (v : ℕ) → v < length sums.old
        → slice_index sums.new v ≡ slice_index sums.old v + cond (is_in v list.now) share 0 }
{
    for page in list {
        sums[*page as usize] += share;
    }
}
