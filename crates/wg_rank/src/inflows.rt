// What flows to the pages: two sums for each page, below and above, side by side, so that an arc reaches one place in
// memory.

ghost use Rattle.std.specs.Prelude.{◌≡◌, ◌+◌, ◌*◌, ◌<◌, ◌^◌, length, slice_index, set};
ghost use Rattle.wg_rank.specs.Inflows.{low_flows, high_flows};

// Adds to the two sums of a page.
#[tactic(auto, using(crate::proofs::SideBySide::within))]
#[inline(always)]
pub(crate) fn add(inflows: &mut [u128], page: u64, below: u128, above: u128)
    requires page { page < length (low_flows inflows.old) }
    requires low_room { slice_index (low_flows inflows.old) page + below < 2 ^ 128 }
    requires high_room { slice_index (high_flows inflows.old) page + above < 2 ^ 128 }
    ensures low { low_flows inflows.new ≡ set (low_flows inflows.old) page
        (slice_index (low_flows inflows.old) page + below) }
    ensures high { high_flows inflows.new ≡ set (high_flows inflows.old) page
        (slice_index (high_flows inflows.old) page + above) }
{
    let at = 2 * page as usize;
    inflows[at] += below;
    inflows[at + 1] += above;
}

// Puts these in place of the two sums of a page.
#[tactic(auto, using(crate::proofs::SideBySide::within))]
#[inline(always)]
pub(crate) fn put(inflows: &mut [u128], v: usize, below: u128, above: u128)
    requires { v < length (low_flows inflows.old) }
    ensures low { low_flows inflows.new ≡ set (low_flows inflows.old) v below }
    ensures high { high_flows inflows.new ≡ set (high_flows inflows.old) v above }
{
    inflows[2 * v] = below;
    inflows[2 * v + 1] = above;
}

// What flows to page `v`, below.
#[tactic(auto, using(crate::proofs::SideBySide::within, crate::proofs::SideBySide::low_at))]
#[inline(always)]
pub(crate) fn low_flow(inflows: &[u128], v: usize) -> u128
    requires { v < length (low_flows inflows.now) }
    ensures { result ≡ slice_index (low_flows inflows.now) v }
{
    inflows[2 * v]
}

// What flows to page `v`, above.
#[tactic(auto, using(crate::proofs::SideBySide::within, crate::proofs::SideBySide::high_count, crate::proofs::SideBySide::high_at))]
#[inline(always)]
pub(crate) fn high_flow(inflows: &[u128], v: usize) -> u128
    requires { v < length (high_flows inflows.now) }
    ensures { result ≡ slice_index (high_flows inflows.now) v }
{
    inflows[2 * v + 1]
}
