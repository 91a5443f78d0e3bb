// New bounds from what flows in.

ghost use Rattle.std.specs.Prelude.{◌≡◌, ℕ, ◌+◌, ◌-◌, ◌*◌, ◌<◌, ◌≤◌, length, slice_index, All, min};
ghost use Rattle.wg_params.specs.declared.limits.TheConstants.{MOST_PAGES, MOST_DAMPING};
ghost use Rattle.wg_rank.specs.Sum.{sum_below};
ghost use Rattle.wg_rank.specs.Rank.{low_flow, high_flow};
ghost use Rattle.wg_rank.specs.Intervals.{by_page};
ghost use Rattle.wg_rank.specs.Inflows.{low_flows, high_flows};
ghost use Rattle.wg_rank.specs.Settling.{settled_lows, settled_highs, low_of, high_of};
ghost use Rattle.wg_rank.specs.Weights.{AreWeights, weights_or_ones};
ghost use Rattle.wg_rank.specs.declared.limits.TheConstants.{UNITS};

use crate::gathering::Gather;
use crate::inflows::{high_flow, low_flow, put};
use crate::parts::Parts;

// How many pages are settled at a time. What flows to them is added up first: these sums wait for memory, and so many
// of them wait together.
const BLOCK: usize = 128;

// Puts what flows to the pages from `from` on, up to `to`, into `block`.
#[inline(always)]
fn fill<G: Gather>(source: &G, inflows: &[u128], from: usize, to: usize, block: &mut [u128])
    requires few { (G.graph source.now).nodes ≤ MOST_PAGES }
    requires ordered { from ≤ to }
    requires within { to ≤ (G.graph source.now).nodes }
    requires room { to ≤ from + length (low_flows block.old) }
    requires shared { (l : ℕ → ℕ) × (h : ℕ → ℕ) × G.has_shared source.now inflows.now l h }
    ensures low { (l h : ℕ → ℕ) → G.has_shared source.now inflows.now l h → (i : ℕ) → from + i < to
        → slice_index (low_flows block.new) i ≡ low_flow (G.graph source.now) l (from + i) }
    ensures high { (l h : ℕ → ℕ) → G.has_shared source.now inflows.now l h → (i : ℕ) → from + i < to
        → slice_index (high_flows block.new) i ≡ high_flow (G.graph source.now) h (from + i) }
    ensures low_room { (i : ℕ) → from + i < to → slice_index (low_flows block.new) i ≤ MOST_PAGES * UNITS }
    ensures high_room { (i : ℕ) → from + i < to → slice_index (high_flows block.new) i ≤ MOST_PAGES * UNITS }
{
    for i in 0..to - from {
        let (below, above) = source.flow(inflows, (from + i) as u64);
        put(block, i, below, above);
    }
}

// Puts the new bounds of these pages in place of the old ones, from what flows to them. The upper ones are still to be
// cut.
#[inline(always)]
fn settle_block(
    low: &mut [u128],
    high: &mut [u128],
    block: &[u128],
    from: usize,
    to: usize,
    parts: &Parts<'_>,
)
    requires ordered { from ≤ to }
    requires within { to ≤ length low.old }
    requires high_pages { length high.old ≡ length low.old }
    requires block_pages { to ≤ from + length (low_flows block.now) }
    requires pages { 0 < length parts.now.weights.now → length parts.now.weights.now ≡ length low.old }
    requires low_room { (i : ℕ) → from + i < to → slice_index (low_flows block.now) i ≤ MOST_PAGES * UNITS }
    requires high_room { (i : ℕ) → from + i < to → slice_index (high_flows block.now) i ≤ MOST_PAGES * UNITS }
    ensures low_before { (v : ℕ) → v < from → slice_index low.new v ≡ slice_index low.old v }
    ensures low { (i : ℕ) → from + i < to → slice_index low.new (from + i)
        ≡ low_of parts.now (length low.old) (from + i) (slice_index (low_flows block.now) i) }
    ensures high_before { (v : ℕ) → v < from → slice_index high.new v ≡ slice_index high.old v }
    ensures high { (i : ℕ) → from + i < to → slice_index high.new (from + i)
        ≡ min (slice_index high.old (from + i))
        (high_of parts.now (length low.old) (from + i) (slice_index (high_flows block.now) i)) }
    ensures high_behind { (v : ℕ) → to ≤ v → slice_index high.new v ≡ slice_index high.old v }
{
    for i in 0..to - from {
        let v = from + i;
        low[v] = parts.low(v, low_flow(block, i));
        high[v] = high[v].min(parts.high(v, high_flow(block, i)));
    }
}

// Puts the new lower bounds in place of the old ones, and in place of each upper one the new one if it is less, by what
// was shared out; the dangling pages hold so much, below and above.
pub(crate) fn settle<G: Gather>(
    source: &G,
    inflows: &[u128],
    low: &mut [u128],
    high: &mut [u128],
    damping: u64,
    dangling: (u128, u128),
    weights: &[u64],
)
    requires pages { (G.graph source.now).nodes ≡ length low.old }
    requires damped { damping ≤ MOST_DAMPING }
    requires few { length low.old ≤ MOST_PAGES }
    requires high_pages { length high.old ≡ length low.old }
    requires below_room { dangling.0 ≤ MOST_PAGES * UNITS }
    requires above_room { dangling.1 ≤ MOST_PAGES * UNITS }
    requires weights { AreWeights (length low.old) (weights_or_ones (length low.old) weights.now) }
    requires shared { (l : ℕ → ℕ) × (h : ℕ → ℕ) × G.has_shared source.now inflows.now l h }
    ensures low { let n = length low.old in (l h : ℕ → ℕ) → G.has_shared source.now inflows.now l h → (v : ℕ) → v < n
        → slice_index low.new v ≡ settled_lows damping n dangling.0 (by_page (weights_or_ones n weights.now))
        (low_flow (G.graph source.now) l) v }
    ensures high { let n = length low.old in (l h : ℕ → ℕ) → G.has_shared source.now inflows.now l h → (v : ℕ) → v < n
        → slice_index high.new v ≡ min (slice_index high.old v) (settled_highs damping n dangling.1
        (by_page (weights_or_ones n weights.now)) (high_flow (G.graph source.now) h) v) }
{
    if low.is_empty() {
        return;
    }
    let parts = Parts::of(low.len(), damping, dangling, weights);
    let mut block = [0; 2 * BLOCK];
    let mut from = 0;
    'rest: while from < low.len() {
        let to = low.len().min(from + BLOCK);
        fill(source, inflows, from, to, &mut block);
        settle_block(low, high, &block, from, to, &parts);
        from = to;
    }
}

// The sum of lower bounds.
pub(crate) fn total(low: &[u128]) -> u128
    requires few { length low.now ≤ MOST_PAGES }
    requires units { All (λ x. x ≤ UNITS) low.now }
    ensures { result ≡ sum_below (length low.now) (by_page low.now) }
{
    let mut sum = 0;
    for bound in low {
        sum += *bound;
    }
    sum
}

// Cuts the upper bounds if they are more than `gap` above the lower ones.
pub(crate) fn cut(high: &mut [u128], low: &[u128], gap: u128)
    requires low_pages { length low.now ≡ length high.old }
    requires low_room { All (λ x. x ≤ UNITS) low.now }
    requires gap_room { gap ≤ UNITS }
    ensures { (v : ℕ) → v < length high.old
        → slice_index high.new v ≡ min (slice_index high.old v) (slice_index low.now v + gap) }
{
    for v in 0..high.len() {
        high[v] = high[v].min(low[v] + gap);
    }
}
