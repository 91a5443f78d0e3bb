// What flows to a page, along the runs of the pages that link to it.

ghost use Rattle.std.specs.Prelude.{◌≡◌, ℕ, ◌+◌, ◌*◌, ◌<◌, ◌≤◌, length, All};
ghost use Rattle.std.specs.List.{sum_by};
ghost use Rattle.wg_params.specs.declared.limits.TheConstants.{MOST_PAGES};
ghost use Rattle.wg_graph.specs.Digraph.{Digraph};
ghost use Rattle.wg_transpose.specs.Transposed.{predecessors};
ghost use Rattle.wg_rank.specs.Sum.{sum_below};
ghost use Rattle.wg_rank.specs.Lanes.{in_lanes, run_lane, AreSummed, AreRunsTo};
ghost use Rattle.wg_rank.specs.Pulling.{along};
ghost use Rattle.wg_rank.specs.declared.limits.TheConstants.{UNITS};

use crate::lanes::{MOST_ADDED, from_lanes, rise_in_parts};
use crate::pulling::Along;
use std::simd::u64x4;
use wg_transpose::PageRun;

// For each page, and behind the last one, it is written what all pages below it give: what flows to a page is then a
// difference of two such sums for each run.
impl Along for PageRun {
    ghost lane = { run_lane };

    #[inline(always)]
    fn lane_of(total: u64x4, _given: u64x4) -> u64x4 {
        total
    }

    #[inline(always)]
    fn flow(lanes: &[u64x4], arcs: &[PageRun]) -> (u128, u128) {
        flow_along(lanes, arcs)
    }
}

// What the sums rise by along runs, in lanes.
#[inline(always)]
fn lanes_along(sums: &[u64x4], runs: &[PageRun]) -> u64x4
    requires ordered { All (λ r. r.from ≤ r.to) runs.now }
    requires within { All (λ r. r.to < length sums.now) runs.now }
    ensures { (n : ℕ) (low high : ℕ → ℕ) → AreSummed n low high sums.now
        → result ≡ in_lanes (λ s. along (λ u. sum_below u s) runs.now) low high }
{
    let mut flow = u64x4::splat(0);
    for run in runs {
        flow += sums[run.to as usize] - sums[run.from as usize];
    }
    flow
}

// What the sums rise by along runs, if these may have more pages than are added up in lanes.
fn parts_along(sums: &[u64x4], runs: &[PageRun]) -> (u128, u128)
    requires ordered { All (λ r. r.from ≤ r.to) runs.now }
    requires within { All (λ r. r.to < length sums.now) runs.now }
    requires few { length sums.now ≤ MOST_PAGES + 1 }
    requires summed { (n : ℕ) × (low : ℕ → ℕ) × (high : ℕ → ℕ) × AreSummed n low high sums.now
        × (along (λ u. sum_below u low) runs.now ≤ MOST_PAGES * UNITS)
        × (along (λ u. sum_below u high) runs.now ≤ MOST_PAGES * UNITS) }
    ensures low { (n : ℕ) (low high : ℕ → ℕ) → AreSummed n low high sums.now
        → result.0 ≡ along (λ u. sum_below u low) runs.now }
    ensures high { (n : ℕ) (low high : ℕ → ℕ) → AreSummed n low high sums.now
        → result.1 ≡ along (λ u. sum_below u high) runs.now }
{
    let mut below = 0;
    let mut above = 0;
    for run in runs {
        let (low, high) = rise_in_parts(sums, run.from as usize, run.to as usize);
        below += low;
        above += high;
    }
    (below, above)
}

// What flows to a page.
#[inline(always)]
fn flow_along(sums: &[u64x4], runs: &[PageRun]) -> (u128, u128)
    requires few { length sums.now ≤ MOST_PAGES + 1 }
    requires summed { (g : Digraph) × (v : ℕ) × (low : ℕ → ℕ) × (high : ℕ → ℕ) × AreRunsTo g v runs.now
        × AreSummed g.nodes low high sums.now }
    ensures low { (g : Digraph) (v : ℕ) (low high : ℕ → ℕ) → AreRunsTo g v runs.now
        → AreSummed g.nodes low high sums.now → result.0 ≡ sum_by low (predecessors g v) }
    ensures high { (g : Digraph) (v : ℕ) (low high : ℕ → ℕ) → AreRunsTo g v runs.now
        → AreSummed g.nodes low high sums.now → result.1 ≡ sum_by high (predecessors g v) }
{
    if sums.len() <= MOST_ADDED {
        return from_lanes(lanes_along(sums, runs));
    }
    parts_along(sums, runs)
}
