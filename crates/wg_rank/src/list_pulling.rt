// What flows to a page, along the list of the pages that link to it.

ghost use Rattle.std.specs.Prelude.{◌≡◌, ℕ, ◌*◌, ◌<◌, ◌≤◌, length, All};
ghost use Rattle.std.specs.List.{sum_by};
ghost use Rattle.wg_params.specs.declared.limits.TheConstants.{MOST_PAGES};
ghost use Rattle.wg_rank.specs.Lanes.{in_lanes, page_lane};
ghost use Rattle.wg_rank.specs.Shares.{AreShares};
ghost use Rattle.wg_rank.specs.declared.limits.TheConstants.{UNITS};

use crate::lanes::{MOST_ADDED, from_lanes};
use crate::pulling::Along;
use std::simd::u64x4;

// For each page it is written what it gives: what flows to a page is then the sum over the pages that link to it.
impl Along for u32 {
    ghost lane = { page_lane };

    #[inline(always)]
    fn lane_of(_total: u64x4, given: u64x4) -> u64x4 {
        given
    }

    #[inline(always)]
    fn flow(lanes: &[u64x4], arcs: &[u32]) -> (u128, u128) {
        flow_from(&lanes[..lanes.len() - 1], arcs)
    }
}

// What these pages give, in lanes.
#[inline(always)]
fn lanes_from(shares: &[u64x4], sources: &[u32]) -> u64x4
    requires { All (λ u. u < length shares.now) sources.now }
    ensures { (n : ℕ) (low high : ℕ → ℕ) → AreShares n low high shares.now
        → result ≡ in_lanes (λ s. sum_by s sources.now) low high }
{
    let mut flow = u64x4::splat(0);
    for source in sources {
        flow += shares[*source as usize];
    }
    flow
}

// The two sums of what these pages give, in parts that fit the lanes.
#[inline(always)]
fn flow_from(shares: &[u64x4], sources: &[u32]) -> (u128, u128)
    requires within { All (λ u. u < length shares.now) sources.now }
    requires shares { (n : ℕ) × (low : ℕ → ℕ) × (high : ℕ → ℕ) × AreShares n low high shares.now
        × (sum_by low sources.now ≤ MOST_PAGES * UNITS) × (sum_by high sources.now ≤ MOST_PAGES * UNITS) }
    ensures low { (n : ℕ) (low high : ℕ → ℕ) → AreShares n low high shares.now
        → result.0 ≡ sum_by low sources.now }
    ensures high { (n : ℕ) (low high : ℕ → ℕ) → AreShares n low high shares.now
        → result.1 ≡ sum_by high sources.now }
{
    let mut below = 0;
    let mut above = 0;
    let mut left = sources;
    'parts: while left.len() > MOST_ADDED {
        let (part, rest) = left.split_at(MOST_ADDED);
        let (low, high) = from_lanes(lanes_from(shares, part));
        below += low;
        above += high;
        left = rest;
    }
    let (low, high) = from_lanes(lanes_from(shares, left));
    (below + low, above + high)
}
