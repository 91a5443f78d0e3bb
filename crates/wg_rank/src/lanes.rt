// Sums of shares in lanes: the low 40 bits of what a page gives below, its other bits, and the same above. A lane is a
// number of 64 bits, and a sum in it is one modulo 2^64.

ghost use Rattle.std.specs.Prelude.{◌≡◌, ℕ, ◌+◌, ◌*◌, ◌/◌, ◌%◌, ◌^◌, ◌<◌, ◌≤◌, [], ◌∷◌, length, get_or};
ghost use Rattle.wg_params.specs.declared.limits.TheConstants.{MOST_PAGES};
ghost use Rattle.wg_rank.specs.Sum.{sum_below};
ghost use Rattle.wg_rank.specs.Lanes.{AreSummed};
ghost use Rattle.wg_rank.specs.declared.limits.TheConstants.{UNITS};

use std::simd::u64x4;

// What a page gives is cut here.
const CUT: u128 = 1 << 40;

// The most shares that are added up in lanes. Each is at most 1, and so the sum of so many in a lane is below 2^64.
pub(crate) const MOST_ADDED: usize = 1 << 24;

// What a page gives, below and above, in lanes.
#[inline(always)]
pub(crate) fn in_lanes(below: u128, above: u128) -> u64x4
    requires below { below ≤ UNITS }
    requires above { above ≤ UNITS }
    ensures { result ≡ below % 2 ^ 40 ∷ below / 2 ^ 40 ∷ above % 2 ^ 40 ∷ above / 2 ^ 40 ∷ [] }
{
    u64x4::from_array([
        (below % CUT) as u64,
        (below / CUT) as u64,
        (above % CUT) as u64,
        (above / CUT) as u64,
    ])
}

// The two sums that stand in lanes.
#[inline(always)]
pub(crate) fn from_lanes(lanes: u64x4) -> (u128, u128)
    ensures below { result.0 ≡ get_or lanes 0 0 + get_or lanes 1 0 * 2 ^ 40 }
    ensures above { result.1 ≡ get_or lanes 2 0 + get_or lanes 3 0 * 2 ^ 40 }
{
    let [below, below_high, above, above_high] = lanes.to_array();
    (
        below as u128 + below_high as u128 * CUT,
        above as u128 + above_high as u128 * CUT,
    )
}

// What pages that follow one another give in all, if `sums` has for each page what all pages below it give.
fn rise(sums: &[u64x4], from: usize, to: usize) -> (u128, u128)
    requires ordered { from ≤ to }
    requires few { to ≤ from + MOST_ADDED }
    requires within { to < length sums.now }
    requires summed { (n : ℕ) × (low : ℕ → ℕ) × (high : ℕ → ℕ) × AreSummed n low high sums.now }
    ensures below { (n : ℕ) (low high : ℕ → ℕ) → AreSummed n low high sums.now
        → sum_below from low + result.0 ≡ sum_below to low }
    ensures above { (n : ℕ) (low high : ℕ → ℕ) → AreSummed n low high sums.now
        → sum_below from high + result.1 ≡ sum_below to high }
{
    from_lanes(sums[to] - sums[from])
}

// What pages that follow one another give in all, however many they are.
pub(crate) fn rise_in_parts(sums: &[u64x4], from: usize, to: usize) -> (u128, u128)
    requires ordered { from ≤ to }
    requires within { to < length sums.now }
    requires few { length sums.now ≤ MOST_PAGES + 1 }
    requires summed { (n : ℕ) × (low : ℕ → ℕ) × (high : ℕ → ℕ) × AreSummed n low high sums.now }
    ensures below { (n : ℕ) (low high : ℕ → ℕ) → AreSummed n low high sums.now
        → sum_below from low + result.0 ≡ sum_below to low }
    ensures above { (n : ℕ) (low high : ℕ → ℕ) → AreSummed n low high sums.now
        → sum_below from high + result.1 ≡ sum_below to high }
{
    let parts = (to - from) / MOST_ADDED;
    let mut below = 0;
    let mut above = 0;
    for part in 0..parts {
        let at = from + part * MOST_ADDED;
        let (low, high) = rise(sums, at, at + MOST_ADDED);
        below += low;
        above += high;
    }
    let (low, high) = rise(sums, from + parts * MOST_ADDED, to);
    (below + low, above + high)
}
