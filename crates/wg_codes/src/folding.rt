//! Numbers of either sign as numbers that are not negative.
ghost use Rattle.std.specs.Prelude.{◌≡◌, ℕ, ◌^◌, ◌≤◌, Some};
ghost use Rattle.wg_codes.specs.Fold.{folded, unfolded, unfolded_from, number_of_gap};

/// A whole number as a value, those near 0 first: 0, -1, 1, -2, 2 become 0, 1, 2, 3, 4.
///
/// The first left end of a page's intervals and its first residual are written so, less the page's own number.
#[inline(always)]
pub fn fold(e: i64) -> u64
    ensures { result ≡ folded e }
{
    if e >= 0 {
        2 * e as u64
    } else {
        2 * (-(e + 1)) as u64 + 1
    }
}

/// The whole number of a value.
pub fn unfold(v: u64) -> i64
    ensures { result ≡ unfolded v }
{
    let half = (v / 2) as i64;
    if v % 2 == 0 { half } else { -half - 1 }
}

/// The number whose distance from `from` is the whole number of a value; none, if that is below 0.
#[inline(always)]
pub fn unfold_from(from: u64, value: u64) -> Option<u64>
    requires { from ≤ 2 ^ 63 }
    ensures { result ≡ unfolded_from from value }
{
    let half = value / 2;
    let below = value % 2 == 1;
    if below && half >= from {
        return None;
    }
    // one of two numbers, and not one of two ways: on which side of `from` it lies can't be foreseen
    let far = if below { u64::MAX - half } else { half };
    Some(from.wrapping_add(far))
}

/// The number that a stored gap means, if it is known to mean one: by its distance from `from`, if nothing comes
/// before it; else by its distance from `before`, less 1.
#[inline(always)]
pub fn number_of_gap(from: u64, before: Option<u64>, gap: u64) -> u64
    requires from { from ≤ 2 ^ 62 }
    requires means { (y : ℕ) × (y ≤ 2 ^ 62) × (number_of_gap from before gap ≡ Some y) }
    ensures { number_of_gap from before gap ≡ Some result }
{
    match before {
        Some(before) => before + 1 + gap,
        None => match unfold_from(from, gap) {
            Some(number) => number,
            None => unreachable!(),
        },
    }
}
