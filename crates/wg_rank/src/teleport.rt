// What teleport shares out, by the weights of the pages.

ghost use Rattle.std.specs.Prelude.{◌≡◌, ℕ, ◌*◌, ◌/◌, ◌<◌, ◌≤◌, length, All};
ghost use Rattle.std.specs.Int.{div_ceil};
ghost use Rattle.wg_params.specs.declared.limits.TheConstants.{MOST_PAGES};
ghost use Rattle.wg_rank.specs.Sum.{sum_below};
ghost use Rattle.wg_rank.specs.Intervals.{by_page};
ghost use Rattle.wg_rank.specs.Weights.{AreWeights, weights_or_ones};
ghost use Rattle.wg_rank.specs.declared.limits.TheConstants.{UNITS, MOST_WEIGHT};

// The sum of the weights of `n` pages; if none are given, each is 1.
pub(crate) fn total_weight(weights: &[u64], n: usize) -> u128
    requires few { n ≤ MOST_PAGES }
    requires weights { AreWeights n (weights_or_ones n weights.now) }
    ensures value { result ≡ sum_below n (by_page (weights_or_ones n weights.now)) }
    ensures room { result ≤ MOST_PAGES * MOST_WEIGHT }
{
    if weights.is_empty() {
        return n as u128;
    }
    let mut sum = 0;
    for weight in weights {
        sum += u128::from(*weight);
    }
    sum
}

// A weight's part, rounded down. It is called, as the next one is: made part of its caller, it was divided for each
// page if no weights are given, too.
#[inline(never)]
fn weighted_below(shared: u128, parts: u128, weight: u64) -> u128
    requires few { shared ≤ 1000 * UNITS }
    requires small { weight ≤ MOST_WEIGHT }
    requires some { 0 < parts }
    ensures value { result ≡ shared * weight / parts }
    ensures room { result ≤ 1000 * UNITS * MOST_WEIGHT }
{
    shared * u128::from(weight) / parts
}

// A weight's part, rounded up.
#[inline(never)]
fn weighted_above(shared: u128, parts: u128, weight: u64) -> u128
    requires few { shared ≤ 1000 * UNITS }
    requires small { weight ≤ MOST_WEIGHT }
    requires some { 0 < parts }
    ensures value { result ≡ div_ceil (shared * weight) parts }
    ensures room { result ≤ 1000 * UNITS * MOST_WEIGHT }
{
    (shared * u128::from(weight)).div_ceil(parts)
}

// What page `v` gets of what teleport shares out, rounded down. A weight of 1 gets `even`, one of `parts`.
#[inline(always)]
pub(crate) fn part_below(shared: u128, parts: u128, even: u128, weights: &[u64], v: usize) -> u128
    requires few { shared ≤ 1000 * UNITS }
    requires some { 0 < parts }
    requires even { even ≡ shared / parts }
    requires small { All (λ w. w ≤ MOST_WEIGHT) weights.now }
    requires page { 0 < length weights.now → v < length weights.now }
    ensures value { (n : ℕ) → v < n → result ≡ shared * by_page (weights_or_ones n weights.now) v / parts }
    ensures room { result ≤ 1000 * UNITS * MOST_WEIGHT }
{
    if weights.is_empty() {
        return even;
    }
    weighted_below(shared, parts, weights[v])
}

// What page `v` gets of what teleport shares out, rounded up. A weight of 1 gets `even`, one of `parts`.
#[inline(always)]
pub(crate) fn part_above(shared: u128, parts: u128, even: u128, weights: &[u64], v: usize) -> u128
    requires few { shared ≤ 1000 * UNITS }
    requires some { 0 < parts }
    requires even { even ≡ div_ceil shared parts }
    requires small { All (λ w. w ≤ MOST_WEIGHT) weights.now }
    requires page { 0 < length weights.now → v < length weights.now }
    ensures value { (n : ℕ) → v < n → result ≡ div_ceil (shared * by_page (weights_or_ones n weights.now) v) parts }
    ensures room { result ≤ 1000 * UNITS * MOST_WEIGHT }
{
    if weights.is_empty() {
        return even;
    }
    weighted_above(shared, parts, weights[v])
}
