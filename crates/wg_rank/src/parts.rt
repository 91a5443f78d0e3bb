// A page's new bounds, from what flows to it.

ghost use Rattle.std.specs.Prelude.{◌≡◌, ℕ, ◌+◌, ◌-◌, ◌*◌, ◌/◌, ◌<◌, ◌≤◌, length, All};
ghost use Rattle.std.specs.Int.{div_ceil};
ghost use Rattle.wg_params.specs.declared.limits.TheConstants.{MOST_PAGES, MOST_DAMPING};
ghost use Rattle.wg_rank.specs.Sum.{sum_below};
ghost use Rattle.wg_rank.specs.Intervals.{by_page};
ghost use Rattle.wg_rank.specs.Weights.{AreWeights, weights_or_ones};
ghost use Rattle.wg_rank.specs.declared.limits.TheConstants.{UNITS, MOST_WEIGHT};

use crate::UNITS;
use crate::dividing::{damped, damped_up};
use crate::teleport::{part_above, part_below, total_weight};

// What goes into the new bounds of every page, divided out once.
#[derive(Drop)]
pub(crate) struct Parts<'a> {
    // In thousandths.
    damping: u64,
    // What a page gets of what the dangling pages hold, below and above.
    below: u128,
    above: u128,
    // Teleport gives one of so many parts of this for each unit of weight. To a weight of 1 it gives `even_below` and
    // `even_above`.
    shared: u128,
    parts: u128,
    even_below: u128,
    even_above: u128,
    // None if each page has the weight 1.
    weights: &'a [u64],
    ghost damped: { damping ≤ MOST_DAMPING },
    ghost below_room: { below ≤ MOST_DAMPING * (MOST_PAGES * UNITS) },
    ghost above_room: { above ≤ MOST_DAMPING * (MOST_PAGES * UNITS) },
    ghost shared_room: { shared ≤ 1000 * UNITS },
    ghost some: { 0 < parts },
    ghost even_part: { even_below ≡ shared / parts },
    ghost even_part_above: { even_above ≡ div_ceil shared parts },
    ghost small: { All (λ w. w ≤ MOST_WEIGHT) weights.now },
}

impl<'a> Parts<'a> {
    // The parts of `n` pages, if the dangling pages hold so much, below and above.
    #[tactic(auto, using(crate::proofs::Room::damped_room, crate::proofs::Flow::div_ceil_le))]
    pub(crate) fn of(
        n: usize,
        damping: u64,
        dangling: (u128, u128),
        weights: &'a [u64],
    ) -> Parts<'a>
        requires some { 0 < n }
        requires few { n ≤ MOST_PAGES }
        requires damped { damping ≤ MOST_DAMPING }
        requires below_room { dangling.0 ≤ MOST_PAGES * UNITS }
        requires above_room { dangling.1 ≤ MOST_PAGES * UNITS }
        requires weights { AreWeights n (weights_or_ones n weights.now) }
        ensures damping { result.damping ≡ damping }
        ensures below { result.below ≡ damping * dangling.0 / (1000 * n) }
        ensures above { result.above ≡ div_ceil (damping * dangling.1) (1000 * n) }
        ensures shared { result.shared ≡ (1000 - damping) * UNITS }
        ensures parts { result.parts ≡ 1000 * sum_below n (by_page (weights_or_ones n weights.now)) }
        ensures weights { result.weights.now ≡ weights.now }
    {
        let shared = (1000 - damping as u128) * UNITS;
        let parts = 1000 * total_weight(weights, n);
        Parts {
            damping,
            below: damping as u128 * dangling.0 / (1000 * n as u128),
            above: (damping as u128 * dangling.1).div_ceil(1000 * n as u128),
            shared,
            parts,
            even_below: shared / parts,
            even_above: shared.div_ceil(parts),
            weights,
        }
    }

    // The new lower bound of page `v`, each part rounded down.
    #[inline(always)]
    #[tactic(auto, using(crate::proofs::Room::damped_room))]
    pub(crate) fn low(&self, v: usize, flow: u128) -> u128
        requires page { 0 < length self.now.weights.now → v < length self.now.weights.now }
        requires room { flow ≤ MOST_PAGES * UNITS }
        ensures { (n : ℕ) → v < n → result ≡ self.now.damping * flow / 1000
            + (self.now.below + self.now.shared * by_page (weights_or_ones n self.now.weights.now) v / self.now.parts) }
    {
        let part = part_below(self.shared, self.parts, self.even_below, self.weights, v);
        damped(self.damping, flow) + (self.below + part)
    }

    // What one round gives page `v` above, each part rounded up.
    #[inline(always)]
    #[tactic(auto, using(crate::proofs::Room::damped_room, crate::proofs::Flow::div_ceil_le))]
    pub(crate) fn high(&self, v: usize, flow: u128) -> u128
        requires page { 0 < length self.now.weights.now → v < length self.now.weights.now }
        requires room { flow ≤ MOST_PAGES * UNITS }
        ensures { (n : ℕ) → v < n → result ≡ div_ceil (self.now.damping * flow) 1000
            + (self.now.above
            + div_ceil (self.now.shared * by_page (weights_or_ones n self.now.weights.now) v) self.now.parts) }
    {
        let part = part_above(self.shared, self.parts, self.even_above, self.weights, v);
        damped_up(self.damping, flow) + (self.above + part)
    }
}
