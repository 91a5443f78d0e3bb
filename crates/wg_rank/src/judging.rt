// A certificate against a graph.

ghost use Rattle.std.specs.Prelude.{◌≡◌, ◌≢◌, ℕ, ◌*◌, ◌<◌, ◌≤◌, All, length, MatchOption, IfOk, Err, option_copied};
ghost use Rattle.wg_params.specs.declared.limits.TheConstants.{MOST_PAGES, MOST_DAMPING};
ghost use Rattle.wg_rank.specs.Rank.{EnclosesStationary};
ghost use Rattle.wg_rank.specs.Intervals.{Intervals, AreBounds, AreBoundsOf, by_page};
ghost use Rattle.wg_rank.specs.Settling.{settled_lows};
ghost use Rattle.wg_rank.specs.Weights.{AreWeights, weights_or_ones};
ghost use Rattle.wg_rank.specs.Claims.{IsClaim, AreAtMost, Rises, FallsFirst, IsJudged, weights_for, claim_of_bounds};
ghost use Rattle.wg_rank.specs.declared.fault.JudgeError.TheVariants as errors;
ghost use Rattle.wg_rank.specs.declared.limits.TheConstants.{UNITS};

use crate::gathering::gather_low;
use crate::parts::Parts;
use crate::settling::total;
use crate::{Certificate, JudgeError, UNITS};
use std::alloc::{AllocError, Global};
use wg_graph::{List, Lists};

// The first page whose new bound is smaller, by what flows to it; the dangling pages hold so much.
fn first_smaller(
    low: &[u128],
    inflows: &[u128],
    damping: u64,
    dangling: u128,
    weights: &[u64],
) -> Option<u64>
    requires few { length low.now ≤ MOST_PAGES }
    requires pages { length inflows.now ≡ length low.now }
    requires damped { damping ≤ MOST_DAMPING }
    requires room { All (λ x. x ≤ MOST_PAGES * UNITS) inflows.now }
    requires dangling_room { dangling ≤ MOST_PAGES * UNITS }
    requires weights { AreWeights (length low.now) (weights_or_ones (length low.now) weights.now) }
    ensures { let n = length low.now in
        let next = settled_lows damping n dangling (by_page (weights_or_ones n weights.now)) (by_page inflows.now) in
        MatchOption result (AreAtMost n (by_page low.now) next)
        (λ x. (x < n) × (next x < by_page low.now x) × AreAtMost x (by_page low.now) next) }
{
    if low.is_empty() {
        return None;
    }
    let parts = Parts::of(low.len(), damping, (dangling, dangling), weights);
    for v in 0..low.len() {
        if parts.low(v, inflows[v]) < low[v] {
            return Some(v as u64);
        }
    }
    None
}

// The first page whose bound one round lowers. What flows to the pages is left in `inflows`.
fn first_fall<L: Lists>(
    lists: &mut L,
    damping: u64,
    weights: &[u64],
    low: &[u128],
    inflows: &mut [u128],
) -> Option<u64>
    requires pages { (L.graph lists.old).nodes ≡ length low.now }
    requires claim { IsClaim (record { damping = damping; low = low.now }) }
    requires weights { AreWeights (length low.now) (weights_or_ones (length low.now) weights.now) }
    requires inflow_pages { length inflows.old ≡ length low.now }
    requires empty { All (λ x. x ≡ 0) inflows.old }
    ensures graph { L.graph lists.new ≡ L.graph lists.old }
    ensures first { let w = by_page (weights_or_ones (length low.now) weights.now) in MatchOption result
        (Rises (L.graph lists.old) damping w (by_page low.now))
        (FallsFirst (L.graph lists.old) damping w (by_page low.now)) }
{
    let dangling = gather_low(lists, low, inflows);
    first_smaller(low, inflows, damping, dangling, weights)
}

// What the bounds leave of 1, or the first page whose bound one round lowers.
fn judge_by<L: Lists>(
    alloc: Global,
    damping: u64,
    low: &[u128],
    weights: &[u64],
    lists: &mut L,
) -> Result<u128, JudgeError>
    requires pages { (L.graph lists.old).nodes ≡ length low.now }
    requires claim { IsClaim (record { damping = damping; low = low.now }) }
    requires weights { AreWeights (length low.now) (weights_or_ones (length low.now) weights.now) }
    ensures graph { L.graph lists.new ≡ L.graph lists.old }
    ensures judged { let w = weights_or_ones (length low.now) weights.now in
        IsJudged (L.graph lists.old) (record { damping = damping; low = low.now }) (by_page w) result }
{
    let mut inflows = vec![in alloc; 0; low.len()]?;
    match first_fall(lists, damping, weights, low, &mut inflows) {
        Some(page) => Err(JudgeError::Falls(page)),
        None => Ok(UNITS - total(low)),
    }
}

/// Verifies a certificate by one round of lower bounds, in one pass along the lists of a graph with as many pages. If
/// the round lowers none of its bounds, the answer is what they leave of 1, in units. Without weights, teleport goes to
/// each page alike. It takes 16 bytes for each page, for what flows to it, beside the 16 of the certificate.
pub fn judge<L: Lists>(
    alloc: Global,
    certificate: &Certificate,
    weights: Option<&List>,
    lists: &mut L,
) -> Result<u128, JudgeError>
    requires pages { (L.graph lists.old).nodes ≡ length certificate.now.low }
    requires weights { AreWeights (length certificate.now.low) (weights_for certificate.now (option_copied weights)) }
    ensures graph { L.graph lists.new ≡ L.graph lists.old }
    ensures judged { let w = weights_for certificate.now (option_copied weights.entry) in
        IsJudged (L.graph lists.old) certificate.now (by_page w) result }
    ensures enclosed { let c = certificate.now in let w = weights_for c (option_copied weights.entry) in
        IfOk result (EnclosesStationary (L.graph lists.old) c.damping (by_page w) (by_page c.low)) }
    ensures complete { let c = certificate.now in let w = weights_for c (option_copied weights.entry) in
        (b : Intervals) → AreBounds b → AreBoundsOf b (L.graph lists.old) → claim_of_bounds b ≡ c → b.weights ≡ w
        → (page : ℕ) → result ≢ Err (errors.Falls page) }
{
    // tells that they are those of a graph
    let _pages = lists.nodes();
    let damping = certificate.damping();
    let low = certificate.as_slice();
    match weights {
        Some(list) => judge_by(alloc, damping, low, list.as_slice(), lists),
        None => judge_by(alloc, damping, low, &[], lists),
    }
}
