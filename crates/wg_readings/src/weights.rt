//! The weights of pages.
ghost use Rattle.std.specs.Prelude.{◌≡◌, ◌⊎◌, nat_eq, IfErr, IfOk, length};
ghost use Rattle.wg_rank.specs.Sum.{sum_below};
ghost use Rattle.wg_rank.specs.Intervals.{by_page};
ghost use Rattle.wg_rank.specs.Weights.{AreWeights};
ghost use Rattle.wg_outcomes.specs.Answers.{Steps};
ghost use Rattle.wg_outcomes.specs.Judged.{with_weights};
ghost use Rattle.wg_readings.specs.Loading.{IsBadWeights};

use std::alloc::Global;
use wg_arcs::{NumbersError, read_numbers};
use wg_graph::List;
use wg_outcomes::{Ending, Status, WeightsFault};
use wg_rank::MOST_WEIGHT;

// Whether no weight is above 0.
fn all_zero(weights: &[u64]) -> bool
    ensures { result ≡ nat_eq (sum_below (length weights.now) (by_page weights.now)) 0 }
{
    for weight in weights {
        if *weight > 0 {
            return false;
        }
    }
    true
}

/// The weights of so many pages that a text gives.
pub fn weights_of_text(alloc: Global, bytes: &[u8], nodes: u64) -> Result<List, Ending>
    ensures steps { Steps (with_weights nodes bytes.now) result }
    ensures only { IfErr result (λ e. (e.status ≡ Status.Memory) ⊎ IsBadWeights nodes e) }
    ensures weights { IfOk result (AreWeights nodes) }
{
    let weights = match read_numbers(alloc, bytes, nodes, MOST_WEIGHT + 1) {
        Ok(weights) => weights,
        Err(NumbersError::Fault(fault)) => {
            return Err(bad_weights(WeightsFault::Numbers(fault), nodes));
        }
        Err(NumbersError::Memory) => return Err(Ending::of(Status::Memory)),
    };
    if nodes > 0 && all_zero(weights.as_slice()) {
        return Err(bad_weights(WeightsFault::Zero, nodes));
    }
    Ok(weights)
}

// How a job ends whose weights, of so many pages, are refused.
fn bad_weights(fault: WeightsFault, nodes: u64) -> Ending
    ensures { result ≡ record { status = Status.BadWeights fault; promised = nodes } }
{
    Ending {
        status: Status::BadWeights(fault),
        promised: nodes,
    }
}
