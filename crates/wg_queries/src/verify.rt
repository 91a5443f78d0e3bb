//! The command `verify`: whether a certificate holds of the graph of an archive.
ghost use Rattle.std.specs.Prelude.{◌≡◌, ◌⊎◌, ◌≤◌, IfErr, IfOk, length};
ghost use Rattle.wg_rank.specs.Weights.{AreWeights};
ghost use Rattle.wg_rank.specs.Claims.{weights_for};
ghost use Rattle.wg_rank.specs.declared.limits.TheConstants.{UNITS};
ghost use Rattle.wg_words.specs.declared.jobs.Job.TheVariants.{Verify};
ghost use Rattle.wg_outcomes.specs.Answers.{Steps, status_in};
ghost use Rattle.wg_readings.specs.Loading.{IsBadCertificate};
ghost use Rattle.wg_outcomes.specs.Performs.{DoesOrEnds};
ghost use Rattle.wg_outcomes.specs.Untold.{VerifiesAnywhere};
ghost use Rattle.wg_outcomes.specs.Verified.{Leaves, with_gap};

use crate::print::print_verified;
use std::alloc::Global;
use wg_graph::{List, Lists};
use wg_outcomes::{Ending, Input, Status};
use wg_outside::{Depot, Sink};
use wg_rank::{CertFault, Certificate, JudgeError, judge};
use wg_readings::{lists_of_records, load, load_certificate, load_params, load_weights};
use wg_words::VerifyJob;

/// Validates the graph of an archive, and checks whether one round of PageRank on it lowers no bound of a certificate,
/// with teleport by the weights that are named or to each page alike; then it prints what the bounds leave of 1. It
/// goes once along the lists of the graph. It holds the bytes of the graph file, a row of the greatest outdegree for
/// each page that a reference reaches and one more, and 16 bytes a page for the bounds and 16 for what flows to it, 8
/// more with weights.
pub fn verify<D: Depot, O: Sink>(
    alloc: Global,
    job: &VerifyJob,
    depot: &mut D,
    out: &mut O,
) -> Result<(), Ending>
    ensures does { DoesOrEnds ⟦<D as Depot>⟧ ⟦<O as Sink>⟧ (Verify job.now)
        depot.old depot.new out.old out.new result }
    ensures anywhere { VerifiesAnywhere ⟦<O as Sink>⟧ job.now.weights out.old out.new (status_in result) }
{
    let params = load_params(alloc, depot, &job.base)?;
    let bytes = load(alloc, depot, &job.base, Input::Graph)?;
    let mut lists = lists_of_records(alloc, &params, bytes.as_slice())?;
    let pages = lists.nodes();
    let weighed = load_weights(alloc, pages, depot, &job.weights)?;
    let claimed = load_certificate(alloc, pages, depot, &job.certificate)?;
    let left = judge_bounds(alloc, &claimed, &weighed, &mut lists)?;
    print_verified(out, &claimed, left)
}

// What the bounds of a certificate leave of 1, if a round lowers none of them.
fn judge_bounds<L: Lists>(
    alloc: Global,
    certificate: &Certificate,
    weights: &Option<List>,
    lists: &mut L,
) -> Result<u128, Ending>
    requires pages { (L.graph lists.old).nodes ≡ length certificate.now.low }
    requires weights { AreWeights (length certificate.now.low) (weights_for certificate.now weights.now) }
    ensures steps { Steps (with_gap (L.graph lists.old) certificate.now weights.now) result }
    ensures only { IfErr result (λ e. (e.status ≡ Status.Memory) ⊎ IsBadCertificate e) }
    ensures within { IfOk result (λ left. left ≤ UNITS) }
    ensures leaves { IfOk result (Leaves (L.graph lists.old) certificate.now weights.now) }
{
    match judge(alloc, certificate, weights.as_ref(), lists) {
        Ok(left) => Ok(left),
        Err(JudgeError::Falls(page)) => Err(Ending::of(Status::BadCertificate(CertFault::Falls(
            page,
        )))),
        Err(JudgeError::Memory) => Err(Ending::of(Status::Memory)),
    }
}
