//! The command `rank`: the pages by their PageRank, with bounds that enclose it.
ghost use Rattle.std.specs.Prelude.{◌≡◌, ◌⊎◌, ◌≤◌, IsTrue, Some};
ghost use Rattle.wg_outside.specs.Outside.{Increased};
ghost use Rattle.wg_outside.specs.Puts.{Puts};
ghost use Rattle.wg_params.specs.declared.limits.TheConstants.{MOST_DAMPING, MOST_ROUNDS};
ghost use Rattle.wg_words.specs.declared.jobs.Job.TheVariants.{Rank};
ghost use Rattle.wg_outcomes.specs.Answers.{PrintRefusals, status_in};
ghost use Rattle.wg_outcomes.specs.Causes.{IncreasedAt};
ghost use Rattle.wg_outcomes.specs.Performs.{Certifies, DoesOrEnds};
ghost use Rattle.wg_outcomes.specs.Ranked.{text_for};
ghost use Rattle.wg_outcomes.specs.Readings.{Readings};
ghost use Rattle.wg_outcomes.specs.Untold.{RanksAnywhere};
ghost use Rattle.wg_outcomes.specs.declared.status.Status.TheVariants.{Memory};

use crate::certificate::write_file;
use crate::print::print_ranking;
use std::alloc::Global;
use wg_graph::Lists;
use wg_order::FirstPages;
use wg_outcomes::{Ending, Input};
use wg_outside::{Depot, Sink};
use wg_rank::{Bounds, bounds_by_rounds, pulled_for, room_for};
use wg_readings::{lists_of_records, load, load_params, load_weights};
use wg_words::{Name, RankJob};

/// Prints the first pages of the ranking, with their bounds and positions, with teleport by the weights that are named
/// or to each page alike. If a certificate is named, the lower bounds are written to it before anything is printed. It
/// validates the whole graph and the weights before that, and takes all its memory before the first round: the bytes of
/// the graph file, a row of the greatest outdegree for each page that a reference reaches and one more, and 64 bytes a
/// page for bounds and ranking, 8 more with weights. Rounds go along the runs of the pages that link to each page, if
/// these fit 192 bytes a page and memory suffices; else each round decodes all lists again.
pub fn rank<D: Depot, O: Sink>(
    alloc: Global,
    job: &RankJob,
    depot: &mut D,
    out: &mut O,
) -> Result<(), Ending>
    requires rounds { job.now.rounds ≤ MOST_ROUNDS }
    requires damping { job.now.damping ≤ MOST_DAMPING }
    ensures does { DoesOrEnds ⟦<D as Depot>⟧ ⟦<O as Sink>⟧ (Rank job.now)
        depot.old depot.new out.old out.new result }
    ensures anywhere { RanksAnywhere ⟦<D as Depot>⟧ ⟦<O as Sink>⟧ job.now
        depot.old depot.new out.old out.new (status_in result) }
{
    let params = load_params(alloc, depot, &job.base)?;
    let bytes = load(alloc, depot, &job.base, Input::Graph)?;
    let mut lists = lists_of_records(alloc, &params, bytes.as_slice())?;
    let given = load_weights(alloc, lists.nodes(), depot, &job.weights)?;
    let first = room_for(alloc, &lists, given, job.damping)?;
    let pulled = pulled_for(alloc, &mut lists);
    let bounds = bounds_by_rounds(pulled, first, &mut lists, job.rounds);
    match &job.certificate {
        None => print_ranks(out, bounds, job),
        Some(name) => certify(bounds, name, job, depot, out),
    }
}

// Prints the first pages of the ranking by these bounds. It takes no memory, so that the output alone can stop it.
fn print_ranks<O: Sink>(out: &mut O, bounds: Bounds, job: &RankJob) -> Result<(), Ending>
    ensures puts { IsTrue O.told → (r : Readings)
        → Puts (text_for r job.now bounds) (O.taken out.old) (O.taken out.new) result }
    ensures later { O.later out.old out.new }
    ensures refusals { PrintRefusals ⟦<O as Sink>⟧ out.old out.new result }
{
    let pages = bounds.lower().len() as u64;
    let first = FirstPages::of(bounds, job.top.min(pages));
    print_ranking(out, &first)
}

// Writes the certificate of these bounds, and then prints the first pages of the ranking by them. It takes no memory,
// so that the certificate's file and the output alone can stop it.
fn certify<D: Depot, O: Sink>(
    bounds: Bounds,
    name: &Name,
    job: &RankJob,
    depot: &mut D,
    out: &mut O,
) -> Result<(), Ending>
    ensures does { Certifies ⟦<D as Depot>⟧ ⟦<O as Sink>⟧
        bounds name.now job.now depot.old depot.new out.old out.new result }
    ensures later { O.later out.old out.new }
    ensures wants { status_in result ≡ Memory → Increased (O.wants out.old) (O.wants out.new)
        ⊎ IncreasedAt (λ c. c.wants) (Some name.now) (D.counts depot.old) (D.counts depot.new) }
{
    write_file(&bounds, name, depot)?;
    print_ranks(out, bounds, job)
}
