ghost use Rattle.std.specs.Prelude.{◌≡◌, false};
ghost use Rattle.wg_words.specs.Jobs.{IsWithin};
ghost use Rattle.wg_outcomes.specs.Answers.{status_in};
ghost use Rattle.wg_outcomes.specs.Performs.{DoesOrEnds};
ghost use Rattle.wg_outcomes.specs.Untold.{DoesAnywhere};
ghost use Rattle.wg_cli.specs.Wanted.{calls_depot};

use std::alloc::Global;
use wg_builds::build::build;
use wg_builds::bulk::bulk;
use wg_builds::import::import;
use wg_lookups::show::show;
use wg_lookups::spot::spot;
use wg_outcomes::Ending;
use wg_outside::{Depot, Sink};
use wg_queries::check::check;
use wg_queries::printing::{Listing, print_records};
use wg_queries::rank::rank;
use wg_queries::verify::verify;
use wg_transforms::quotient::quotient;
use wg_transforms::recode::recode;
use wg_transforms::transpose::transpose;
use wg_transforms::union::union;
use wg_words::{Job, Origin, WriteJob};

/// Does the job by the function of its command.
pub fn perform<D: Depot, O: Sink>(
    alloc: Global,
    job: &Job,
    depot: &mut D,
    out: &mut O,
) -> Result<(), Ending>
    requires { IsWithin job.now }
    ensures does { DoesOrEnds ⟦<D as Depot>⟧ ⟦<O as Sink>⟧ job.now depot.old depot.new out.old out.new result }
    ensures anywhere { DoesAnywhere ⟦<D as Depot>⟧ ⟦<O as Sink>⟧ job.now depot.old depot.new out.old out.new
        (status_in result) }
    ensures untouched { calls_depot job.now ≡ false → depot.new ≡ depot.old }
{
    match job {
        Job::Check { base } => check(alloc, base, depot, out),
        Job::Arcs { base } => print_records(alloc, base, Listing::Arcs, depot, out),
        Job::Ascii { base } => print_records(alloc, base, Listing::Ascii, depot, out),
        Job::Offsets { base } => print_records(alloc, base, Listing::Offsets, depot, out),
        Job::Show { base, pages } => show(alloc, base, pages, depot, out),
        Job::Spot { base, page } => spot(alloc, base, *page, depot, out),
        Job::Rank(job) => rank(alloc, job, depot, out),
        Job::Verify(job) => verify(alloc, job, depot, out),
        Job::Write(job) => write(alloc, job, depot, out),
        Job::Bulk { seed, pages } => bulk(alloc, *seed, *pages, out),
    }
}

// Writes an archive by the function of its command.
fn write<D: Depot, O: Sink>(
    alloc: Global,
    job: &WriteJob,
    depot: &mut D,
    out: &mut O,
) -> Result<(), Ending>
    requires { IsWithin (Job.Write job.now) }
    ensures { DoesOrEnds ⟦<D as Depot>⟧ ⟦<O as Sink>⟧ (Job.Write job.now) depot.old depot.new out.old out.new result }
{
    let output = &job.output;
    let layout = &job.layout;
    match &job.origin {
        Origin::Build { arcs, nodes } => build(alloc, arcs, output, *nodes, layout, depot, out),
        Origin::Import { text } => import(alloc, text, output, layout, depot, out),
        Origin::Quotient {
            input,
            map,
            classes,
        } => quotient(alloc, input, map, output, *classes, layout, depot, out),
        Origin::Recode { input } => recode(alloc, input, output, layout, depot, out),
        Origin::Union { first, second } => union(alloc, first, second, output, layout, depot, out),
        Origin::Transpose { input } => transpose(alloc, input, output, layout, depot, out),
    }
}
