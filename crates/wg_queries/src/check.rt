//! The command `check`: whether an archive's files are in order.
ghost use Rattle.wg_words.specs.declared.jobs.Job.TheVariants.{Check};
ghost use Rattle.wg_outcomes.specs.Performs.{DoesOrEnds};

use std::alloc::Global;
use wg_outcomes::{Ending, print_ok};
use wg_outside::{Depot, Sink};
use wg_readings::{judge_files, load_params};
use wg_words::Name;

/// Validates the three files of an archive, and prints the line of what they hold. It goes through the graph and the
/// offsets once, beside each other, and holds a piece of each, and the lists that a reference may reach, with a few
/// that wait to be used again.
pub fn check<D: Depot, O: Sink>(
    alloc: Global,
    base: &Name,
    depot: &mut D,
    out: &mut O,
) -> Result<(), Ending>
    ensures { DoesOrEnds ⟦<D as Depot>⟧ ⟦<O as Sink>⟧ (Check base.now) depot.old depot.new out.old out.new result }
{
    let params = load_params(alloc, depot, base)?;
    let bits = judge_files(alloc, &params, depot, base)?;
    print_ok(out, &params, bits)
}
