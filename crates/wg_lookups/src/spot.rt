//! The command `spot`: the successors of one page of an archive that is not checked.
ghost use Rattle.std.specs.Prelude.{◌≡◌, ◌<◌, IsTrue, IfErr};
ghost use Rattle.wg_outside.specs.Outside.{Increased};
ghost use Rattle.wg_outside.specs.Puts.{Puts};
ghost use Rattle.wg_outside.specs.declared.output.Output.TheVariants.{Out};
ghost use Rattle.wg_words.specs.declared.jobs.Job.TheVariants.{Spot};
ghost use Rattle.wg_outcomes.specs.Answers.{IsUnput, status_in};
ghost use Rattle.wg_outcomes.specs.declared.status.Status.TheVariants.{Memory, WriteFault};
ghost use Rattle.wg_outcomes.specs.Commands.{successors_line};
ghost use Rattle.wg_outcomes.specs.Performs.{DoesOrEnds};
ghost use Rattle.wg_lookups.specs.Spotting.{SpotsByChainIn};

use crate::chains::successors_of_page;
use crate::found_file::find_file;
use crate::sampled::sample_offsets;
use crate::shown::write_list;
use std::alloc::Global;
use std::marker::Brand;
use std::sync::ledger::{Blank, Ledger};
use wg_lines::Lines;
use wg_outcomes::{Ending, Input, print_rest};
use wg_outside::{Depot, Sink};
use wg_random::Steps;
use wg_readings::load_params;
use wg_words::Name;

/// Prints the successors of a page, as [`spot_page`] does. The count of the records that are opened is dropped.
pub fn spot<D: Depot, O: Sink>(
    alloc: Global,
    base: &Name,
    page: u64,
    depot: &mut D,
    out: &mut O,
) -> Result<(), Ending>
    ensures { DoesOrEnds ⟦<D as Depot>⟧ ⟦<O as Sink>⟧
        (Spot base.now page) depot.old depot.new out.old out.new result }
{
    uncounted::<Brand, D, O>(alloc, base, page, depot, out, Blank::new(1))
}

// Prints the successors of a page, with a count of its own.
fn uncounted<L: Ledger, D: Depot, O: Sink>(
    alloc: Global,
    base: &Name,
    page: u64,
    depot: &mut D,
    out: &mut O,
    blank: Blank,
) -> Result<(), Ending>
    requires name { blank.name ≡ L.name }
    requires parts { blank.parts ≡ L.parts }
    requires some { 0 < blank.parts }
    ensures { DoesOrEnds ⟦<D as Depot>⟧ ⟦<O as Sink>⟧
        (Spot base.now page) depot.old depot.new out.old out.new result }
{
    let mut steps = Steps::<L>::open(blank);
    spot_page(alloc, base, page, depot, out, &mut steps)
}

/// Prints the successors of a page, by its chain of references alone: of the graph file no other record is read, and
/// the offsets are held against the records of the chain and no others. It goes through the offsets file once, and
/// comes back to it for each page of the chain. It holds a piece of either file, 16 bytes for each 1024th page, a
/// number for each page of the chain and a few of its lists. Each record of the chain is opened once, with a tick.
pub fn spot_page<L: Ledger, D: Depot, O: Sink>(
    alloc: Global,
    base: &Name,
    page: u64,
    depot: &mut D,
    out: &mut O,
    steps: &mut Steps<L>,
) -> Result<(), Ending>
    ensures does { DoesOrEnds ⟦<D as Depot>⟧ ⟦<O as Sink>⟧
        (Spot base.now page) depot.old depot.new out.old out.new result }
    ensures opens { SpotsByChainIn ⟦<D as Depot>⟧ base.now page depot.old steps.old steps.new result }
{
    let params = load_params(alloc, depot, base)?;
    let mut graph = find_file(alloc, depot, base, Input::Graph)?;
    let mut offsets = sample_offsets(alloc, &params, depot, base)?;
    let list = successors_of_page(alloc, &params, page, depot, &mut graph, &mut offsets, steps)?;
    print_line(out, page, list.as_slice())
}

// Prints the line of a page, and nothing else.
fn print_line<O: Sink>(out: &mut O, page: u64, list: &[u64]) -> Result<(), Ending>
    ensures puts { IsTrue O.told → Puts (successors_line page list.now) (O.taken out.old) (O.taken out.new) result }
    ensures only { IfErr result (λ e. IsUnput e.status) }
    ensures failed { status_in result ≡ WriteFault Out → Increased (O.faults out.old) (O.faults out.new) }
    ensures memory { status_in result ≡ Memory → Increased (O.wants out.old) (O.wants out.new) }
    ensures later { O.later out.old out.new }
{
    let mut lines = Lines::new();
    write_list(&mut lines, out, page, list)?;
    print_rest(&mut lines, out)
}
