//! The command `show`: the successors of pages, each page read by its offset.
ghost use Rattle.std.specs.Prelude.{◌≡◌, ◌+◌, ◌<◌, ◌≤◌, Ok, IfErr, OnOk, IsTrue, All};
ghost use Rattle.wg_outside.specs.Outside.{Increased};
ghost use Rattle.wg_outside.specs.Puts.{Puts};
ghost use Rattle.wg_outside.specs.declared.output.Output.TheVariants.{Out};
ghost use Rattle.wg_grammar.specs.Archive.{Accepted, ReadsGraph};
ghost use Rattle.wg_words.specs.declared.jobs.Job.TheVariants.{Show};
ghost use Rattle.wg_outcomes.specs.Answers.{IsUnput, status_in};
ghost use Rattle.wg_outcomes.specs.Commands.{successors_lines};
ghost use Rattle.wg_outcomes.specs.Performs.{DoesOrEnds};
ghost use Rattle.wg_stream.specs.AllRecords.{AllRecords};
ghost use Rattle.wg_lookups.specs.Showing.{OpensChains, OpensChainsBy, PrintsLine, chain_records};

use crate::shown::print_read;
use std::alloc::Global;
use std::marker::Brand;
use std::sync::ledger::{Blank, Ledger};
use wg_graph::List;
use wg_lines::Lines;
use wg_outcomes::{Ending, Input, Status, print_rest};
use wg_outside::{Depot, Sink};
use wg_random::{Archive, ListError, Records, Steps};
use wg_readings::{find_pages, judge_offsets, load, load_params, passed_of_graph};
use wg_words::Name;

/// Prints the successors of pages, a line for each, as [`show_pages`] does. The count of the records that are opened is
/// dropped.
pub fn show<D: Depot, O: Sink>(
    alloc: Global,
    base: &Name,
    pages: &List,
    depot: &mut D,
    out: &mut O,
) -> Result<(), Ending>
    ensures { DoesOrEnds ⟦<D as Depot>⟧ ⟦<O as Sink>⟧
        (Show base.now pages.now) depot.old depot.new out.old out.new result }
{
    uncounted::<Brand, D, O>(alloc, base, pages, depot, out, Blank::new(1))
}

// Prints the successors of pages, with a count of its own.
fn uncounted<L: Ledger, D: Depot, O: Sink>(
    alloc: Global,
    base: &Name,
    pages: &List,
    depot: &mut D,
    out: &mut O,
    blank: Blank,
) -> Result<(), Ending>
    requires name { blank.name ≡ L.name }
    requires parts { blank.parts ≡ L.parts }
    requires some { 0 < blank.parts }
    ensures { DoesOrEnds ⟦<D as Depot>⟧ ⟦<O as Sink>⟧
        (Show base.now pages.now) depot.old depot.new out.old out.new result }
{
    let mut steps = Steps::<L>::open(blank);
    show_pages(alloc, base, pages, depot, out, &mut steps)
}

/// Prints the successors of pages, a line for each. It validates the three files before it prints, and looks whether
/// all pages are there that it is asked for. It holds the bytes of the graph file and 8 bytes a page for the offsets;
/// the offsets file is read in pieces. Then it prints as [`print_pages`] does, and opens the records of each page's
/// chain of references, each once and with a tick.
pub fn show_pages<L: Ledger, D: Depot, O: Sink>(
    alloc: Global,
    base: &Name,
    pages: &List,
    depot: &mut D,
    out: &mut O,
    steps: &mut Steps<L>,
) -> Result<(), Ending>
    ensures does { DoesOrEnds ⟦<D as Depot>⟧ ⟦<O as Sink>⟧
        (Show base.now pages.now) depot.old depot.new out.old out.new result }
    ensures opens { OpensChainsBy ⟦<D as Depot>⟧ base.now pages.now depot.old steps.old steps.new result }
{
    let params = load_params(alloc, depot, base)?;
    let bytes = load(alloc, depot, base, Input::Graph)?;
    let graph = bytes.as_slice();
    let found = passed_of_graph(alloc, &params, graph)?;
    judge_offsets(alloc, &params, &found.offsets, depot, base)?;
    find_pages(&params, pages.as_slice())?;
    let records = Records::of_pass(graph, params, found);
    print_pages(alloc, &records.archive(), pages.as_slice(), out, steps)
}

/// Prints the successors of pages of an archive that was checked, a line for each, in their order. Of each page, the
/// records of its chain of references are opened, each once and with a tick. It ends if memory runs out or the output
/// refuses bytes.
///
/// It holds one page at a time: a number for each page of its chain, and a box for each but the first, or two lists if
/// the chain has more than [`CHAIN_PAGES`](wg_iterators::CHAIN_PAGES) pages. A page takes the time of the words of
/// these records and of the numbers that it is copied from.
pub fn print_pages<L: Ledger, O: Sink>(
    alloc: Global,
    archive: &Archive<'_>,
    pages: &[u64],
    out: &mut O,
    steps: &mut Steps<L>,
) -> Result<(), Ending>
    requires { All (λ page. page < archive.now.params.nodes) pages.now }
    ensures puts { IsTrue O.told → (a : Accepted) → ReadsGraph archive.now.params archive.now.bits (Ok a)
        → Puts (successors_lines a.graph pages.now) (O.taken out.old) (O.taken out.new) result }
    ensures only { IfErr result (λ e. IsUnput e.status) }
    ensures failed { status_in result ≡ Status.WriteFault Out → Increased (O.faults out.old) (O.faults out.new) }
    ensures later { O.later out.old out.new }
    ensures opens { OpensChains archive.now.params archive.now.bits pages.now steps.old steps.new result }
{
    let mut lines = Lines::new();
    for page in pages {
        show_page(alloc, archive, *page, &mut lines, out, steps)?;
    }
    print_rest(&mut lines, out)
}

// Prints the line of a page.
fn show_page<L: Ledger, O: Sink>(
    alloc: Global,
    archive: &Archive<'_>,
    page: u64,
    lines: &mut Lines,
    out: &mut O,
    steps: &mut Steps<L>,
) -> Result<(), Ending>
    requires { page < archive.now.params.nodes }
    ensures line { PrintsLine ⟦<O as Sink>⟧ archive.now page out.old out.new lines.old lines.new result }
    ensures each { (r : AllRecords archive.now.params archive.now.bits)
        → OnOk result (steps.new ≡ steps.old + chain_records r.records page) }
    ensures most { (r : AllRecords archive.now.params archive.now.bits)
        → steps.new ≤ steps.old + chain_records r.records page }
{
    match archive.read(alloc, page, steps) {
        Ok(read) => print_read(lines, out, page, read),
        Err(ListError::Memory) => Err(Ending::of(Status::Memory)),
        Err(ListError::NoPage) => unreachable!(),
    }
}
