//! The commands `arcs`, `ascii` and `offsets`: a text of each record of a graph, one after the other.
ghost use Rattle.std.specs.Prelude.{IsTrue};
ghost use Rattle.wg_lines.specs.Printing.{Prints};
ghost use Rattle.wg_outside.specs.Refusals.{SinkRefusals};
ghost use Rattle.wg_outcomes.specs.Performs.{DoesOrEnds};
ghost use Rattle.wg_queries.specs.Printed.{PrintsAgain, head_of, job_of, listed, piece_of};

use crate::print::write_line;
use std::alloc::Global;
use wg_lines::Lines;
use wg_outcomes::{Ending, print_rest};
use wg_outside::{Depot, Sink, WriteError};
use wg_params::Params;
use wg_readings::{end_records, judge_graph, load_params, next_record, open_graph};
use wg_stream::Reader;
use wg_words::Name;

/// What is printed of each record: the lines of its arcs, the line of its list in the ASCIIGraph text, or that of the
/// offset after it.
#[derive(Clone, Copy, Debug)]
pub enum Listing {
    Arcs,
    Ascii,
    Offsets,
}

/// Prints a text of each record of a graph. It goes through the graph file twice: it validates the whole graph before
/// it prints. It holds a piece of the file, and the lists that a reference may reach, with a few that wait to be
/// used again.
pub fn print_records<D: Depot, O: Sink>(
    alloc: Global,
    base: &Name,
    listing: Listing,
    depot: &mut D,
    out: &mut O,
) -> Result<(), Ending>
    ensures { DoesOrEnds ⟦<D as Depot>⟧ ⟦<O as Sink>⟧
        (job_of listing base.now) depot.old depot.new out.old out.new result }
{
    let params = load_params(alloc, depot, base)?;
    judge_graph(alloc, &params, depot, base)?;
    print_again(alloc, &params, listing, depot, base, out)
}

// Reads the file again, and prints the text of each record as it comes.
fn print_again<D: Depot, O: Sink>(
    alloc: Global,
    params: &Params,
    listing: Listing,
    depot: &mut D,
    base: &Name,
    out: &mut O,
) -> Result<(), Ending>
    ensures prints { PrintsAgain ⟦<D as Depot>⟧ ⟦<O as Sink>⟧ base.now params.now (listed listing params.now.nodes)
        depot.old depot.new out.old out.new result }
    ensures later { O.later out.old out.new }
{
    let mut reader = open_graph(alloc, params, base)?;
    let mut lines = Lines::new();
    print_head(&mut lines, out, listing, params)?;
    for page in 0..params.nodes() {
        next_record(&mut reader, depot, params)?;
        print_record(&mut lines, out, listing, page, &reader)?;
    }
    end_records(&mut reader, depot, params)?;
    print_rest(&mut lines, out)
}

// What comes before the first record: of the ASCIIGraph text it is the number of pages, and of the offsets it is 0,
// where this record begins.
fn print_head<O: Sink>(
    lines: &mut Lines,
    out: &mut O,
    listing: Listing,
    params: &Params,
) -> Result<(), WriteError>
    ensures prints { IsTrue O.told → Prints (head_of listing params.now.nodes) (O.taken out.old)
        (O.taken out.new) lines.old lines.new result }
    ensures later { O.later out.old out.new }
    ensures refusals { SinkRefusals ⟦<O as Sink>⟧ out.old out.new result }
{
    match listing {
        Listing::Arcs => Ok(()),
        Listing::Ascii => wg_ascii::print_nodes(lines, out, params.nodes()),
        Listing::Offsets => write_line(lines, out, 0),
    }
}

// The text of the record of this page, which was just read.
fn print_record<O: Sink>(
    lines: &mut Lines,
    out: &mut O,
    listing: Listing,
    page: u64,
    reader: &Reader,
) -> Result<(), WriteError>
    ensures prints { IsTrue O.told → Prints (piece_of listing page reader.now.pages.list reader.now.at)
        (O.taken out.old) (O.taken out.new) lines.old lines.new result }
    ensures later { O.later out.old out.new }
    ensures refusals { SinkRefusals ⟦<O as Sink>⟧ out.old out.new result }
{
    match listing {
        Listing::Arcs => wg_arcs::print_list(lines, out, page, reader.list()),
        Listing::Ascii => wg_ascii::print_list(lines, out, reader.list()),
        Listing::Offsets => write_line(lines, out, reader.at()),
    }
}
