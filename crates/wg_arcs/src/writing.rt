ghost use Rattle.std.specs.Prelude.{◌≡◌, ◌≤◌, [], ◌++◌, take, codes, decimal, IsTrue, OnErr};
ghost use Rattle.wg_lines.specs.Printing.{Prints};
ghost use Rattle.wg_outside.specs.Puts.{Puts};
ghost use Rattle.wg_outside.specs.Refusals.{SinkRefusals};
ghost use Rattle.wg_lines.specs.declared.lines.TheConstants.{MOST_START};
ghost use Rattle.wg_arcs.specs.Text.{page_lines, text_of_graph};

use wg_graph::Graph;
use wg_lines::{Lines, MOST_START};
use wg_num::decimal_at;
use wg_outside::{Sink, WriteError};

/// Writes what the lines of a page's arcs begin with: its number, and a space.
pub(crate) fn write_start(page: u64, start: &mut [u8; MOST_START]) -> usize
    ensures within { result ≤ MOST_START }
    ensures start { take result start.new ≡ decimal page ++ codes " " }
{
    let count = decimal_at(page, &mut start[..]);
    start[count] = b' ';
    count + 1
}

/// Prints the lines of a page, in the order of its list, through a buffer that serves for other pages too; their
/// beginning is written once.
pub fn print_list<S: Sink>(
    lines: &mut Lines,
    sink: &mut S,
    page: u64,
    list: &[u64],
) -> Result<(), WriteError>
    ensures prints { IsTrue S.told → Prints (page_lines page list.now) (S.taken sink.old) (S.taken sink.new) lines.old
        lines.new result }
    ensures empty { OnErr result (lines.new ≡ []) }
    ensures later { S.later sink.old sink.new }
    ensures refusals { SinkRefusals ⟦<S as Sink>⟧ sink.old sink.new result }
{
    let mut digits = [0; MOST_START];
    let count = write_start(page, &mut digits);
    // A copy that no other call has been lent, so that it can stay in registers.
    let start = digits;
    for v in list {
        lines.pair_after(sink, &start, count, *v)?;
    }
    Ok(())
}

/// Writes the lines of a page: prints them through a buffer of its own, and sends all out. It takes no memory, and one
/// call of the sink for some hundred arcs.
pub fn write_list<S: Sink>(page: u64, list: &[u64], sink: &mut S) -> Result<(), WriteError>
    ensures puts { IsTrue S.told → Puts (page_lines page list.now) (S.taken sink.old) (S.taken sink.new) result }
    ensures later { S.later sink.old sink.new }
    ensures refusals { SinkRefusals ⟦<S as Sink>⟧ sink.old sink.new result }
{
    let mut lines = Lines::new();
    print_list(&mut lines, sink, page, list)?;
    lines.flush(sink)
}

/// Writes the text of a graph, by [`write_list`] for each page in turn. It takes no memory. The sink is called for each
/// page that has arcs, and for each some hundred arcs of a page that has more.
pub fn write<S: Sink>(graph: &Graph, sink: &mut S) -> Result<(), WriteError>
    ensures puts { IsTrue S.told → Puts (text_of_graph graph.now) (S.taken sink.old) (S.taken sink.new) result }
    ensures later { S.later sink.old sink.new }
    ensures refusals { SinkRefusals ⟦<S as Sink>⟧ sink.old sink.new result }
{
    for page in 0..graph.nodes() {
        write_list(page, graph.list(page), sink)?;
    }
    Ok(())
}
