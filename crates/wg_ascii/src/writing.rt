ghost use Rattle.std.specs.Prelude.{◌≡◌, [], IsTrue, OnErr};
ghost use Rattle.wg_lines.specs.Printing.{Prints};
ghost use Rattle.wg_outside.specs.Puts.{Puts};
ghost use Rattle.wg_outside.specs.Refusals.{SinkRefusals};
ghost use Rattle.wg_ascii.specs.Text.{nodes_line, word_after, words_after, list_words, list_line, text_of_graph};

use wg_graph::Graph;
use wg_lines::Lines;
use wg_outside::{Sink, WriteError};

/// Prints the first line of a text, which tells the number of pages.
pub fn print_nodes<S: Sink>(lines: &mut Lines, sink: &mut S, nodes: u64) -> Result<(), WriteError>
    ensures prints { IsTrue S.told →
        Prints (nodes_line nodes) (S.taken sink.old) (S.taken sink.new) lines.old lines.new result }
    ensures empty { OnErr result (lines.new ≡ []) }
    ensures later { S.later sink.old sink.new }
    ensures refusals { SinkRefusals ⟦<S as Sink>⟧ sink.old sink.new result }
{
    lines.number(sink, nodes)?;
    lines.byte(sink, b'\n')
}

// Prints a space and a number.
#[inline(always)]
fn print_word<S: Sink>(lines: &mut Lines, sink: &mut S, v: u64) -> Result<(), WriteError>
    ensures prints { IsTrue S.told →
        Prints (word_after v) (S.taken sink.old) (S.taken sink.new) lines.old lines.new result }
    ensures empty { OnErr result (lines.new ≡ []) }
    ensures later { S.later sink.old sink.new }
    ensures refusals { SinkRefusals ⟦<S as Sink>⟧ sink.old sink.new result }
{
    lines.byte(sink, b' ')?;
    lines.number(sink, v)
}

// Prints numbers, a space before each.
fn print_after<S: Sink>(lines: &mut Lines, sink: &mut S, list: &[u64]) -> Result<(), WriteError>
    ensures prints { IsTrue S.told →
        Prints (words_after list.now) (S.taken sink.old) (S.taken sink.new) lines.old lines.new result }
    ensures empty { OnErr result (lines.new ≡ []) }
    ensures later { S.later sink.old sink.new }
    ensures refusals { SinkRefusals ⟦<S as Sink>⟧ sink.old sink.new result }
{
    for v in list {
        print_word(lines, sink, *v)?;
    }
    Ok(())
}

// Prints numbers, parted by spaces.
fn print_words<S: Sink>(lines: &mut Lines, sink: &mut S, list: &[u64]) -> Result<(), WriteError>
    ensures prints { IsTrue S.told →
        Prints (list_words list.now) (S.taken sink.old) (S.taken sink.new) lines.old lines.new result }
    ensures empty { OnErr result (lines.new ≡ []) }
    ensures later { S.later sink.old sink.new }
    ensures refusals { SinkRefusals ⟦<S as Sink>⟧ sink.old sink.new result }
{
    match list.split_first() {
        Some((first, others)) => {
            lines.number(sink, *first)?;
            print_after(lines, sink, others)
        }
        None => Ok(()),
    }
}

/// Prints the line of a page with these successors.
pub fn print_list<S: Sink>(lines: &mut Lines, sink: &mut S, list: &[u64]) -> Result<(), WriteError>
    ensures prints { IsTrue S.told →
        Prints (list_line list.now) (S.taken sink.old) (S.taken sink.new) lines.old lines.new result }
    ensures empty { OnErr result (lines.new ≡ []) }
    ensures later { S.later sink.old sink.new }
    ensures refusals { SinkRefusals ⟦<S as Sink>⟧ sink.old sink.new result }
{
    print_words(lines, sink, list)?;
    lines.byte(sink, b'\n')
}

/// Writes the ASCIIGraph text of a graph. It takes no memory, and one call of the sink for some hundred numbers.
pub fn write<S: Sink>(graph: &Graph, sink: &mut S) -> Result<(), WriteError>
    ensures puts { IsTrue S.told → Puts (text_of_graph graph.now) (S.taken sink.old) (S.taken sink.new) result }
    ensures later { S.later sink.old sink.new }
    ensures refusals { SinkRefusals ⟦<S as Sink>⟧ sink.old sink.new result }
{
    let mut lines = Lines::new();
    print_nodes(&mut lines, sink, graph.nodes())?;
    for page in 0..graph.nodes() {
        print_list(&mut lines, sink, graph.list(page))?;
    }
    lines.flush(sink)
}
