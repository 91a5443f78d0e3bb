//! The lines of pages with their successors.
ghost use Rattle.std.specs.Prelude.{map, IsTrue};
ghost use Rattle.wg_lines.specs.Printing.{Prints};
ghost use Rattle.wg_outside.specs.Puts.{joined};
ghost use Rattle.wg_outside.specs.Refusals.{SinkRefusals};
ghost use Rattle.wg_outcomes.specs.Answers.{PrintRefusals};
ghost use Rattle.wg_outcomes.specs.Commands.{spaced, successors_line};
ghost use Rattle.wg_random.specs.Answer.{list_in};

use wg_iterators::Successors;
use wg_lines::Lines;
use wg_outcomes::{Ending, output_ending};
use wg_outside::{Sink, WriteError};
use wg_random::Page;

// A number behind a space.
fn write_spaced<S: Sink>(lines: &mut Lines, sink: &mut S, number: u64) -> Result<(), WriteError>
    ensures prints { IsTrue S.told → Prints (spaced number) (S.taken sink.old)
        (S.taken sink.new) lines.old lines.new result }
    ensures later { S.later sink.old sink.new }
    ensures refusals { SinkRefusals ⟦<S as Sink>⟧ sink.old sink.new result }
{
    lines.byte(sink, b' ')?;
    lines.number(sink, number)
}

// The successors that are still to come, each as it comes.
fn write_coming<S: Sink>(
    lines: &mut Lines,
    sink: &mut S,
    successors: &mut Successors<'_>,
) -> Result<(), WriteError>
    ensures prints { IsTrue S.told → Prints (joined (map spaced successors.old.list)) (S.taken sink.old)
        (S.taken sink.new) lines.old lines.new result }
    ensures later { S.later sink.old sink.new }
    ensures refusals { SinkRefusals ⟦<S as Sink>⟧ sink.old sink.new result }
{
    'successors: while let Some(successor) = successors.next() {
        write_spaced(lines, sink, successor)?;
    }
    Ok(())
}

// The line of a page whose successors are all still to come.
fn write_page<S: Sink>(
    lines: &mut Lines,
    sink: &mut S,
    page: u64,
    successors: &mut Successors<'_>,
) -> Result<(), WriteError>
    ensures prints { IsTrue S.told → Prints (successors_line page successors.old.list) (S.taken sink.old)
        (S.taken sink.new) lines.old lines.new result }
    ensures later { S.later sink.old sink.new }
    ensures refusals { SinkRefusals ⟦<S as Sink>⟧ sink.old sink.new result }
{
    lines.number(sink, page)?;
    write_coming(lines, sink, successors)?;
    lines.byte(sink, b'\n')
}

// The successors of a list.
fn write_listed<S: Sink>(lines: &mut Lines, sink: &mut S, list: &[u64]) -> Result<(), WriteError>
    ensures prints { IsTrue S.told → Prints (joined (map spaced list.now)) (S.taken sink.old)
        (S.taken sink.new) lines.old lines.new result }
    ensures later { S.later sink.old sink.new }
    ensures refusals { SinkRefusals ⟦<S as Sink>⟧ sink.old sink.new result }
{
    for successor in list {
        write_spaced(lines, sink, *successor)?;
    }
    Ok(())
}

/// The line of a page whose successors are listed.
pub fn write_list<S: Sink>(
    lines: &mut Lines,
    sink: &mut S,
    page: u64,
    list: &[u64],
) -> Result<(), WriteError>
    ensures prints { IsTrue S.told → Prints (successors_line page list.now) (S.taken sink.old)
        (S.taken sink.new) lines.old lines.new result }
    ensures later { S.later sink.old sink.new }
    ensures refusals { SinkRefusals ⟦<S as Sink>⟧ sink.old sink.new result }
{
    lines.number(sink, page)?;
    write_listed(lines, sink, list)?;
    lines.byte(sink, b'\n')
}

// The line of a page that was read.
fn write_read<S: Sink>(
    lines: &mut Lines,
    sink: &mut S,
    page: u64,
    read: Page<'_>,
) -> Result<(), WriteError>
    ensures prints { IsTrue S.told → Prints (successors_line page (list_in read.entry)) (S.taken sink.old)
        (S.taken sink.new) lines.old lines.new result }
    ensures later { S.later sink.old sink.new }
    ensures refusals { SinkRefusals ⟦<S as Sink>⟧ sink.old sink.new result }
{
    match read {
        Page::Opened(mut successors) => write_page(lines, sink, page, &mut successors),
        Page::Listed(list) => write_list(lines, sink, page, list.as_slice()),
    }
}

/// Prints the line of a page that was read.
pub fn print_read<O: Sink>(
    lines: &mut Lines,
    out: &mut O,
    page: u64,
    read: Page<'_>,
) -> Result<(), Ending>
    ensures prints { IsTrue O.told → Prints (successors_line page (list_in read.entry)) (O.taken out.old)
        (O.taken out.new) lines.old lines.new result }
    ensures later { O.later out.old out.new }
    ensures refusals { PrintRefusals ⟦<O as Sink>⟧ out.old out.new result }
{
    match write_read(lines, out, page, read) {
        Ok(()) => Ok(()),
        Err(error) => Err(output_ending(error)),
    }
}
