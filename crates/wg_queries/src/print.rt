//! What goes to the output.
ghost use Rattle.std.specs.Prelude.{◌≡◌, ◌≤◌, ◌<◌, length, slice_index, IsTrue, Err};
ghost use Rattle.wg_outside.specs.Puts.{Puts};
ghost use Rattle.wg_outside.specs.Refusals.{SinkRefusals};
ghost use Rattle.wg_outcomes.specs.Answers.{PrintRefusals};
ghost use Rattle.wg_lines.specs.Printing.{Prints};
ghost use Rattle.wg_lines.specs.declared.lines.TheConstants.{MOST_PIECE};
ghost use Rattle.wg_outcomes.specs.Ranked.{rank_line, rank_lines};
ghost use Rattle.wg_rank.specs.declared.limits.TheConstants.{UNITS};
ghost use Rattle.wg_outcomes.specs.Commands.{number_line};
ghost use Rattle.wg_outcomes.specs.Verified.{verified_line};

use wg_lines::Lines;
use wg_num::units_text;
use wg_order::FirstPages;
use wg_outcomes::{Ending, Text, output_ending, print_piece};
use wg_outside::{Sink, WriteError};
use wg_rank::Certificate;

fn verified_line(certificate: &Certificate, left: u128) -> Text
    requires { left ≤ UNITS }
    ensures { result ≡ verified_line certificate.now left }
{
    Text::new()
        .with("ok pages=")
        .with_number(certificate.as_slice().len() as u64)
        .with(" damping=")
        .with_number(certificate.damping())
        .with(" gap=")
        .with_bytes(units_text(left).as_slice())
        .with("\n")
}

/// Prints the line of a certificate that holds, in one call if the output takes it whole.
pub fn print_verified<O: Sink>(
    out: &mut O,
    certificate: &Certificate,
    left: u128,
) -> Result<(), Ending>
    requires { left ≤ UNITS }
    ensures puts { IsTrue O.told → Puts (verified_line certificate.now left) (O.taken out.old) (O.taken out.new)
        result }
    ensures later { O.later out.old out.new }
    ensures refusals { PrintRefusals ⟦<O as Sink>⟧ out.old out.new result }
{
    print_piece(out, verified_line(certificate, left).as_bytes())
}

/// A line of one number.
pub fn write_line<S: Sink>(lines: &mut Lines, sink: &mut S, number: u64) -> Result<(), WriteError>
    ensures prints { IsTrue S.told → Prints (number_line number) (S.taken sink.old)
        (S.taken sink.new) lines.old lines.new result }
    ensures later { S.later sink.old sink.new }
    ensures refusals { SinkRefusals ⟦<S as Sink>⟧ sink.old sink.new result }
{
    lines.number(sink, number)?;
    lines.byte(sink, b'\n')
}

// The line of the page at a place of the ranking.
fn rank_line(first: &FirstPages, place: u64) -> Text
    requires { place < length first.now.pages }
    ensures text { result ≡ rank_line first.now (slice_index first.now.pages place) }
    ensures short { length result ≤ MOST_PIECE }
{
    Text::new()
        .with_number(first.page(place))
        .with(" ")
        .with_bytes(units_text(first.low(place)).as_slice())
        .with(" ")
        .with_bytes(units_text(first.high(place)).as_slice())
        .with(" ")
        .with_number(first.best(place))
        .with(" ")
        .with_number(first.worst(place))
        .with("\n")
}

// Writes the lines of the first pages of a ranking through a fixed buffer.
fn write_ranking<S: Sink>(sink: &mut S, first: &FirstPages) -> Result<(), WriteError>
    ensures puts { IsTrue S.told → Puts (rank_lines first.now first.now.pages)
        (S.taken sink.old) (S.taken sink.new) result }
    ensures later { S.later sink.old sink.new }
    ensures refusals { SinkRefusals ⟦<S as Sink>⟧ sink.old sink.new result }
{
    let mut lines = Lines::new();
    for place in 0..first.len() {
        let line = rank_line(first, place);
        lines.text(sink, line.as_bytes())?;
    }
    lines.flush(sink)
}

/// Prints the lines of the first pages of a ranking.
pub fn print_ranking<O: Sink>(out: &mut O, first: &FirstPages) -> Result<(), Ending>
    ensures puts { IsTrue O.told → Puts (rank_lines first.now first.now.pages)
        (O.taken out.old) (O.taken out.new) result }
    ensures later { O.later out.old out.new }
    ensures refusals { PrintRefusals ⟦<O as Sink>⟧ out.old out.new result }
{
    match write_ranking(out, first) {
        Ok(()) => Ok(()),
        Err(error) => Err(output_ending(error)),
    }
}
