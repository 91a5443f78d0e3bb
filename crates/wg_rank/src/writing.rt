// The text of a certificate.

ghost use Rattle.std.specs.Prelude.{◌≡◌, ℕ, ◌<◌, ◌≤◌, All, [], length, take, IsTrue, OnOk, OnErr};
ghost use Rattle.wg_outside.specs.Outside.{appended};
ghost use Rattle.wg_lines.specs.Printing.{Prints};
ghost use Rattle.wg_outside.specs.Puts.{Puts};
ghost use Rattle.wg_outside.specs.Refusals.{FileRefusals, SinkRefusals};
ghost use Rattle.wg_lines.specs.declared.lines.TheConstants.{MOST_PIECE};
ghost use Rattle.wg_rank.specs.Claims.{claim_of_bounds};
ghost use Rattle.wg_rank.specs.CertificateText.{named_line, bound_line, bound_lines, text_of_claim};
ghost use Rattle.wg_rank.specs.declared.limits.TheConstants.{UNITS};

use crate::Bounds;
use wg_lines::Lines;
use wg_num::units_text;
use wg_outside::{Depot, FileSink, Sink, WriteError};

// Prints a line of a word and a number.
fn write_named<S: Sink>(
    lines: &mut Lines,
    sink: &mut S,
    word: &[u8],
    number: u64,
) -> Result<(), WriteError>
    requires { length word.now ≤ MOST_PIECE }
    ensures prints { IsTrue S.told → Prints (named_line word.now number) (S.taken sink.old) (S.taken sink.new) lines.old
        lines.new result }
    ensures later { S.later sink.old sink.new }
    ensures refusals { SinkRefusals ⟦<S as Sink>⟧ sink.old sink.new result }
{
    lines.text(sink, word)?;
    lines.number(sink, number)?;
    lines.byte(sink, b'\n')
}

// Prints the line of a bound.
fn write_bound<S: Sink>(lines: &mut Lines, sink: &mut S, bound: u128) -> Result<(), WriteError>
    requires { bound ≤ UNITS }
    ensures prints { IsTrue S.told → Prints (bound_line bound) (S.taken sink.old) (S.taken sink.new) lines.old lines.new
        result }
    ensures later { S.later sink.old sink.new }
    ensures refusals { SinkRefusals ⟦<S as Sink>⟧ sink.old sink.new result }
{
    lines.text(sink, units_text(bound).as_slice())?;
    lines.byte(sink, b'\n')
}

// Prints the line of each bound.
fn write_bounds<S: Sink>(lines: &mut Lines, sink: &mut S, low: &[u128]) -> Result<(), WriteError>
    requires { All (λ x. x ≤ UNITS) low.now }
    ensures prints { IsTrue S.told → Prints (bound_lines low.now) (S.taken sink.old) (S.taken sink.new) lines.old
        lines.new result }
    ensures later { S.later sink.old sink.new }
    ensures refusals { SinkRefusals ⟦<S as Sink>⟧ sink.old sink.new result }
{
    for bound in low {
        write_bound(lines, sink, *bound)?;
    }
    Ok(())
}

// Prints the lines of a certificate.
fn write_lines<S: Sink>(
    lines: &mut Lines,
    sink: &mut S,
    damping: u64,
    low: &[u128],
) -> Result<(), WriteError>
    requires { All (λ x. x ≤ UNITS) low.now }
    ensures prints { let text = text_of_claim (record { damping = damping; low = low.now }) in
        IsTrue S.told → Prints text (S.taken sink.old) (S.taken sink.new) lines.old lines.new result }
    ensures later { S.later sink.old sink.new }
    ensures refusals { SinkRefusals ⟦<S as Sink>⟧ sink.old sink.new result }
{
    write_named(lines, sink, b"damping ", damping)?;
    write_named(lines, sink, b"pages ", low.len() as u64)?;
    write_bounds(lines, sink, low)
}

// Writes the text of a certificate through a fixed buffer.
fn write_claim<S: Sink>(sink: &mut S, damping: u64, low: &[u128]) -> Result<(), WriteError>
    requires { All (λ x. x ≤ UNITS) low.now }
    ensures puts { let text = text_of_claim (record { damping = damping; low = low.now }) in
        IsTrue S.told → Puts text (S.taken sink.old) (S.taken sink.new) result }
    ensures later { S.later sink.old sink.new }
    ensures refusals { SinkRefusals ⟦<S as Sink>⟧ sink.old sink.new result }
{
    let mut lines = Lines::new();
    write_lines(&mut lines, sink, damping, low)?;
    lines.flush(sink)
}

/// Adds the text of a certificate, the lower half of these bounds, to the end of a file. It takes no memory, and one
/// call of the depot for some hundred pages. After an error a prefix of the text may have been added, and never all of
/// it. No other file changes.
pub fn write_certificate<D: Depot>(
    bounds: &Bounds,
    depot: &mut D,
    name: &str,
) -> Result<(), WriteError>
    ensures ok { let text = text_of_claim (claim_of_bounds bounds.now) in IsTrue D.told
        → OnOk result (D.files depot.new ≡ appended (D.files depot.old) name.now text) }
    ensures err { let text = text_of_claim (claim_of_bounds bounds.now) in IsTrue D.told
        → OnErr result ((k : ℕ) × (k < length text)
        × (D.files depot.new ≡ appended (D.files depot.old) name.now (take k text))) }
    ensures refusals { FileRefusals (D.counts depot.old) (D.counts depot.new) name.now result }
{
    write_claim(
        &mut FileSink::new(depot, name),
        bounds.damping(),
        bounds.lower(),
    )
}
