//! What goes to the output in one call.
ghost use Rattle.std.specs.Prelude.{◌≡◌, IsTrue};
ghost use Rattle.wg_outside.specs.Puts.{Puts};
ghost use Rattle.wg_outcomes.specs.Answers.{PrintRefusals};
ghost use Rattle.wg_outcomes.specs.Commands.{ok_line};

use crate::Ending;
use crate::outputs::output_ending;
use crate::text::Text;
use wg_lines::Lines;
use wg_outside::{Sink, write_all};
use wg_params::Params;

/// A piece of the output, in one call if the output takes it whole.
pub fn print_piece<O: Sink>(out: &mut O, piece: &[u8]) -> Result<(), Ending>
    ensures puts { IsTrue O.told → Puts piece.now (O.taken out.old) (O.taken out.new) result }
    ensures later { O.later out.old out.new }
    ensures refusals { PrintRefusals ⟦<O as Sink>⟧ out.old out.new result }
{
    write_all(out, piece).map_err(output_ending)
}

/// Sends out what waits to be printed.
pub fn print_rest<O: Sink>(lines: &mut Lines, out: &mut O) -> Result<(), Ending>
    ensures puts { IsTrue O.told → Puts lines.old (O.taken out.old) (O.taken out.new) result }
    ensures later { O.later out.old out.new }
    ensures refusals { PrintRefusals ⟦<O as Sink>⟧ out.old out.new result }
{
    lines.flush(out).map_err(output_ending)
}

fn ok_line(params: &Params, bits: u64) -> Text
    ensures { result ≡ ok_line params.now bits }
{
    Text::new()
        .with("ok nodes=")
        .with_number(params.nodes())
        .with(" arcs=")
        .with_number(params.arcs())
        .with(" bits=")
        .with_number(bits)
        .with("\n")
}

/// Prints the line of an accepted archive, in one call if the output takes it whole.
pub fn print_ok<O: Sink>(out: &mut O, params: &Params, bits: u64) -> Result<(), Ending>
    ensures puts { IsTrue O.told → Puts (ok_line params.now bits) (O.taken out.old) (O.taken out.new) result }
    ensures later { O.later out.old out.new }
    ensures refusals { PrintRefusals ⟦<O as Sink>⟧ out.old out.new result }
{
    print_piece(out, ok_line(params, bits).as_bytes())
}
