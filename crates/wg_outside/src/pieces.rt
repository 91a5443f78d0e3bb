// Texts into a sink.
ghost use Rattle.std.specs.Prelude.{◌≡◌, [], IsTrue, map};
ghost use Rattle.wg_outside.specs.Puts.{joined, Puts};
ghost use Rattle.wg_outside.specs.Refusals.{SinkRefusals};

use crate::{Sink, WriteError};

/// Writes the whole piece. After an error a prefix of it may be out, and never all of it.
pub fn write_all<S: Sink>(sink: &mut S, piece: &[u8]) -> Result<(), WriteError>
    ensures puts { IsTrue S.told → Puts piece.now (S.taken sink.old) (S.taken sink.new) result }
    ensures later { S.later sink.old sink.new }
    ensures refusals { SinkRefusals ⟦<S as Sink>⟧ sink.old sink.new result }
    ensures no_call { piece.now ≡ [] → sink.new ≡ sink.old }
{
    let mut at = 0;
    while at < piece.len() {
        at += sink.write(&piece[at..])?;
    }
    Ok(())
}

/// Writes the pieces one after the other. It takes no memory of its own; each piece is at least one call of the sink.
pub fn write_pieces<S: Sink>(sink: &mut S, pieces: &[&[u8]]) -> Result<(), WriteError>
    ensures puts { IsTrue S.told → Puts (joined (map (λ p. p.now) pieces.now)) (S.taken sink.old) (S.taken sink.new)
        result }
    ensures later { S.later sink.old sink.new }
    ensures refusals { SinkRefusals ⟦<S as Sink>⟧ sink.old sink.new result }
{
    for piece in pieces {
        write_all(sink, piece)?;
    }
    Ok(())
}
