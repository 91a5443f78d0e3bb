// Streams of the system.
ghost use Rattle.std.specs.Prelude.{◌≡◌, ◌<◌, ◌≤◌, IfOk, length};

use crate::tally::Tally;
use std::io::{self, ErrorKind, Write};
use std::marker::Model;
use wg_outside::{Sink, WriteError};

/// A stream of the system, as the standard output. It tells no bytes.
///
/// Each write is handed on at once, so small pieces are best gathered before.
#[derive(Debug, Drop)]
pub struct StdSink<W: Write + Drop> {
    stream: W,
    tally: Tally,
}

impl<W: Write + Drop> Model for StdSink<W> {
    ghost use Rattle.wg_io.specs.Memory.{Refusals};

    ghost Value = { Refusals };

    ghost view = { λ a. record { faults = a.tally.write_faults; wants = a.tally.wants } };
}

impl<W: Write + Drop> StdSink<W> {
    /// A sink over this stream. It holds the stream, and has counted no refusal yet.
    pub fn new(stream: W) -> StdSink<W>
        ensures { result ≡ record { faults = 0; wants = 0 } }
    {
        StdSink {
            stream,
            tally: Tally::new(),
        }
    }
}

impl<W: Write + Drop> Sink for StdSink<W> {
    ghost use Rattle.std.specs.Prelude.{false, []};
    ghost use Rattle.wg_io.specs.Later.{NoneFalls, none_falls, none_falls_twice};

    ghost told = { false };

    ghost taken = { λ _. [] };

    ghost faults = { λ s. s.faults };

    ghost wants = { λ s. s.wants };

    ghost later = { NoneFalls };

    fn write(&mut self, piece: &[u8]) -> Result<usize, WriteError> {
        match write_some(&mut self.stream, piece) {
            Ok(count) => Ok(count),
            Err(error) => Err(self.tally.refused_write(error.kind())),
        }
    }

    ghost stays = { none_falls };

    ghost goes_on = { none_falls_twice };

    ghost onward = { λ a b l. l };
}

/// Writes at least one byte: a write of none is a failure, for it would be tried for ever.
pub fn write_some<W: Write>(stream: &mut W, piece: &[u8]) -> io::Result<usize>
    ensures { IfOk result (λ count. (0 < count) × (count ≤ length piece.now)) }
{
    let count = stream.write(piece)?;
    if count == 0 {
        return Err(io::Error::from(ErrorKind::WriteZero));
    }
    Ok(count)
}
