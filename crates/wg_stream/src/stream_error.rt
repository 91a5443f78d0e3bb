ghost use Rattle.std.specs.Prelude.{◌≡◌};

use crate::First;
use thiserror::Error;
use wg_grammar::Fault;

/// Why no list was lent.
#[derive(Clone, Copy, Debug, PartialEq, Eq, Error)]
pub enum StreamError {
    /// A record is refused.
    #[error("{0}")]
    Fault(Fault),
    /// The bit after the records that is a one, or the 128th there.
    #[error("no tail at bit {0}")]
    Tail(u64),
    /// The outdegrees add to this, which is less than the promised arcs.
    #[error("only {0} arcs")]
    ArcsShort(u64),
    /// A read failed.
    #[error("read failed")]
    Failed,
    /// There is no such file.
    #[error("no such file")]
    Absent,
    /// The file has more bytes than are read.
    #[error("too long")]
    TooLong,
    /// There was no memory for a list, or none to read.
    #[error("out of memory")]
    Memory,
    /// An error came before, and this was the first.
    #[error("closed by an error: {0}")]
    Closed(First),
}

impl From<First> for StreamError {
    ghost use Rattle.wg_stream.specs.FirstError.{of_first};

    ghost from_gives = { λ f e. e ≡ of_first f };

    fn from(first: First) -> Self {
        match first {
            First::Fault(fault) => StreamError::Fault(fault),
            First::Tail(at) => StreamError::Tail(at),
            First::ArcsShort(total) => StreamError::ArcsShort(total),
            First::Failed => StreamError::Failed,
            First::Absent => StreamError::Absent,
            First::TooLong => StreamError::TooLong,
            First::Memory => StreamError::Memory,
        }
    }
}
