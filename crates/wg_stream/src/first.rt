ghost use Rattle.std.specs.Prelude.{◌≡◌};

use thiserror::Error;
use wg_grammar::Fault;
use wg_outside::LoadError;

/// The first error of a reading.
#[derive(Clone, Copy, Debug, PartialEq, Eq, Error)]
pub enum First {
    /// A record is refused.
    #[error("{0}")]
    Fault(Fault),
    /// The bit after the records that is a one, or the 128th there.
    #[error("no tail at bit {0}")]
    Tail(u64),
    /// The outdegrees add to this, which is less than the promised arcs.
    #[error("only {0} arcs")]
    ArcsShort(u64),
    /// A read failed.
    #[error("read failed")]
    Failed,
    /// There is no such file.
    #[error("no such file")]
    Absent,
    /// The file has more bytes than are read.
    #[error("too long")]
    TooLong,
    /// There was no memory for a list, or none to read.
    #[error("out of memory")]
    Memory,
}

impl From<LoadError> for First {
    ghost use Rattle.wg_stream.specs.FirstError.{of_load};

    ghost from_gives = { λ l e. e ≡ of_load l };

    fn from(error: LoadError) -> Self {
        match error {
            LoadError::Absent => First::Absent,
            LoadError::Failed => First::Failed,
            LoadError::TooLong => First::TooLong,
            LoadError::Memory => First::Memory,
        }
    }
}
