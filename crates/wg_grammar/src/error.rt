//! Why what was asked for is not read.
ghost use Rattle.std.specs.Prelude.{◌≡◌};
ghost use Rattle.wg_grammar.specs.declared.error.ReadError.TheVariants as errors;
ghost use Rattle.wg_grammar.specs.Errors.{of_record};

use crate::{ArchiveFault, Fault, OffsetWord};
use std::alloc::AllocError;
use std::fmt::Display;
use thiserror::Error;

/// Why what was asked for is not read from a source that may refuse words.
#[derive(Clone, Copy, Debug, Drop, PartialEq, Eq, Error)]
#[error_bound(F: Display, R: Display)]
pub enum ReadError<F, R> {
    /// It is refused.
    #[error("{0}")]
    Fault(F),
    /// There was no memory for it.
    #[error("out of memory")]
    Memory,
    /// The source refused to read on.
    #[error("{0}")]
    Refused(R),
}

impl<F, R> From<AllocError> for ReadError<F, R> {
    ghost from_gives = { λ _ e. e ≡ errors.Memory };

    fn from(_error: AllocError) -> Self {
        ReadError::Memory
    }
}

impl<R> From<OffsetWord> for ReadError<OffsetWord, R> {
    ghost from_gives = { λ w e. e ≡ errors.Fault w };

    fn from(word: OffsetWord) -> Self {
        ReadError::Fault(word)
    }
}

impl<R> From<ReadError<Fault, R>> for ReadError<ArchiveFault, R> {
    ghost from_gives = { λ u e. e ≡ of_record u };

    fn from(error: ReadError<Fault, R>) -> Self {
        match error {
            ReadError::Fault(fault) => ReadError::Fault(ArchiveFault::Record(fault)),
            ReadError::Memory => ReadError::Memory,
            ReadError::Refused(refusal) => ReadError::Refused(refusal),
        }
    }
}
