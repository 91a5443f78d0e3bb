ghost use Rattle.std.specs.Prelude.{◌≡◌};
ghost use Rattle.wg_offsets.specs.declared.error.OffsetsError.TheVariants as errors;

use std::alloc::AllocError;
use thiserror::Error;
use wg_grammar::OffsetWord;

/// Why an offsets file was not read.
#[derive(Clone, Copy, Debug, PartialEq, Eq, Error)]
pub enum OffsetsError {
    /// The first fault of its words, or of the tail after them.
    #[error("{0}")]
    Word(OffsetWord),
    /// There was no memory for its places.
    #[error("out of memory")]
    Memory,
}

impl From<OffsetWord> for OffsetsError {
    ghost from_gives = { λ w e. e ≡ errors.Word w };

    fn from(word: OffsetWord) -> Self {
        OffsetsError::Word(word)
    }
}

impl From<AllocError> for OffsetsError {
    ghost from_gives = { λ _ e. e ≡ errors.Memory };

    fn from(_error: AllocError) -> Self {
        OffsetsError::Memory
    }
}
