//! Why an archive is refused, and why a page is not opened or its list not made or read.
ghost use Rattle.std.specs.Prelude.{◌≡◌};
ghost use Rattle.wg_random.specs.declared.error.ListError.TheVariants as lists;

use std::alloc::AllocError;
use thiserror::Error;
use wg_grammar::ArchiveFault;

/// Why a graph file is refused.
#[derive(Clone, Copy, Debug, PartialEq, Eq, Error)]
pub enum CheckError {
    /// The first fault of the records, or the first length that differs.
    #[error("{0}")]
    Archive(ArchiveFault),
    /// There was no memory for a list or for the offsets.
    #[error("out of memory")]
    Memory,
}

/// Why a page was not opened.
#[derive(Clone, Copy, Debug, PartialEq, Eq, Error)]
pub enum OpenError {
    /// The archive has no such page.
    #[error("no such page")]
    NoPage,
    /// More references lead on from it than may be followed, namely so many.
    #[error("too deep: {0}")]
    Deep(u64),
    /// There was no memory for a box. A page without a reference takes none.
    #[error("out of memory")]
    Memory,
}

/// Why the list of a page was not made.
#[derive(Clone, Copy, Debug, PartialEq, Eq, Error)]
pub enum ListError {
    /// The archive has no such page.
    #[error("no such page")]
    NoPage,
    /// There was no memory for a list or for the pages of the chain.
    #[error("out of memory")]
    Memory,
}

impl From<AllocError> for ListError {
    ghost from_gives = { λ _ e. e ≡ lists.Memory };

    fn from(_error: AllocError) -> Self {
        ListError::Memory
    }
}

/// Why the list of a page was not read from an archive that was not checked.
#[derive(Clone, Copy, Debug, PartialEq, Eq, Error)]
pub enum SpotError {
    /// The archive has no such page.
    #[error("no such page")]
    NoPage,
    /// The first fault of the page's chain of references.
    #[error("{0}")]
    Archive(ArchiveFault),
    /// There was no memory for a list or for the pages of the chain.
    #[error("out of memory")]
    Memory,
}
