ghost use Rattle.std.specs.Prelude.{◌≡◌};
ghost use Rattle.wg_ascii.specs.declared.fault.AsciiError.TheVariants as errors;

use std::alloc::AllocError;
use std::fmt;
use thiserror::Error;

/// Why a line of an ASCIIGraph text is refused.
#[derive(Clone, Copy, Debug, PartialEq, Eq)]
pub enum AsciiKind {
    /// A word is no decimal number, or the first line is not one word.
    Shape,
    /// There are more pages than an archive may have, or a number is no page.
    Range,
    /// The number is not above the one before it.
    Order,
    /// There are more arcs than an archive may have.
    TooMany,
    /// A word stands after the lines of all pages.
    Extra,
    /// The text ends before this line.
    Missing,
}

impl fmt::Display for AsciiKind {
    fn fmt<W: fmt::Write>(&self, f: &mut fmt::Formatter<W>) -> fmt::Result {
        f.write_str(match self {
            AsciiKind::Shape => "no decimal number, or a first line that is not one word",
            AsciiKind::Range => "more pages than an archive may have, or a number that is no page",
            AsciiKind::Order => "a number that is not above the one before it",
            AsciiKind::TooMany => "more arcs than an archive may have",
            AsciiKind::Extra => "a word after the lines of all pages",
            AsciiKind::Missing => "the text ends before it",
        })
    }
}

/// Why an ASCIIGraph text was not read.
#[derive(Clone, Copy, Debug, PartialEq, Eq, Error)]
pub enum AsciiError {
    /// The first faulty line, counted from 1.
    #[error("line {line}: {kind}")]
    Line { line: u64, kind: AsciiKind },
    /// There was no memory for the graph.
    #[error("out of memory")]
    Memory,
}

impl From<AllocError> for AsciiError {
    ghost from_gives = { λ _ e. e ≡ errors.Memory };

    fn from(_error: AllocError) -> Self {
        AsciiError::Memory
    }
}
