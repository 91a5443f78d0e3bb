ghost use Rattle.std.specs.Prelude.{◌≡◌};
ghost use Rattle.wg_arcs.specs.declared.numbers_fault.NumbersError.TheVariants as errors;

use std::alloc::AllocError;
use std::fmt;
use thiserror::Error;

/// Why a line of a text of numbers is refused.
#[derive(Clone, Copy, Debug, PartialEq, Eq)]
pub enum NumbersKind {
    /// It is not one decimal number.
    Shape,
    /// The number is not below the limit.
    Range,
    /// The numbers that are wanted stand before it.
    TooMany,
}

impl fmt::Display for NumbersKind {
    fn fmt<W: fmt::Write>(&self, f: &mut fmt::Formatter<W>) -> fmt::Result {
        f.write_str(match self {
            NumbersKind::Shape => "not one decimal number",
            NumbersKind::Range => "a number that is not below the limit",
            NumbersKind::TooMany => "a number more than are wanted",
        })
    }
}

/// What is wrong with a text of numbers.
#[derive(Clone, Copy, Debug, PartialEq, Eq, Error)]
pub enum NumbersFault {
    /// The first faulty line, counted from 1.
    #[error("line {line}: {kind}")]
    Line { line: u64, kind: NumbersKind },
    /// No line is faulty, and there are so many numbers, fewer than are wanted.
    #[error("only {0} numbers")]
    Count(u64),
}

/// Why a text of numbers was not read.
#[derive(Clone, Copy, Debug, PartialEq, Eq, Error)]
pub enum NumbersError {
    #[error("{0}")]
    Fault(NumbersFault),
    /// There was no memory for the numbers.
    #[error("out of memory")]
    Memory,
}

impl From<AllocError> for NumbersError {
    ghost from_gives = { λ _ e. e ≡ errors.Memory };

    fn from(_error: AllocError) -> Self {
        NumbersError::Memory
    }
}
