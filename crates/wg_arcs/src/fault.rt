ghost use Rattle.std.specs.Prelude.{◌≡◌};
ghost use Rattle.wg_arcs.specs.declared.fault.ArcsError.TheVariants as errors;

use std::alloc::AllocError;
use std::fmt;
use thiserror::Error;

/// Why a line of a text of arcs is refused.
#[derive(Clone, Copy, Debug, PartialEq, Eq)]
pub enum ArcsKind {
    /// It is not two decimal numbers.
    Shape,
    /// A number is no page.
    Range,
    /// The arc does not come after the one before it.
    Order,
    /// There are more arcs than an archive may have.
    TooMany,
}

impl fmt::Display for ArcsKind {
    fn fmt<W: fmt::Write>(&self, f: &mut fmt::Formatter<W>) -> fmt::Result {
        f.write_str(match self {
            ArcsKind::Shape => "not two decimal numbers",
            ArcsKind::Range => "a number that is no page",
            ArcsKind::Order => "an arc that does not come after the one before it",
            ArcsKind::TooMany => "more arcs than an archive may have",
        })
    }
}

/// Why a text of arcs was not read.
#[derive(Clone, Copy, Debug, PartialEq, Eq, Error)]
pub enum ArcsError {
    /// The first faulty line, counted from 1.
    #[error("line {line}: {kind}")]
    Line { line: u64, kind: ArcsKind },
    /// There was no memory for the graph.
    #[error("out of memory")]
    Memory,
}

impl From<AllocError> for ArcsError {
    ghost from_gives = { λ _ e. e ≡ errors.Memory };

    fn from(_error: AllocError) -> Self {
        ArcsError::Memory
    }
}
