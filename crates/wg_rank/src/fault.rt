ghost use Rattle.std.specs.Prelude.{◌≡◌};
ghost use Rattle.wg_rank.specs.declared.fault.CertError.TheVariants as errors;
ghost use Rattle.wg_rank.specs.declared.fault.JudgeError.TheVariants as judge_errors;

use std::alloc::AllocError;
use std::fmt;
use thiserror::Error;

/// Why a line of a certificate is refused.
#[derive(Clone, Copy, Debug, PartialEq, Eq)]
pub enum CertKind {
    /// It is not what has to stand there.
    Shape,
    /// It names another number of pages.
    Pages,
    /// It is not there.
    Missing,
    /// It comes after the last.
    Extra,
}

impl fmt::Display for CertKind {
    fn fmt<W: fmt::Write>(&self, f: &mut fmt::Formatter<W>) -> fmt::Result {
        f.write_str(match self {
            CertKind::Shape => "not what has to stand there",
            CertKind::Pages => "another number of pages",
            CertKind::Missing => "not there",
            CertKind::Extra => "a line after the last",
        })
    }
}

/// What is wrong with a certificate.
#[derive(Clone, Copy, Debug, PartialEq, Eq, Error)]
pub enum CertFault {
    /// The first faulty line, counted from 1.
    #[error("line {line}: {kind}")]
    Line { line: u64, kind: CertKind },
    /// The bounds add up to more than 1.
    #[error("the bounds add up to more than 1")]
    Sum,
    /// The first page whose bound a round lowers. Reading never finds this.
    #[error("page {0} falls")]
    Falls(u64),
}

/// Why a certificate was not read.
#[derive(Clone, Copy, Debug, PartialEq, Eq, Error)]
pub enum CertError {
    #[error("{0}")]
    Fault(CertFault),
    /// There was no memory for the bounds.
    #[error("out of memory")]
    Memory,
}

impl From<AllocError> for CertError {
    ghost from_gives = { λ _ e. e ≡ errors.Memory };

    fn from(_error: AllocError) -> Self {
        CertError::Memory
    }
}

impl From<CertFault> for CertError {
    ghost from_gives = { λ f e. e ≡ errors.Fault f };

    fn from(fault: CertFault) -> Self {
        CertError::Fault(fault)
    }
}

/// Why a certificate was not found to hold of a graph.
#[derive(Clone, Copy, Debug, PartialEq, Eq, Error)]
pub enum JudgeError {
    /// The first page whose bound a round lowers.
    #[error("page {0} falls")]
    Falls(u64),
    /// There was no memory for a round.
    #[error("out of memory")]
    Memory,
}

impl From<AllocError> for JudgeError {
    ghost from_gives = { λ _ e. e ≡ judge_errors.Memory };

    fn from(_error: AllocError) -> Self {
        JudgeError::Memory
    }
}
