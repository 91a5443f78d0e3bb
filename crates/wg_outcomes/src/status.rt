ghost use Rattle.std.specs.Prelude.{◌≡◌};
ghost use Rattle.wg_outcomes.specs.Codes.{code_of};

use thiserror::Error;
use wg_arcs::{ArcsKind, NumbersFault};
use wg_ascii::AsciiKind;
use wg_grammar::ArchiveFault;
use wg_outside::Output;
use wg_properties::PropFault;
use wg_rank::CertFault;

/// A file that a job reads.
#[derive(Clone, Copy, Debug, PartialEq, Eq)]
pub enum Input {
    Properties,
    Graph,
    Offsets,
    /// The files of the second archive that a job reads.
    SecondProperties,
    SecondGraph,
    SecondOffsets,
    ArcList,
    /// A weight of teleport for each page.
    Weights,
    Certificate,
    /// A graph as an ASCIIGraph text.
    Text,
    /// A class for each page.
    Map,
}

/// What is wrong with the weights of pages.
#[derive(Clone, Copy, Debug, PartialEq, Eq, Error)]
pub enum WeightsFault {
    /// They are not one number for each page, each within the limit.
    #[error("{0}")]
    Numbers(NumbersFault),
    /// There are pages, and each weight is 0.
    #[error("every weight is 0")]
    Zero,
}

/// What is wrong with the second archive that a job reads.
#[derive(Clone, Copy, Debug, PartialEq, Eq, Error)]
pub enum SecondFault {
    #[error("{0}")]
    Properties(PropFault),
    #[error("{0}")]
    Archive(ArchiveFault),
}

/// How a run ended.
#[derive(Clone, Copy, Debug, PartialEq, Eq)]
pub enum Status {
    /// The job was done, and all that it reads was validated to its end.
    Done,
    /// The words ask for no job.
    Usage,
    Memory,
    ReadFault(Input),
    WriteFault(Output),
    Missing(Input),
    /// The arc list's first faulty line, counted from 1.
    BadArcs { line: u64, kind: ArcsKind },
    BadProperties(PropFault),
    BadArchive(ArchiveFault),
    /// The first fault of the second archive, if the first has none.
    BadSecond(SecondFault),
    /// The graph that was to be written would have more than 2^40 arcs.
    TooManyArcs,
    /// The first page asked for that the graph does not have.
    NoPage(u64),
    /// The file is longer than a file may be.
    OverLimit(Input),
    BadWeights(WeightsFault),
    /// The ASCIIGraph text's first faulty line, counted from 1.
    BadText { line: u64, kind: AsciiKind },
    /// The classes are not one number for each page, each below the limit.
    BadMap(NumbersFault),
    BadCertificate(CertFault),
}

impl Status {
    /// The exit status of the program.
    pub fn code(&self) -> u8
        ensures { result ≡ code_of self.now }
    {
        match self {
            Status::Done => 0,
            Status::Usage => 2,
            Status::Memory => 3,
            Status::ReadFault(_) => 4,
            Status::WriteFault(_) => 5,
            Status::Missing(_) => 6,
            Status::BadArcs { .. } => 7,
            Status::BadProperties(_) => 8,
            Status::BadArchive(_) => 9,
            Status::BadSecond(SecondFault::Properties(_)) => 8,
            Status::BadSecond(SecondFault::Archive(_)) => 9,
            Status::TooManyArcs => 14,
            Status::NoPage(_) => 10,
            Status::OverLimit(_) => 11,
            Status::BadWeights(_) => 12,
            Status::BadText { .. } => 13,
            Status::BadMap(_) => 15,
            Status::BadCertificate(_) => 16,
        }
    }
}
