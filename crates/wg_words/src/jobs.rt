ghost use Rattle.std.specs.Prelude.{◌≡◌};
ghost use Rattle.wg_words.specs.declared.jobs.JobError.TheVariants as errors;

use crate::Name;
use std::alloc::AllocError;
use thiserror::Error;
use wg_graph::List;
use wg_params::Layout;

/// What the words ask for.
#[derive(Debug, Drop)]
pub enum Job {
    /// `check BASE`: whether the files BASE`.properties`, BASE`.graph` and BASE`.offsets` are an archive.
    Check { base: Name },
    /// `arcs BASE`: the arcs of the graph.
    Arcs { base: Name },
    /// `ascii BASE`: the graph as an ASCIIGraph text.
    Ascii { base: Name },
    /// `offsets BASE`: the places of the records.
    Offsets { base: Name },
    /// `show BASE PAGE...`: the successors of these pages, in the order of the words. A page is any number below 2^64,
    /// also one that the archive does not have.
    Show { base: Name, pages: List },
    /// `spot BASE PAGE`: the successors of this page of an archive that is not checked. The page is any number below
    /// 2^64, also one that the archive does not have.
    Spot { base: Name, page: u64 },
    /// `rank BASE`: bounds of each page's PageRank, and the order of the best pages.
    Rank(RankJob),
    /// `verify BASE FILE`: whether the certificate in FILE bounds each page's PageRank from below.
    Verify(VerifyJob),
    /// The writing of an archive: `build`, `import`, `quotient`, `recode`, `union` or `transpose`.
    Write(WriteJob),
    /// `bulk SEED N`: what an archive of the generated graph of so many pages comes to. The seed is any number below
    /// 2^64, the pages are at most `wg_params::MOST_GENERATED`. No file is read or written.
    Bulk { seed: u64, pages: u64 },
}

/// A ranking of the pages of an archive.
#[derive(Debug, Drop)]
pub struct RankJob {
    pub base: Name,
    /// How many rounds are done: at most `wg_params::MOST_ROUNDS`.
    pub rounds: u64,
    /// In thousandths: at most `wg_params::MOST_DAMPING`.
    pub damping: u64,
    /// How many pages are printed: at most `wg_params::MOST_PAGES`.
    pub top: u64,
    /// The file by which teleport goes; without one it goes to each page alike.
    pub weights: Option<Name>,
    /// The file to which the lower bounds are written, which is none of the files that are read.
    pub certificate: Option<Name>,
}

/// A validation of a certificate. No file is written, so that any names may be the same.
#[derive(Debug, Drop)]
pub struct VerifyJob {
    pub base: Name,
    pub certificate: Name,
    /// The file by which teleport goes; without one it goes to each page alike.
    pub weights: Option<Name>,
}

/// The writing of an archive.
#[derive(Debug, Drop)]
pub struct WriteJob {
    /// The archive that is written. None of its files is one that is read.
    pub output: Name,
    /// How it is written: within the limits of `wg_params`.
    pub layout: Layout,
    /// Where its graph comes from.
    pub origin: Origin,
}

/// Where the graph of an archive comes from that is written, by the command that writes it.
#[derive(Debug, Drop)]
pub enum Origin {
    /// `build ARCS BASE --nodes N`: the graph with so many pages whose arcs the file ARCS lists. The pages are at most
    /// `wg_params::MOST_PAGES`.
    Build {
        arcs: Name,
        nodes: u64,
    },
    /// `import TEXT BASE`: the graph that the file TEXT holds as an ASCIIGraph text, which tells the pages.
    Import {
        text: Name,
    },
    /// `quotient IN MAP OUT --classes C`: the graph of C classes of the pages of the archive IN. The file MAP has a
    /// line for each page with the number of its class, and an arc leads from class to class exactly if one leads from
    /// a page of the first to a page of the second. The classes are at most `wg_params::MOST_PAGES`.
    Quotient {
        input: Name,
        map: Name,
        classes: u64,
    },
    /// `recode IN OUT`: the graph of the archive IN.
    Recode {
        input: Name,
    },
    /// `union A B OUT`: the union of the graphs of the archives A and B, which may be one.
    Union {
        first: Name,
        second: Name,
    },
    /// `transpose IN OUT`: the graph of the archive IN with each arc the other way round.
    Transpose {
        input: Name,
    },
}

/// Why there is no job.
#[derive(Clone, Copy, Debug, PartialEq, Eq, Error)]
pub enum JobError {
    #[error("the words ask for no job")]
    Usage,
    #[error("out of memory")]
    Memory,
}

impl From<AllocError> for JobError {
    ghost from_gives = { λ _ e. e ≡ errors.Memory };

    fn from(_error: AllocError) -> Self {
        JobError::Memory
    }
}
