//! An archive in memory.
ghost use Rattle.std.specs.Prelude.{◌≡◌, []};
ghost use Rattle.wg_outside.specs.Outside.{content};
ghost use Rattle.wg_encoder.specs.ArchiveInMemory.{HoldsArchive};

use crate::summary::Summary;
use std::marker::Model;
use wg_io::SteadyDepot;
use wg_outside::{GRAPH, OFFSETS, PROPERTIES};

/// What will be the three files of an archive, in memory, and what its records come to. It holds the bytes of the
/// files, each with room for at most twice as many. No call takes memory.
#[derive(Debug, Drop)]
pub struct EncodedArchive {
    // holds the files of the archive whose name is empty
    pub(crate) depot: SteadyDepot,
    pub(crate) summary: Summary,
}

impl Model for EncodedArchive {
    ghost use Rattle.std.specs.Prelude.{[]};
    ghost use Rattle.wg_encoder.specs.ArchiveInMemory.{Summarized, archive_of, HoldsArchive};

    ghost Value = { Summarized };

    ghost view = { λ a. record { files = archive_of [] a.depot.files; summary = a.summary } };

    ghost invariant = { λ a. HoldsArchive a.depot.files [] (archive_of [] a.depot.files) };
}

impl EncodedArchive {
    /// The properties text.
    pub fn properties(&self) -> &[u8]
        ensures { result.now ≡ self.now.files.properties }
    {
        bytes(&self.depot, PROPERTIES)
    }

    /// The records, one after the other.
    pub fn graph(&self) -> &[u8]
        ensures { result.now ≡ self.now.files.graph }
    {
        bytes(&self.depot, GRAPH)
    }

    /// The words of the offsets.
    pub fn offsets(&self) -> &[u8]
        ensures { result.now ≡ self.now.files.offsets }
    {
        bytes(&self.depot, OFFSETS)
    }

    /// How many bits the records have.
    pub fn bits(&self) -> u64
        ensures { result ≡ self.now.summary.bits }
    {
        self.summary.bits
    }

    /// How many of the records refer to a page before.
    pub fn referring(&self) -> u64
        ensures { result ≡ self.now.summary.referring }
    {
        self.summary.referring
    }

    /// The files in a depot, as those of the archive whose name is empty. It takes no memory.
    pub fn into_depot(self) -> SteadyDepot
        ensures { HoldsArchive result.files [] self.files }
    {
        self.depot
    }
}

// What a file holds, and nothing if there is none of this name.
fn bytes<'a>(depot: &'a SteadyDepot, name: &str) -> &'a [u8]
    ensures { result.now ≡ content depot.now.files name.now }
{
    match depot.file(name) {
        Some(bytes) => bytes,
        None => &[],
    }
}
