//! The files that the records of one chain are read from.
ghost use Rattle.std.specs.Prelude.{◌≡◌, ◌<◌, false, Bool, List, length, IsTrue, IfOk, IfErr};
ghost use Rattle.wg_params.specs.Codes.{IsCode};
ghost use Rattle.wg_grammar.specs.Standing.{IsReadAt, IsTailAt};
ghost use Rattle.wg_source.specs.Stepping.{Steps, Moves};
ghost use Rattle.wg_offsets.specs.Sampling.{Sampled};
ghost use Rattle.wg_lookups.specs.declared.sampled.SampledFile.{SampledFile};
ghost use Rattle.wg_lookups.specs.ChainFiles.{HasBits, HasChainCause, HasPlaces, ReadsBoth, ReadsOn};
ghost use Rattle.wg_lookups.specs.ChainLaws.{bits_after, both_by_reading, chain_cause_after, places_after};
ghost use Rattle.wg_lookups.specs.ChainLaws.{reads_both_twice, reads_none, reads_twice};
ghost use Rattle.std.proofs.Common.{refl, ap, ◌∙◌};

use crate::found_file::FoundFile;
use crate::sampled::{SampledFile, extent_of};
use wg_codes::Read;
use wg_grammar::{OffsetWord, ReadError, Source};
use wg_offsets::Extent;
use wg_outside::{Depot, LoadError};
use wg_params::Code;
use wg_random::Located;
use wg_source::{FileSource, Seek};

/// Which of the files was not read on, and why.
pub enum Unread {
    Graph(LoadError),
    /// A word may be refused if the file is not the one that was sampled.
    Offsets(ReadError<OffsetWord, LoadError>),
}

// Reads what comes next in the graph file.
fn read_graph<D: Depot>(graph: &mut FoundFile, depot: &mut D, code: Code) -> Result<Read, Unread>
    requires { IsCode code }
    ensures name { graph.new.name ≡ graph.old.name }
    ensures steps { Steps D.told graph.old.name (D.files depot.old) (D.files depot.new) (D.counts depot.old)
        (D.counts depot.new) graph.old.held graph.new.held }
    ensures cause { (s : SampledFile) → IfErr result (HasChainCause D.told (D.files depot.old) (D.counts depot.old)
        (D.counts depot.new) graph.old s) }
    ensures found { (bits : List Bool) → HasBits D.told (D.files depot.old) graph.old bits
        → IfOk result (λ r. IsReadAt code bits graph.old.held.at r graph.new.held.at) }
{
    let mut source = FileSource::new(depot, graph.name.as_str(), &mut graph.held);
    match source.read(code) {
        Ok(read) => Ok(read),
        Err(error) => Err(Unread::Graph(error)),
    }
}

// Checks what follows the last word.
fn tail_of_graph<D: Depot>(graph: &mut FoundFile, depot: &mut D) -> Result<Option<u64>, Unread>
    ensures name { graph.new.name ≡ graph.old.name }
    ensures steps { Steps D.told graph.old.name (D.files depot.old) (D.files depot.new) (D.counts depot.old)
        (D.counts depot.new) graph.old.held graph.new.held }
    ensures cause { (s : SampledFile) → IfErr result (HasChainCause D.told (D.files depot.old) (D.counts depot.old)
        (D.counts depot.new) graph.old s) }
    ensures tail { (bits : List Bool) → HasBits D.told (D.files depot.old) graph.old bits
        → IfOk result (IsTailAt bits graph.old.held.at) }
{
    let mut source = FileSource::new(depot, graph.name.as_str(), &mut graph.held);
    match source.tail_fault() {
        Ok(fault) => Ok(fault),
        Err(error) => Err(Unread::Graph(error)),
    }
}

// Goes to a bit of the graph file.
fn seek_graph<D: Depot>(graph: &mut FoundFile, depot: &mut D, at: u64) -> Result<bool, Unread>
    ensures name { graph.new.name ≡ graph.old.name }
    ensures moves { Moves D.told graph.old.name (D.files depot.old) (D.files depot.new) (D.counts depot.old)
        (D.counts depot.new) graph.old.held graph.new.held }
    ensures cause { (s : SampledFile) → IfErr result (HasChainCause D.told (D.files depot.old) (D.counts depot.old)
        (D.counts depot.new) graph.old s) }
    ensures there { IfOk result (λ there. IsTrue there → graph.new.held.at ≡ at) }
    ensures past { (bits : List Bool) → HasBits D.told (D.files depot.old) graph.old bits
        → IfOk result (λ there. there ≡ false → length bits < at) }
{
    let mut source = FileSource::new(depot, graph.name.as_str(), &mut graph.held);
    match source.go_to(at) {
        Ok(there) => Ok(there),
        Err(error) => Err(Unread::Graph(error)),
    }
}

/// The graph file and the offsets file of an archive in one depot, which is lent to one of them at a time. Its type is
/// its own, so that the functions that read a record have instances of their own for it: those of a [`FileSource`] keep
/// one caller, and are inlined into the loop over all records.
#[derive(Drop)]
pub struct ChainFiles<'a, D: Depot> {
    depot: &'a mut D,
    graph: &'a mut FoundFile,
    offsets: &'a mut SampledFile,
}

impl<'a, D: Depot> ChainFiles<'a, D> {
    /// Files that were found in this depot.
    pub fn new(
        depot: &'a mut D,
        graph: &'a mut FoundFile,
        offsets: &'a mut SampledFile,
    ) -> ChainFiles<'a, D>
        ensures depot { result.depot ≡ depot.entry }
        ensures graph { result.graph ≡ graph.entry }
        ensures offsets { result.offsets ≡ offsets.entry }
    {
        ChainFiles {
            depot,
            graph,
            offsets,
        }
    }
}

impl<'a, D: Depot> Source for ChainFiles<'a, D> {
    type Refusal = Unread;

    ghost reads_from = { λ a bits. HasBits D.told (D.files a.depot.now) a.graph.now bits };

    ghost offset = { λ a. a.graph.now.held.at };

    ghost later = { λ a b. (b.depot.ghost_name ≡ a.depot.ghost_name)
        × ReadsOn D.told (D.files a.depot.now) (D.files b.depot.now) (D.counts a.depot.now) (D.counts b.depot.now) a.graph.now b.graph.now a.offsets.now b.offsets.now };

    ghost caused = { λ a b e. HasChainCause D.told (D.files a.depot.now) (D.counts a.depot.now) (D.counts b.depot.now) a.graph.now a.offsets.now e };

    fn at(&self) -> u64 {
        self.graph.held.at()
    }

    fn read(&mut self, code: Code) -> Result<Read, Unread> {
        read_graph(self.graph, self.depot, code)
    }

    fn tail_fault(&mut self) -> Result<Option<u64>, Unread> {
        tail_of_graph(self.graph, self.depot)
    }

    ghost stays = { λ a. (refl, reads_none _ _ _ _ _) };

    ghost goes_on = { λ a b c l m. (m.0 ∙ l.0, reads_twice _ _ _ _ _ _ _ _ _ _ _ _ _ l.1 m.1) };

    ghost onward = { λ a b l. l.1.steps.onward };

    ghost same_bits = { λ a b bits l r. bits_after _ _ _ _ _ _ _ _ _ bits (both_by_reading _ _ _ _ _ _ _ _ _ l.1) r };

    ghost still_caused = { λ a b c r l x. chain_cause_after _ _ _ _ _ _ _ _ _ _ r (both_by_reading _ _ _ _ _ _ _ _ _ l.1) x };
}

impl<'a, D: Depot> Seek for ChainFiles<'a, D> {
    ghost reached = { λ a b. (b.depot.ghost_name ≡ a.depot.ghost_name)
        × ReadsBoth D.told (D.files a.depot.now) (D.files b.depot.now) (D.counts a.depot.now) (D.counts b.depot.now) a.graph.now b.graph.now a.offsets.now b.offsets.now };

    fn go_to(&mut self, at: u64) -> Result<bool, Unread> {
        seek_graph(self.graph, self.depot, at)
    }

    ghost by_reading = { λ a b l. (l.0, both_by_reading _ _ _ _ _ _ _ _ _ l.1) };

    ghost on_from = { λ a b c l m. (m.0 ∙ l.0, reads_both_twice _ _ _ _ _ _ _ _ _ _ _ _ _ l.1 m.1) };

    ghost bits_stay = { λ a b bits l r. bits_after _ _ _ _ _ _ _ _ _ bits l.1 r };

    ghost cause_stays = { λ a b c r l x. chain_cause_after _ _ _ _ _ _ _ _ _ _ r l.1 x };
}

impl<'a, D: Depot> Located for ChainFiles<'a, D> {
    ghost records = { λ a. a.offsets.now.samples.pages };

    ghost lies_by = { λ a places. HasPlaces D.told (D.files a.depot.now) a.offsets.now places };

    fn extent(&mut self, page: u64) -> Result<Extent, Unread> {
        match extent_of(self.offsets, self.depot, page) {
            Ok(extent) => Ok(extent),
            Err(error) => Err(Unread::Offsets(error)),
        }
    }

    ghost as_many = { λ a b l. ap (λ (s : Sampled). s.pages) l.1.samples };

    ghost lies_still = { λ a b places l h. places_after _ _ _ _ _ _ _ _ _ places l.1 h };
}
