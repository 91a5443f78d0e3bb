//! A page of an archive that is not checked.
ghost use Rattle.std.specs.Prelude.{◌≡◌, ℕ, List as ListOf, Option, Some, IsTrue};
ghost use Rattle.std.specs.FinMap as map;
ghost use Rattle.wg_bits.specs.Bits.{bits_of};
ghost use Rattle.wg_source.specs.Held.{IsHeldOf};
ghost use Rattle.wg_outcomes.specs.declared.status.Input.{Input};
ghost use Rattle.wg_readings.specs.Finding.{IsOpenOn};
ghost use Rattle.wg_lookups.specs.Sampling.{IsSampled, IsSampledOn};
ghost use Rattle.wg_lookups.specs.Spotting.{EndsBy, OpensChain, SpotsPageBy};

use crate::chain_files::{ChainFiles, Unread};
use crate::found_file::FoundFile;
use crate::sampled::SampledFile;
use std::alloc::Global;
use std::sync::ledger::Ledger;
use wg_grammar::{ArchiveFault, ReadError};
use wg_graph::List;
use wg_outcomes::{Ending, Input, Status};
use wg_outside::Depot;
use wg_params::Params;
use wg_random::{Steps as Ticks, spot_from};
use wg_readings::{bad_archive, unread, word_ending};

/// The successors of a page, by the records of its chain of references alone: no other record of the graph file is
/// read, and of the offsets file the words from the last sampled page on. It takes time in proportion to the records
/// and the lists of the chain and 2048 words for each of its pages, and holds a piece of either file, a number for each
/// of these pages and a few lists. Each record of the chain is counted by a tick.
pub fn successors_of_page<L: Ledger, D: Depot>(
    alloc: Global,
    params: &Params,
    page: u64,
    depot: &mut D,
    graph: &mut FoundFile,
    offsets: &mut SampledFile,
    ticks: &mut Ticks<L>,
) -> Result<List, Ending>
    requires pages { offsets.old.samples.pages ≡ params.now.nodes }
    ensures spots { (names : Input → Option (ListOf ℕ)) → names Input.Graph ≡ Some graph.old.name
        → names Input.Offsets ≡ Some offsets.old.file.name
        → (IsTrue D.told → IsOpenOn (map.get (D.files depot.old) graph.old.name) graph.old.held)
        → (IsTrue D.told → IsSampled names (D.files depot.old) params.now offsets.old)
        → SpotsPageBy ⟦<D as Depot>⟧ names params.now page depot.old depot.new result }
    ensures opens { IsTrue D.told → (file : ListOf ℕ) → map.get (D.files depot.old) graph.old.name ≡ Some file
        → IsHeldOf file graph.old.held → (places : ListOf ℕ)
        → IsSampledOn (map.get (D.files depot.old) offsets.old.file.name) offsets.old places
        → OpensChain params.now (bits_of file) places page ticks.old ticks.new result }
{
    if page >= params.nodes() {
        return Err(Ending::of(Status::NoPage(page)));
    }
    let mut source = ChainFiles::new(depot, graph, offsets);
    match spot_from(alloc, params, page, &mut source, ticks) {
        Ok(list) => Ok(list),
        Err(error) => Err(ending_of(error, params)),
    }
}

// How a job ends at a page that was not read.
fn ending_of(error: ReadError<ArchiveFault, Unread>, params: &Params) -> Ending
    ensures { EndsBy params.now.arcs error result }
{
    match error {
        ReadError::Fault(fault) => bad_archive(fault, params),
        ReadError::Memory => Ending::of(Status::Memory),
        ReadError::Refused(Unread::Graph(error)) => unread(error, Input::Graph),
        ReadError::Refused(Unread::Offsets(error)) => word_ending(error, params),
    }
}
