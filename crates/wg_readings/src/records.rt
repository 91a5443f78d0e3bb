//! The records of a graph file, read in pieces.
ghost use Rattle.std.specs.Prelude.{◌≡◌, ◌+◌, ◌<◌, ℕ, true, List as ListOf, Ok, Some, OnOk, IfOk};
ghost use Rattle.std.specs.Prelude.{IfErr, IsTrue, length};
ghost use Rattle.std.specs.FinMap as map;
ghost use Rattle.wg_outside.specs.Outside.{Files};
ghost use Rattle.wg_grammar.specs.Archive.{lists_of, places_of};
ghost use Rattle.wg_grammar.specs.Record.{Whole};
ghost use Rattle.wg_stream.specs.declared.state.State.TheVariants.{Open};
ghost use Rattle.wg_stream.specs.Reading.{IsInStep, IsJudged, StaysInStep};
ghost use Rattle.wg_readings.specs.Passes.{Advances, IsFresh, ending_at};

use crate::archive::bad_archive;
use crate::lines::unread;
use std::alloc::Global;
use wg_grammar::{ArchiveFault, ReadError};
use wg_outcomes::{Ending, Input, Status};
use wg_outside::{Depot, GRAPH, LoadError};
use wg_params::Params;
use wg_stream::Reader;
use wg_words::Name;

// How a job ends whose graph file is not read on.
#[cold]
#[inline(never)]
fn ending_at(error: ReadError<ArchiveFault, LoadError>, params: &Params) -> Ending
    ensures { result ≡ ending_at params.now.arcs error }
{
    match error {
        ReadError::Fault(fault) => bad_archive(fault, params),
        ReadError::Memory => Ending::of(Status::Memory),
        ReadError::Refused(error) => unread(error, Input::Graph),
    }
}

/// Begins to read the graph file of an archive.
pub fn open_graph(alloc: Global, params: &Params, base: &Name) -> Result<Reader, Ending>
    ensures fresh { IfOk result (IsFresh base.now params.now) }
    ensures only { IfErr result (λ e. e.status ≡ Status.Memory) }
{
    let name = base.with_suffix(alloc, GRAPH)?;
    Ok(Reader::new(alloc, *params, name.as_str())?)
}

/// Reads the record of the page that comes next.
#[inline(always)]
pub fn next_record<D: Depot>(
    reader: &mut Reader,
    depot: &mut D,
    params: &Params,
) -> Result<(), Ending>
    requires open { reader.old.state ≡ Open }
    requires params { reader.old.pages.params ≡ params.now }
    requires more { reader.old.pages.page < params.now.nodes }
    ensures advances { Advances D.told (D.files depot.old) (D.files depot.new) (D.counts depot.old)
        (D.counts depot.new) params.now reader.old reader.new result }
    ensures open { OnOk result (reader.new.state ≡ Open) }
    ensures page { OnOk result (reader.new.pages.page ≡ reader.old.pages.page + 1) }
    ensures arcs { OnOk result (reader.new.pages.arcs ≡ reader.old.pages.arcs + length reader.new.pages.list) }
    ensures in_step { IsTrue D.told → (held : Files) → D.files depot.old ≡ held → (file : ListOf ℕ)
        → map.get held reader.old.name ≡ Some file
        → (whole : ListOf Whole) → IsInStep file reader.old whole
        → OnOk result (StaysInStep file reader.new whole (Ok true)) }
{
    match reader.next_record(depot) {
        Ok(()) => Ok(()),
        Err(error) => Err(ending_at(error, params)),
    }
}

/// Checks what follows the records.
pub fn end_records<D: Depot>(
    reader: &mut Reader,
    depot: &mut D,
    params: &Params,
) -> Result<(), Ending>
    requires open { reader.old.state ≡ Open }
    requires params { reader.old.pages.params ≡ params.now }
    requires done { reader.old.pages.page ≡ params.now.nodes }
    ensures total { OnOk result (reader.old.pages.arcs ≡ params.now.arcs) }
    ensures advances { Advances D.told (D.files depot.old) (D.files depot.new) (D.counts depot.old)
        (D.counts depot.new) params.now reader.old reader.new result }
    ensures judged { IsTrue D.told → (held : Files) → D.files depot.old ≡ held → (file : ListOf ℕ)
        → map.get held reader.old.name ≡ Some file
        → (whole : ListOf Whole) → IsInStep file reader.old whole
        → OnOk result (IsJudged file params.now (Ok (record { graph = lists_of whole; places = places_of whole }))) }
{
    match reader.finish(depot) {
        Ok(()) => Ok(()),
        Err(error) => Err(ending_at(error, params)),
    }
}
