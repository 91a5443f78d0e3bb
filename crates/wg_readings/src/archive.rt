//! The files of an archive that are held whole, each validated as far as it goes by itself.
ghost use Rattle.std.specs.Prelude.{◌≡◌, ◌<◌, ◌≤◌, ℕ, All, Bool, IfErr, IfOk, IsTrue, List, OnOk, Ok, Err, length, ◌+◌};
ghost use Rattle.wg_outside.specs.declared.limits.TheConstants.{MOST_BYTES};
ghost use Rattle.wg_bits.specs.Bits.{bits_of};
ghost use Rattle.wg_params.specs.Parameters.{IsWithinLimits};
ghost use Rattle.wg_params.specs.declared.limits.TheConstants.{MOST_PAGES};
ghost use Rattle.wg_properties.specs.Judged.{properties_of};
ghost use Rattle.wg_properties.specs.declared.fault.PropFault.{PropFault};
ghost use Rattle.wg_grammar.specs.Archive.{Accepted, ReadsGraph};
ghost use Rattle.wg_graph.specs.Digraph.{Digraph, arc_count};
ghost use Rattle.wg_graph.specs.Numbers.{is_in};
ghost use Rattle.wg_grammar.specs.declared.fault.ArchiveFault.{ArchiveFault};
ghost use Rattle.wg_grammar.specs.Errors.{OfFault};
ghost use Rattle.wg_stream.specs.Sweeping.{PassFinds};
ghost use Rattle.wg_outcomes.specs.Answers.{Steps};
ghost use Rattle.wg_outcomes.specs.Judged.{with_parameters, with_digraph, with_graph, with_pages};
ghost use Rattle.wg_outcomes.specs.Promised.{IsBadFile};
ghost use Rattle.wg_outcomes.specs.Readings.{Readings};

use std::alloc::Global;
use std::convert::Infallible;
use wg_bits::{Bits, Cursor};
use wg_grammar::{ArchiveFault, ReadError};
use wg_graph::Graph;
use wg_outcomes::{Ending, Input, Status};
use wg_params::Params;
use wg_stream::{Passed, Sweep, pass, read_graph};

/// The parameters that a properties text gives.
pub fn parameters(text: &[u8]) -> Result<Params, Ending>
    ensures steps { Steps (with_parameters text.now) result }
    ensures only { IfErr result (λ e. (f : PropFault) × (e.status ≡ Status.BadProperties f)) }
    ensures value { IfOk result (λ p. properties_of text.now ≡ Ok p) }
{
    match wg_properties::read(text) {
        Ok(params) => Ok(params),
        Err(fault) => Err(Ending::of(Status::BadProperties(fault))),
    }
}

/// The graph of a graph file.
pub fn graph_of_records(alloc: Global, params: &Params, bytes: &[u8]) -> Result<Graph, Ending>
    requires { length bytes.now ≤ MOST_BYTES }
    ensures steps { (r : Readings) → Steps (with_digraph r params.now bytes.now) result }
    ensures nodes { IfOk result (λ g. g.nodes ≡ params.now.nodes) }
    ensures only { IfErr result (λ e. IsBadFile Input.Graph params.now.arcs e) }
{
    match read_graph(alloc, *params, &mut Cursor::new(Bits::of(bytes), 0)) {
        Ok(graph) => Ok(graph),
        Err(error) => Err(graph_ending(error, params)),
    }
}

/// How a job ends whose archive is refused.
pub fn bad_archive(fault: ArchiveFault, params: &Params) -> Ending
    ensures { result ≡ record { status = Status.BadArchive fault; promised = params.now.arcs } }
{
    Ending {
        status: Status::BadArchive(fault),
        promised: params.arcs(),
    }
}

/// How a job ends whose graph file is not in order, or that is out of memory.
pub fn graph_ending(error: ReadError<ArchiveFault, Infallible>, params: &Params) -> Ending
    ensures refused { IsWithinLimits params.now → (r : Readings) (bytes : List ℕ)
        → OfFault error (λ f. ReadsGraph params.now (bits_of bytes) (Err f))
        → Steps {B = Accepted} (with_graph r params.now bytes) (Err result) }
    ensures only { (bits : List Bool) → OfFault error (λ f. ReadsGraph params.now bits (Err f))
        → IsBadFile Input.Graph params.now.arcs result }
{
    match error {
        ReadError::Fault(fault) => bad_archive(fault, params),
        ReadError::Memory => Ending::of(Status::Memory),
        ReadError::Refused(never) => match never {},
    }
}

/// Validates the records of a graph file, in one pass, and keeps where they are and the greatest outdegree. It takes 8
/// bytes a page, and holds the lists of a window while it runs.
pub fn passed_of_graph(alloc: Global, params: &Params, bytes: &[u8]) -> Result<Passed, Ending>
    requires { length bytes.now ≤ MOST_BYTES }
    ensures limits { IsWithinLimits params.now }
    ensures finds { IfOk result (λ found. PassFinds params.now (bits_of bytes.now) found.offsets found.greatest) }
    ensures count { IfOk result (λ found. length found.offsets ≡ params.now.nodes + 1) }
    ensures refused { (r : Readings) → IfErr result (λ e. Steps {B = Accepted}
        (with_graph r params.now bytes.now) (Err e)) }
    ensures only { IfErr result (λ e. IsBadFile Input.Graph params.now.arcs e) }
{
    // tells the limits
    params.nodes();
    match pass(alloc, bytes, *params) {
        Ok(found) => Ok(found),
        Err(error) => Err(graph_ending(error, params)),
    }
}

/// The lists of the graph of a graph file, from its bits, as often as one likes. Beside them it holds where the records
/// are, until all have been validated.
pub fn lists_of_records<'a>(
    alloc: Global,
    params: &Params,
    bytes: &'a [u8],
) -> Result<Sweep<'a>, Ending>
    requires { length bytes.now ≤ MOST_BYTES }
    ensures nodes { IfOk result (λ s. s.graph.nodes ≡ params.now.nodes) }
    ensures few { IfOk result (λ s. s.graph.nodes ≤ MOST_PAGES) }
    ensures arcs { IfOk result (λ s. arc_count s.graph ≡ params.now.arcs) }
    ensures goes { (r : Readings) → IfOk result (λ s. Steps (with_digraph r params.now bytes.now) (Ok s.graph)) }
    ensures refused { (r : Readings) → IfErr result (λ e. Steps {B = Digraph}
        (with_digraph r params.now bytes.now) (Err e)) }
    ensures only { IfErr result (λ e. IsBadFile Input.Graph params.now.arcs e) }
{
    let found = passed_of_graph(alloc, params, bytes)?;
    Ok(Sweep::with_room(alloc, bytes, *params, found.greatest)?)
}

/// Looks whether the graph has all these pages: else the first that it does not have ends the job.
pub fn find_pages(params: &Params, pages: &[u64]) -> Result<(), Ending>
    ensures steps { Steps (with_pages params.now.nodes pages.now) result }
    ensures all { OnOk result (All (λ page. page < params.now.nodes) pages.now) }
    ensures only { IfErr result (λ e. (page : ℕ) × IsTrue (is_in page pages.now) × (e.status ≡ Status.NoPage page)) }
{
    for page in pages {
        if *page >= params.nodes() {
            return Err(Ending::of(Status::NoPage(*page)));
        }
    }
    Ok(())
}
