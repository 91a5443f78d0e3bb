//! The archive of a generated graph, in memory.
ghost use Rattle.std.specs.Prelude.{◌≡◌, ◌≤◌, [], length, IfOk, OnOk, IfErr, None};
ghost use Rattle.wg_graph.specs.Digraph.{Digraph, IsGraph};
ghost use Rattle.wg_vectors.specs.Generated.{generated};
ghost use Rattle.wg_params.specs.declared.limits.TheConstants.{MOST_GENERATED};
ghost use Rattle.wg_greedy.specs.Archive.{graph_bits, referring_pages};
ghost use Rattle.wg_params.specs.Parameters.{IsWithinLimits};
ghost use Rattle.wg_words.specs.declared.defaults.TheConstants.{DEFAULT_DAMPING};
ghost use Rattle.wg_outcomes.specs.Readings.{Readings};
ghost use Rattle.wg_outcomes.specs.Bulk.{IsBuilt, bulk_params, outcome_of};
ghost use Rattle.wg_rank.specs.Rounds.{bounds_after};
ghost use Rattle.wg_outcomes.specs.declared.outcome.TheConstants.{BULK_ROUNDS};
ghost use Rattle.wg_writing.specs.Writing.{archive_of};

use std::alloc::Global;
use wg_encoder::EncodedArchive;
use wg_graph::GraphLists;
use wg_io::SteadyDepot;
use wg_order::RankingSummary;
use wg_outcomes::{BULK_ROUNDS, Ending, Outcome, Status, params_of};
use wg_params::Params;
use wg_rank::{Bounds, last_bounds, room_for};
use wg_readings::{judge_files, load_graph, load_params};
use wg_vectors::generate;
use wg_words::{DEFAULT_DAMPING, Name, default_layout};
use wg_writing::encode_graph;

// Encodes the archive of the graph, which is let go.
fn build(alloc: Global, seed: u64, pages: u64) -> Result<EncodedArchive, Ending>
    requires { pages ≤ MOST_GENERATED }
    ensures is { let g = generated seed pages in IfOk result (λ a. a ≡ archive_of (bulk_params g) g) }
    ensures sound { let g = generated seed pages in OnOk result (IsGraph g × IsWithinLimits (bulk_params g)) }
    ensures only { IfErr result (λ e. e.status ≡ Status.Memory) }
{
    let graph = generate(alloc, seed, pages)?;
    let params = params_of(&default_layout(), graph.nodes(), graph.arcs());
    encode_graph(alloc, &params, &graph)
}

// An archive that was validated.
#[derive(Drop)]
struct Checked {
    params: Params,
    bits: u64,
}

// Validates the archive as `check` does.
fn judge(alloc: Global, base: &Name, depot: &mut SteadyDepot) -> Result<Checked, Ending>
    ensures same { depot.new.files ≡ depot.old.files }
    ensures params { (g : Digraph) → IsBuilt g base.now depot.old.files → IfOk result (λ j. j.params ≡ bulk_params g) }
    ensures bits { (g : Digraph) → IsBuilt g base.now depot.old.files
        → IfOk result (λ j. j.bits ≡ length (graph_bits (bulk_params g) g.lists)) }
    ensures only { (g : Digraph) → IsBuilt g base.now depot.old.files
        → IfErr result (λ e. e.status ≡ Status.Memory) }
{
    let params = load_params(alloc, depot, base)?;
    let bits = judge_files(alloc, &params, depot, base)?;
    Ok(Checked { params, bits })
}

// Bounds of the pages after the last round, along the lists of the graph that is read from the archive's graph file.
// The depot is let go once the graph is there.
fn rounded(
    alloc: Global,
    params: &Params,
    base: &Name,
    mut depot: SteadyDepot,
) -> Result<Bounds, Ending>
    ensures value { (g : Digraph) → IsBuilt g base.now depot.files → params.now ≡ bulk_params g
        → IfOk result (λ b. b ≡ bounds_after g None DEFAULT_DAMPING BULK_ROUNDS) }
    ensures only { (g : Digraph) → IsBuilt g base.now depot.files → params.now ≡ bulk_params g
        → IfErr result (λ e. e.status ≡ Status.Memory) }
{
    let graph = load_graph(alloc, params, &mut depot, base)?;
    drop(depot);
    // tells the limit
    graph.nodes();
    let mut lists = GraphLists::new(&graph);
    let first = room_for(alloc, &lists, None, DEFAULT_DAMPING)?;
    Ok(last_bounds(first, &mut lists, BULK_ROUNDS))
}

// What comes of an archive that was validated, by the bounds of its pages.
fn summed(checked: &Checked, referring: u64, bounds: Bounds) -> Outcome
    ensures { (r : Readings) (g : Digraph) → checked.now.params ≡ bulk_params g
        → checked.now.bits ≡ length (graph_bits (bulk_params g) g.lists)
        → referring ≡ referring_pages (bulk_params g) g.lists
        → bounds ≡ bounds_after g None DEFAULT_DAMPING BULK_ROUNDS → result ≡ outcome_of r g }
{
    let ranking = RankingSummary::of(bounds);
    Outcome {
        pages: checked.params.nodes(),
        arcs: checked.params.arcs(),
        bits: checked.bits,
        referring,
        first: ranking.first,
        sure: ranking.sure,
    }
}

/// Encodes the archive of the generated graph of so many pages in memory, validates it, ranks the pages of the graph
/// that its bytes stand for, and answers what comes of this. Out of memory alone can stop it: what was written is not
/// refused.
pub fn try_generated(alloc: Global, seed: u64, pages: u64) -> Result<Outcome, Ending>
    requires { pages ≤ MOST_GENERATED }
    ensures value { (r : Readings) → IfOk result (λ o. o ≡ outcome_of r (generated seed pages)) }
    ensures only { IfErr result (λ e. e.status ≡ Status.Memory) }
{
    // held in memory, it needs no name
    let base = Name::new(alloc, "")?;
    let archive = build(alloc, seed, pages)?;
    let referring = archive.referring();
    let mut depot = archive.into_depot();
    let checked = judge(alloc, &base, &mut depot)?;
    let bounds = rounded(alloc, &checked.params, &base, depot)?;
    Ok(summed(&checked, referring, bounds))
}
