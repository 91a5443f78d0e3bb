// Rounds along runs, along in-lists and along the lists of an archive, and which of them there are.
ghost use Rattle.std.specs.Prelude.{◌≡◌, ◌+◌, ◌≤◌, length};

use std::alloc::{AllocError, Global};
use std::process::Abort;
use std::test::Fail;
use wg_encoder::encode;
use wg_graph::{Graph, GraphLists, Lists};
use wg_io::MOST_BYTES;
use wg_num::UNITS;
use wg_params::Params;
use wg_random::Records;
use wg_rank::{Bounds, Gather, MOST_ROUND_ROOM, PAGE_ROUND_ROOM, Pulling, Way, way_for};
use wg_stream::Sweep;
use wg_transpose::RunCounts;
use wg_vectors::{generate, usual};

// Page 3 dangles between two runs to page 4, which links to itself: its last run ends at the last page.
const ARCS: &[u8] = b"0 4\n1 0\n1 4\n2 4\n4 4\n";

// Does two rounds more.
pub fn two_rounds<G: Gather>(source: &mut G, bounds: &mut Bounds)
    requires pages { (G.graph source.old).nodes ≡ length bounds.old.low }
    requires few { bounds.old.rounds ≤ 2 }
    ensures graph { G.graph source.new ≡ G.graph source.old }
    ensures pages { length bounds.new.low ≡ length bounds.old.low }
    ensures rounds { bounds.new.rounds ≡ bounds.old.rounds + 2 }
{
    bounds.pull(source);
    bounds.pull(source);
}

// The bounds of the graph of these arcs after two rounds, by hand.
fn has_worked_bounds<G: Gather>(rt: &impl Abort, alloc: Global, source: &mut G) -> Result<(), Fail>
    requires { (G.graph source.old).nodes ≡ 5 }
{
    let mut bounds = Bounds::new(alloc, 5, 850)?;
    two_rounds(source, &mut bounds);
    assert!(rt; bounds.low(0) == 4785 * (UNITS / 100_000));
    assert!(rt; bounds.low(4) == 12_435 * (UNITS / 100_000));
    assert!(rt; bounds.high(0) == 149 * (UNITS / 1000));
    Ok(())
}

#[test]
fn two_rounds_along_runs(rt: HostRuntime) -> Result<(), Fail> {
    let graph = wg_arcs::read(rt.alloc(), ARCS, 5)?;
    let mut lists = GraphLists::new(&graph);
    let runs = RunCounts::of(rt.alloc(), &mut lists)?.fill(rt.alloc(), &mut lists)?;
    let mut pulling = Pulling::new(rt.alloc(), runs)?;
    assert!(rt; pulling.nodes() == 5);
    has_worked_bounds(&rt, rt.alloc(), &mut pulling)
}

#[test]
fn two_rounds_along_in_lists(rt: HostRuntime) -> Result<(), Fail> {
    let graph = wg_arcs::read(rt.alloc(), ARCS, 5)?;
    let mut lists = GraphLists::new(&graph);
    let in_lists = RunCounts::of(rt.alloc(), &mut lists)?.list(rt.alloc(), &mut lists)?;
    let mut pulling = Pulling::new(rt.alloc(), in_lists)?;
    assert!(rt; pulling.nodes() == 5);
    has_worked_bounds(&rt, rt.alloc(), &mut pulling)
}

// The bounds of a graph of 500 pages after five rounds.
fn after_five_rounds<G: Gather>(alloc: Global, source: &mut G) -> Result<Bounds, AllocError>
    requires { (G.graph source.old).nodes ≡ 500 }
{
    let mut bounds = Bounds::new(alloc, 500, 850)?;
    two_rounds(source, &mut bounds);
    two_rounds(source, &mut bounds);
    bounds.pull(source);
    Ok(bounds)
}

// The bounds of an archive after five rounds. Its lists are decoded from its bits in each round.
fn swept(rt: &impl Abort, alloc: Global, bytes: &[u8], params: Params) -> Result<Bounds, Fail> {
    assert!(rt; bytes.len() as u64 <= MOST_BYTES);
    Records::check(alloc, bytes, params)?;
    let mut sweep = Sweep::new(alloc, bytes, params)?;
    assert!(rt; sweep.nodes() == 500);
    Ok(after_five_rounds(alloc, &mut sweep)?)
}

// The bounds of the archive of a graph after five rounds.
fn archived(rt: &impl Abort, alloc: Global, graph: &Graph) -> Result<Bounds, Fail> {
    let params = usual(graph.nodes(), graph.arcs(), 7, 3, 4)?;
    let archive = encode(alloc, params, graph)?;
    swept(rt, alloc, archive.graph(), params)
}

#[test]
fn an_archive_has_the_bounds_of_its_graph(rt: HostRuntime) -> Result<(), Fail> {
    let graph = generate(rt.alloc(), 3, 500)?;
    assert!(rt; graph.nodes() == 500);
    let one = after_five_rounds(rt.alloc(), &mut GraphLists::new(&graph))?;
    let other = archived(&rt, rt.alloc(), &graph)?;
    assert!(rt; one.lower() == other.lower() && one.upper() == other.upper());
    Ok(())
}

// With 148 bytes a page for runs of 8 bytes, or for arcs of 4: runs, arcs and pages, and the way.
const WAYS: [(u64, u64, u64, Way); 8] = [
    (0, 0, 0, Way::Runs),
    (37, 74, 2, Way::Runs),
    (38, 76, 2, Way::Lists),
    (37, 73, 2, Way::InLists),
    (73, 74, 2, Way::InLists),
    (74, 74, 2, Way::InLists),
    (75, 75, 2, Way::Lists),
    (1, 1, 0, Way::Lists),
];

#[test]
fn ways_by_runs_and_arcs(rt: HostRuntime) {
    assert!(rt; MOST_ROUND_ROOM - PAGE_ROUND_ROOM == 148);
    for (runs, arcs, pages, way) in WAYS {
        assert!(rt; pages <= 2 && way_for(runs, arcs, pages) == way);
    }
}
