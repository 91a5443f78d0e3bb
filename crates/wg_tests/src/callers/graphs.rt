use std::test::Fail;
use wg_arcs::{ArcsError, ArcsKind};
use wg_ascii::{AsciiError, AsciiKind};
use wg_graph::{GraphBuilder, GraphLists, List, Lists};
use wg_io::SteadySink;
use wg_num::UNITS;
use wg_order::Ranking;
use wg_rank::Bounds;
use wg_shape::{quotient, union};
use wg_transpose::{PageRun, RunCounts, transpose};
use wg_vectors::{COPIED, bytes_of, generate};

// In the overview of wg_graph.
#[test]
fn a_graph_is_built_and_its_lists_are_lent(rt: HostRuntime) -> Result<(), Fail> {
    let mut builder = GraphBuilder::new(rt.alloc(), 3)?;
    builder.push_list(&[1, 2])?;
    assert!(rt; builder.fits(1, 2) && !builder.fits(0, 2));
    builder.push(1, 2)?;
    let graph = builder.finish()?;
    assert!(rt; graph.arcs() == 3);
    let mut lists = GraphLists::new(&graph);
    assert!(rt; lists.next_list() == Some([1, 2].as_slice()));
    Ok(())
}

// In the overview of wg_vectors.
#[test]
fn a_worked_archive_and_a_generated_graph(rt: HostRuntime) -> Result<(), Fail> {
    // 011 1 1 1011 100  011 01 1  1
    let bytes = bytes_of(rt.alloc(), COPIED.graph)?;
    assert!(rt; bytes.as_slice() == b"\x7D\xC6\xE0".as_slice());
    assert!(rt; COPIED.places == [0, 12, 18, 19].as_slice());
    let graph = generate(rt.alloc(), 7, 1000)?;
    assert!(rt; graph.nodes() == 1000);
    Ok(())
}

// In the overview of wg_arcs.
#[test]
fn arcs_of_a_text(rt: HostRuntime) -> Result<(), Fail> {
    let graph = wg_arcs::read(rt.alloc(), b"# two arcs\n0 1\n 1\t2", 3)?;
    let mut sink = SteadySink::new(rt.alloc(), 4096);
    wg_arcs::write(&graph, &mut sink)?;
    assert!(rt; sink.bytes() == b"0 1\n1 2\n".as_slice());
    let twice = wg_arcs::read(rt.alloc(), b"0 1\n0 1\n", 3);
    let kind = ArcsKind::Order;
    assert!(rt; twice.err() == Some(ArcsError::Line { line: 2, kind }));
    Ok(())
}

// In the overview of wg_ascii.
#[test]
fn lists_of_a_text(rt: HostRuntime) -> Result<(), Fail> {
    let graph = wg_ascii::read(rt.alloc(), b" 3\n1  2\n2\n\n")?;
    let mut sink = SteadySink::new(rt.alloc(), 4096);
    wg_ascii::write(&graph, &mut sink)?;
    assert!(rt; sink.bytes() == b"3\n1 2\n2\n\n".as_slice());
    let short = wg_ascii::read(rt.alloc(), b"3\n1 2\n2\n");
    let kind = AsciiKind::Missing;
    assert!(rt; short.err() == Some(AsciiError::Line { line: 4, kind }));
    Ok(())
}

// In the overview of wg_transpose.
#[test]
fn arcs_the_other_way_round(rt: HostRuntime) -> Result<(), Fail> {
    let graph = wg_arcs::read(rt.alloc(), b"0 4\n1 0\n1 4\n2 4\n4 4\n", 5)?;
    let transposed = transpose(rt.alloc(), &graph)?;
    assert!(rt; transposed.list(3) == [].as_slice());
    assert!(rt; transposed.list(4) == [0, 1, 2, 4].as_slice());
    let counts = RunCounts::of(rt.alloc(), &mut GraphLists::new(&graph))?;
    let runs = counts.fill(rt.alloc(), &mut GraphLists::new(&graph))?;
    let to_last = [PageRun { from: 0, to: 3 }, PageRun { from: 4, to: 5 }];
    assert!(rt; runs.nodes() == 5 && runs.of_page(4) == to_last.as_slice());
    assert!(rt; runs.of_page(3).is_empty() && runs.degree(1) == 2);
    Ok(())
}

// In the overview of wg_shape.
#[test]
fn a_union(rt: HostRuntime) -> Result<(), Fail> {
    let first = wg_arcs::read(rt.alloc(), b"0 1\n", 2)?;
    let second = wg_arcs::read(rt.alloc(), b"0 2\n1 2\n", 3)?;
    let both = union(rt.alloc(), &first, &second)?;
    assert!(rt; both.nodes() == 3);
    assert!(rt; both.list(0) == [1, 2].as_slice());
    Ok(())
}

// Pages 0 and 1 are class 0, and page 2 is class 1.
#[test]
fn a_quotient(rt: HostRuntime) -> Result<(), Fail> {
    let graph = wg_arcs::read(rt.alloc(), b"0 1\n0 2\n1 2\n", 3)?;
    let mut classes = List::new(rt.alloc());
    classes.extend(&[0, 0, 1])?;
    let classed = quotient(rt.alloc(), &graph, &classes, 2)?;
    assert!(rt; classed.nodes() == 2 && classed.list(0) == [0, 1].as_slice());
    Ok(())
}

// In the overview of wg_rank.
#[test]
fn one_round_of_bounds(rt: HostRuntime) -> Result<(), Fail> {
    let graph = wg_arcs::read(rt.alloc(), b"0 1\n", 2)?;
    let mut bounds = Bounds::new(rt.alloc(), 2, 850)?;
    assert!(rt; bounds.low(0) == 0 && bounds.high(0) == UNITS);
    bounds.round(&mut GraphLists::new(&graph));
    assert!(rt; bounds.low(0) == 75 * (UNITS / 1000));
    assert!(rt; bounds.high(0) == UNITS / 2);
    Ok(())
}

// In the overview of wg_order.
#[test]
fn the_second_page_is_surely_first(rt: HostRuntime) -> Result<(), Fail> {
    let graph = wg_arcs::read(rt.alloc(), b"0 1\n", 2)?;
    let mut lists = GraphLists::new(&graph);
    let mut bounds = Bounds::new(rt.alloc(), 2, 100)?;
    bounds.round(&mut lists);
    bounds.round(&mut lists);
    let ranking = Ranking::of(bounds);
    assert!(rt; ranking.page(0) == 1 && ranking.page(1) == 0);
    assert!(rt; ranking.surely_above(1, 0));
    assert!(rt; ranking.best(1) == 1 && ranking.worst(1) == 1);
    Ok(())
}
