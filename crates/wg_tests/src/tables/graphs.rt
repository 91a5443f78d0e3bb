// Graphs and lists: what another program draws, and the memory that is kept.
use std::alloc::Global;
use std::test::Fail;
use wg_decoder::Spares;
use wg_graph::{Graph, GraphBuilder, GraphLists, List};
use wg_shape::{ListWalk, Merge, Quotienter, add_union};
use wg_vectors::generate;

// The lists of the graph of 12 pages from the seed 3, which another program drew.
const DRAWN: [&[u64]; 12] = [
    &[7, 10, 11],
    &[7, 10, 11],
    &[7, 10, 11],
    &[1, 6, 7, 10, 11],
    &[3, 7, 8, 9, 10, 11],
    &[3, 5, 7, 8, 9, 10, 11],
    &[7, 10, 11],
    &[1, 6, 7, 10, 11],
    &[2, 11],
    &[2, 7],
    &[1, 9],
    &[],
];

#[test]
fn a_graph_that_another_program_draws(rt: HostRuntime) -> Result<(), Fail> {
    let graph = generate(rt.alloc(), 3, 12)?;
    assert!(rt; graph.nodes() == 12);
    for page in 0..12_u64 {
        assert!(rt; graph.list(page) == DRAWN[page as usize], "{page}");
    }
    Ok(())
}

// The class of each page.
const CLASSES: [u64; 12] = [0, 0, 1, 1, 2, 2, 3, 3, 4, 4, 5, 5];

// Where ranges of classes end that so many arcs are to leave. 6, 8, 13, 8, 4 and 2 leave the classes.
const ENDS: [(u64, &[u64]); 4] = [(10, &[2, 3, 5, 6]), (20, &[3, 6]), (41, &[6]), (1000, &[6])];

// Whether the ranges of the classes of this graph end there.
fn ranges_end(alloc: Global, graph: &Graph, room: u64, ends: &[u64]) -> Result<bool, Fail> {
    if graph.nodes() != 12 || graph.arcs() != 41 {
        return Ok(false);
    }
    let mut ranges = Quotienter::new(alloc, GraphLists::new(graph), &CLASSES, 6)?;
    for end in ends {
        ranges.advance(alloc, room)?;
        if ranges.to() != *end {
            return Ok(false);
        }
    }
    Ok(true)
}

#[test]
fn a_range_of_classes_has_few_arcs_more_than_are_asked_for(rt: HostRuntime) -> Result<(), Fail> {
    let graph = generate(rt.alloc(), 3, 12)?;
    for (room, ends) in ENDS {
        assert!(rt; ranges_end(rt.alloc(), &graph, room, ends)?);
    }
    Ok(())
}

// Both lists have number 2.
#[test]
fn a_union_is_added_to_a_graph_in_the_making(rt: HostRuntime) -> Result<(), Fail> {
    let mut builder = GraphBuilder::new(rt.alloc(), 4)?;
    let both = Merge::new(ListWalk::new(&[0, 2]), ListWalk::new(&[2, 3]));
    add_union(&mut builder, 1, both)?;
    let graph = builder.finish()?;
    assert!(rt; graph.arcs() == 3 && graph.list(1) == [0, 2, 3].as_slice());
    Ok(())
}

// What is kept of a short list has no room for the long one that left the window before.
#[test]
fn a_short_list_is_kept_in_little_memory(rt: HostRuntime) -> Result<(), Fail> {
    let mut spares = Spares::new(rt.alloc());
    spares.take_furthest(List::with_room(rt.alloc(), 1000)?);
    let copy = spares.copy_of(&[7])?;
    assert!(rt; copy.as_slice() == [7].as_slice());
    assert!(rt; copy.room() <= 32);
    Ok(())
}
