ghost use Rattle.std.specs.Prelude.{◌≡◌, ◌≤◌, length, IfOk};
ghost use Rattle.wg_params.specs.declared.limits.TheConstants.{MOST_PAGES};
ghost use Rattle.wg_graph.specs.Ascending.{Below};
ghost use Rattle.wg_graph.specs.Digraph.{arc_count};
ghost use Rattle.wg_shape.specs.Quotient.{IsQuotient, quotient_of};
ghost use Rattle.wg_shape.specs.Classes.{whole};

use crate::Quotienter;
use std::alloc::{AllocError, Global};
use wg_graph::{Graph, GraphBuilder, GraphLists, List, Lists};
use wg_params::MOST_ARCS;

// The graph of all lists, if the range has all classes.
fn gather<'a, L: Lists + Drop>(
    alloc: Global,
    ranges: &Quotienter<'a, L>,
) -> Result<Graph, AllocError>
    requires from { ranges.now.from ≡ 0 }
    requires to { ranges.now.to ≡ ranges.now.pages.count }
    ensures { IfOk result (λ q. q ≡ whole ranges.now.pages) }
{
    let classes = ranges.nodes();
    let mut builder = GraphBuilder::new(alloc, classes)?;
    let mut list = Vec::new(alloc);
    for class in 0..classes {
        ranges.list(class, &mut list)?;
        builder.push_list(&list)?;
    }
    let made = builder.finish()?;
    Ok(made)
}

/// The graph of the classes of pages, where the class of page `u` is the number at `u` in `classes_of`. Its pages are
/// the classes; it has an arc from class to class exactly if some page of the one has an arc to some page of the
/// other. An arc inside a class is an arc from the class to itself.
///
/// It takes time in proportion to the pages and the classes, and what sorting takes for the arcs of each class. Beside
/// the graph made it holds 8 bytes for each class, 8 for each arc, and 8 for each arc of one class.
pub fn quotient(
    alloc: Global,
    graph: &Graph,
    classes_of: &List,
    classes: u64,
) -> Result<Graph, AllocError>
    requires each { length classes_of.now ≡ graph.now.nodes }
    requires below { Below classes classes_of.now }
    requires few { classes ≤ MOST_PAGES }
    ensures quotient { IfOk result (λ q. IsQuotient graph.now classes_of.now classes q) }
    ensures fewer { IfOk result (λ q. arc_count q ≤ arc_count graph.now) }
    ensures exact { IfOk result (λ q. q ≡ quotient_of graph.now classes_of.now classes) }
{
    // tell that its pages and arcs are few
    graph.nodes();
    graph.arcs();
    let lists = GraphLists::new(graph);
    let mut ranges = Quotienter::new(alloc, lists, classes_of.as_slice(), classes)?;
    // a range of all classes
    ranges.advance(alloc, MOST_ARCS + 1)?;
    let made = gather(alloc, &ranges)?;
    Ok(made)
}
