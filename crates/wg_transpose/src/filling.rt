// What stands for the pages that link to each page, one list after the other in one array.

ghost use Rattle.std.specs.Prelude.{◌≡◌, ◌+◌, ◌≤◌, length};
ghost use Rattle.wg_params.specs.declared.limits.TheConstants.{MOST_ARCS};
ghost use Rattle.wg_graph.specs.Digraph.{Digraph};
ghost use Rattle.wg_transpose.specs.Transposed.{predecessors};
ghost use Rattle.wg_transpose.specs.SoFar.{predecessors_below, AreFilled, IsListOf};
ghost use Rattle.wg_transpose.specs.Held.{AreBegun, AreReady};
ghost use Rattle.wg_transpose.specs.declared.run.TheConstants.{MOST_PAGES_IN_RUNS};

use crate::{InArc, set_starts};
use wg_graph::Lists;

// Puts page `page` behind the others of the lists of its successors.
fn place_arcs<T: InArc>(page: u32, list: &[u64], ends: &mut [u64], reach: &mut [u32], all: &mut [T])
    requires few { length ends.old ≤ MOST_PAGES_IN_RUNS }
    requires room { length all.old ≤ MOST_ARCS }
    requires begun { (g : Digraph) × IsListOf g page list.now
        × AreBegun T.items T.mark T.none g.nodes (predecessors g) (predecessors_below g page) ends.old reach.old all.old }
    ensures begun { (g : Digraph) → IsListOf g page list.now
        → AreBegun T.items T.mark T.none g.nodes (predecessors g) (predecessors_below g page) ends.old reach.old all.old
        → AreBegun T.items T.mark T.none g.nodes (predecessors g) (predecessors_below g (page + 1)) ends.new reach.new
        all.new }
{
    for target in list {
        T::put(page, *target as usize, ends, reach, all);
    }
}

// Places all arcs, so that what were starts become ends.
fn place<T: InArc, L: Lists>(lists: &mut L, ends: &mut [u64], reach: &mut [u32], all: &mut [T])
    requires few { length ends.old ≤ MOST_PAGES_IN_RUNS }
    requires room { length all.old ≤ MOST_ARCS }
    requires none { AreBegun T.items T.mark T.none (L.graph lists.old).nodes (predecessors (L.graph lists.old))
        (predecessors_below (L.graph lists.old) 0) ends.old reach.old all.old }
    ensures graph { L.graph lists.new ≡ L.graph lists.old }
    ensures filled { AreBegun T.items T.mark T.none (L.graph lists.old).nodes (predecessors (L.graph lists.old))
        (predecessors (L.graph lists.old)) ends.new reach.new all.new }
{
    let pages = lists.nodes();
    lists.begin();
    for page in 0..pages {
        if let Some(list) = lists.next_list() {
            place_arcs(page as u32, list, ends, reach, all);
        }
    }
}

// Fills in what stands for the pages that link to each page, one page after the other, and its ends, if it was counted
// how much that is.
#[tactic(auto, using(crate::proofs::Totals::sum_is_all))]
pub(crate) fn fill<T: InArc, L: Lists>(
    lists: &mut L,
    ends: &mut [u64],
    reach: &mut [u32],
    all: &mut [T],
)
    requires { AreReady T.items (L.graph lists.old) ends.old reach.old (length all.old) }
    ensures graph { L.graph lists.new ≡ L.graph lists.old }
    ensures filled { AreFilled T.none (L.graph lists.old).nodes (λ v. T.items (predecessors (L.graph lists.old) v))
        (λ v. T.items (predecessors (L.graph lists.old) v)) ends.new all.new }
{
    set_starts(ends);
    reach.fill(u32::MAX);
    place(lists, ends, reach, all);
}
