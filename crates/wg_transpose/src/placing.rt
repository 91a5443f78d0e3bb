// The sources of arcs, each in the list of its target.

ghost use Rattle.std.specs.Prelude.{◌≡◌, ℕ, ◌+◌, length, refl};
ghost use Rattle.wg_graph.specs.Digraph.{Digraph};
ghost use Rattle.wg_transpose.specs.Transposed.{predecessors};
ghost use Rattle.wg_transpose.specs.SoFar.{predecessors_below, ArePlacedFrom, IsListOf};

use crate::ranges::{Placing, put_in_range};
use wg_graph::Lists;

// Puts a page, whose list was read, at the end of the lists of its successors, of those from page `from` on.
fn place_arcs(page: u64, list: &[u64], from: u64, ends: &mut [u64], all: &mut [u64])
    requires placed { (g : Digraph) × (n : ℕ) × IsListOf g page list.now
        × ArePlacedFrom g from n (predecessors_below g page) ends.old all.old }
    ensures placed { (g : Digraph) (n : ℕ) → IsListOf g page list.now
        → ArePlacedFrom g from n (predecessors_below g page) ends.old all.old
        → ArePlacedFrom g from n (predecessors_below g (page + 1)) ends.new all.new }
{
    for target in list {
        put_in_range(page, *target, from, ends, all);
    }
}

// Puts each page at the end of the lists of its successors, of those from page `from` on, so that what were starts
// become ends.
fn place<L: Lists>(lists: &mut L, from: u64, ends: &mut [u64], all: &mut [u64])
    requires none { ArePlacedFrom (L.graph lists.old) from (length ends.old)
        (predecessors_below (L.graph lists.old) 0) ends.old all.old }
    ensures graph { L.graph lists.new ≡ L.graph lists.old }
    ensures placed { ArePlacedFrom (L.graph lists.old) from (length ends.old)
        (predecessors (L.graph lists.old)) ends.new all.new }
{
    let pages = lists.nodes();
    lists.begin();
    for page in 0..pages {
        if let Some(list) = lists.next_list() {
            place_arcs(page, list, from, ends, all);
        }
    }
}

// A pass along the lists of a graph, which puts each page into the lists of its successors.
#[derive(Debug, Drop)]
pub(crate) struct Sources<L: Lists> {
    pub(crate) lists: L,
}

impl<L: Lists> Placing for Sources<L> {
    ghost lists = { λ s. predecessors (L.graph s.lists) };

    ghost same = { λ a b. L.graph b.lists ≡ L.graph a.lists };

    fn place(&mut self, from: u64, ends: &mut [u64], all: &mut [u64]) {
        place(&mut self.lists, from, ends, all);
    }

    ghost stays = { λ a. refl };
}
