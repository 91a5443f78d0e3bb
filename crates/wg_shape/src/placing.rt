// The classes that arcs lead to, in the list of the class that they leave.

ghost use Rattle.std.specs.Prelude.{◌≡◌, ◌+◌, ◌<◌, length, refl};
ghost use Rattle.wg_graph.specs.Ascending.{Below};
ghost use Rattle.wg_graph.specs.Digraph.{Digraph};
ghost use Rattle.wg_transpose.specs.SoFar.{onward, ArePrefixes, IsListOf};
ghost use Rattle.wg_shape.specs.Classes.{reached_by, reached_below};

use std::marker::Model;
use wg_graph::Lists;
use wg_transpose::{Placing, put_in_range};

// Puts the classes of the successors of a page, whose list was read, at the end of the list of its class, if that is
// one of those from class `from` on.
#[tactic(auto, using(wg_transpose::proofs::Seen::member_below))]
fn place_page(
    page: u64,
    list: &[u64],
    classes: &[u64],
    from: u64,
    ends: &mut [u64],
    all: &mut [u64],
)
    requires page { page < length classes.now }
    requires below { Below (length classes.now) list.now }
    requires placed { (g : Digraph) × IsListOf g page list.now × (length classes.now ≡ g.nodes)
        × ArePrefixes (length ends.old) (onward from (reached_by g classes.now))
        (onward from (reached_below g classes.now page)) ends.old all.old }
    ensures placed { (g : Digraph) → IsListOf g page list.now → length classes.now ≡ g.nodes
        → ArePrefixes (length ends.old) (onward from (reached_by g classes.now))
        (onward from (reached_below g classes.now page)) ends.old all.old
        → ArePrefixes (length ends.old) (onward from (reached_by g classes.now))
        (onward from (reached_below g classes.now (page + 1))) ends.new all.new }
{
    let class = classes[page as usize];
    for target in list {
        put_in_range(classes[*target as usize], class, from, ends, all);
    }
}

// Puts the classes of the successors of each page at the end of the list of its class, of those from class `from` on,
// so that what were starts become ends.
fn place<L: Lists>(lists: &mut L, classes: &[u64], from: u64, ends: &mut [u64], all: &mut [u64])
    requires each { length classes.now ≡ (L.graph lists.old).nodes }
    requires none { ArePrefixes (length ends.old) (onward from (reached_by (L.graph lists.old) classes.now))
        (onward from (reached_below (L.graph lists.old) classes.now 0)) ends.old all.old }
    ensures graph { L.graph lists.new ≡ L.graph lists.old }
    ensures placed { ArePrefixes (length ends.old) (onward from (reached_by (L.graph lists.old) classes.now))
        (onward from (reached_by (L.graph lists.old) classes.now)) ends.new all.new }
{
    let pages = lists.nodes();
    lists.begin();
    for page in 0..pages {
        if let Some(list) = lists.next_list() {
            place_page(page, list, classes, from, ends, all);
        }
    }
}

/// A pass along the lists of a graph, which puts the classes of the successors of each page into the list of its class.
/// It is seen as the graph, and the class of each page.
#[derive(Debug, Drop)]
pub(crate) struct Reached<'a, L: Lists> {
    lists: L,
    classes: &'a [u64],
}

impl<'a, L: Lists> Model for Reached<'a, L> {
    ghost use Rattle.std.specs.Prelude.{◌≡◌, ℕ, List, length};
    ghost use Rattle.wg_graph.specs.Digraph.{Digraph};

    ghost Value = { Digraph × List ℕ };

    ghost view = { λ s. (L.graph s.lists, s.classes.now) };

    ghost invariant = { λ s. length s.classes.now ≡ (L.graph s.lists).nodes };
}

impl<'a, L: Lists> Reached<'a, L> {
    pub(crate) fn new(lists: L, classes: &'a [u64]) -> Reached<'a, L>
        requires { length classes.now ≡ (L.graph lists).nodes }
        ensures { result ≡ (L.graph lists, classes.now) }
    {
        Reached { lists, classes }
    }
}

impl<'a, L: Lists> Placing for Reached<'a, L> {
    ghost lists = { λ s. reached_by s.0 s.1 };

    ghost same = { λ a b. b ≡ a };

    fn place(&mut self, from: u64, ends: &mut [u64], all: &mut [u64]) {
        place(&mut self.lists, self.classes, from, ends, all);
    }

    ghost stays = { λ a. refl };
}
