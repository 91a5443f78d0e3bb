ghost use Rattle.std.specs.Prelude.{◌≡◌, ◌<◌, ◌≤◌, length};
ghost use Rattle.wg_params.specs.declared.limits.TheConstants.{MOST_ARCS, MOST_PAGES};
ghost use Rattle.wg_graph.specs.Ascending.{Ascends, Below};
ghost use Rattle.wg_graph.specs.Digraph.{IsGraph, successors, arc_count};
ghost use Rattle.wg_graph.specs.Pieces.{cut, IsCut};

use crate::cutting::piece;
use std::marker::Model;

/// A graph of pages: 8 bytes for each arc, and 8 for each page. Each list ascends and has pages alone, as `proper` of
/// [`nodes`](Graph::nodes) tells. Each call takes constant time, and no memory.
#[derive(Clone, Debug)]
pub struct Graph {
    // The end of each list; it begins where the one before it ends.
    pub(crate) ends: Vec<u64>,
    // All lists, one after the other.
    pub(crate) all: Vec<u64>,
}

impl Drop for Graph {
    fn drop(self) {
        let Graph { ends, all } = self;
    }
}

impl Model for Graph {
    ghost use Rattle.std.specs.Prelude.{length};
    ghost use Rattle.wg_graph.specs.Digraph.{Digraph};
    ghost use Rattle.wg_graph.specs.Pieces.{cut, IsCut};

    ghost Value = { Digraph };

    ghost view = { λ g. cut (length g.ends.items) g.ends.items g.all.items };

    ghost invariant = { λ g. IsCut (length g.ends.items) g.ends.items g.all.items };
}

impl PartialEq for Graph {
    ghost use Rattle.std.specs.Prelude.{bytes_eq};
    ghost use Rattle.std.specs.Cmp.{on_per, partial_equiv_from_equiv};
    ghost use Rattle.std.specs.Cmp.Lexicographic.{lists_per, nat_list_eq_equiv, pointwise};

    ghost eq = { λ g h. pointwise bytes_eq g.lists h.lists };

    ghost laws = { on_per (λ g. g.lists) (lists_per (partial_equiv_from_equiv nat_list_eq_equiv)) };

    fn eq(&self, other: &Graph) -> bool {
        self.ends == other.ends && self.all == other.all
    }
}

impl Eq for Graph {
    ghost use Rattle.std.specs.Cmp.{on_equiv};
    ghost use Rattle.std.specs.Cmp.Lexicographic.{lists_equiv, nat_list_eq_equiv};

    ghost laws = { on_equiv (λ g. g.lists) (lists_equiv nat_list_eq_equiv) };
}

impl Graph {
    /// The graph whose lists stand one after the other in `all`, each up to its end in `ends`. It takes no memory.
    pub fn from_parts(ends: Vec<u64>, all: Vec<u64>) -> Graph
        requires { IsCut (length ends.items) ends.items all.items }
        ensures { result ≡ cut (length ends.items) ends.items all.items }
    {
        Graph { ends, all }
    }

    /// How many pages there are.
    #[inline(always)]
    pub fn nodes(&self) -> u64
        ensures value { result ≡ self.now.nodes }
        ensures within { result ≤ MOST_PAGES }
        ensures proper { IsGraph self.now }
    {
        self.ends.len() as u64
    }

    /// How many arcs there are.
    pub fn arcs(&self) -> u64
        ensures value { result ≡ arc_count self.now }
        ensures within { result ≤ MOST_ARCS }
    {
        self.all.len() as u64
    }

    /// The successors of page `x`.
    #[inline(always)]
    pub fn list(&self, x: u64) -> &[u64]
        requires { x < self.now.nodes }
        ensures value { result.now ≡ successors self.now x }
        ensures ascends { Ascends 0 result.now }
        ensures below { Below self.now.nodes result.now }
    {
        piece(&self.ends, &self.all, x as usize)
    }
}
