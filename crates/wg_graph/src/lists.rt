ghost use Rattle.std.specs.Prelude.{◌≡◌, ℕ, ◌<◌, ◌≤◌, MatchOption};
ghost use Rattle.std.specs.Io.BufRead.{Rests};
ghost use Rattle.std.specs.Borrow.{sem};
ghost use Rattle.wg_graph.specs.Digraph.{Digraph, IsGraph, successors};
ghost use Rattle.wg_graph.specs.Listing.{PlaceAfter};

use crate::Graph;
use std::marker::Model;

/// A graph whose lists of successors are read in the order of the pages, as often as one likes.
pub trait Lists {
    ghost graph: { Self → Digraph };

    // The page whose list comes next.
    ghost place: { Self → ℕ };

    /// How many pages there are.
    fn nodes(&self) -> u64
        ensures count { result ≡ (graph self.now).nodes }
        ensures proper { IsGraph (graph self.now) };

    /// Goes to page 0.
    fn begin(&mut self)
        ensures graph { graph self.new ≡ graph self.old }
        ensures place { place self.new ≡ 0 };

    /// Lends the successors of the page that comes next, and moves on; `None` if all pages are behind.
    fn next_list(&mut self) -> Option<&[u64]>
        ensures lent { MatchOption result ((graph self.old).nodes ≤ place self.old)
            (λ s. (place self.old < (graph self.old).nodes) × (s.now ≡ successors (graph self.old) (place self.old))) }
        ensures* after { sem 𝓛 (Rests Self.row self.entry (λ after.
            (graph after ≡ graph self.old) × PlaceAfter result (place self.old) (place after))) };
}

/// The lists of a graph in memory. Each call takes constant time, and no memory.
#[derive(Debug, Drop)]
pub struct GraphLists<'a> {
    source: &'a Graph,
    page: u64,
}

impl<'a> Model for GraphLists<'a> {
    ghost use Rattle.std.specs.Prelude.{◌≤◌};
    ghost use Rattle.wg_graph.specs.Listing.{Listing};

    ghost Value = { Listing };

    ghost view = { λ r. record { graph = r.source.now; place = r.page } };

    ghost invariant = { λ r. r.page ≤ r.source.now.nodes };
}

impl<'a> GraphLists<'a> {
    /// The lists of the graph, from page 0 on.
    pub fn new(graph: &'a Graph) -> GraphLists<'a>
        ensures graph { result.graph ≡ graph.now }
        ensures place { result.place ≡ 0 }
    {
        GraphLists {
            source: graph,
            page: 0,
        }
    }
}

impl<'a> Lists for GraphLists<'a> {
    ghost graph = { λ r. r.graph };

    ghost place = { λ r. r.place };

    fn nodes(&self) -> u64 {
        self.source.nodes()
    }

    fn begin(&mut self) {
        self.page = 0;
    }

    fn next_list(&mut self) -> Option<&[u64]> {
        if self.page < self.source.nodes() {
            let page = self.page;
            self.page += 1;
            Some(self.source.list(page))
        } else {
            None
        }
    }
}
