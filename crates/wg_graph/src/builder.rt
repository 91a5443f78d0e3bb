ghost use Rattle.std.specs.Prelude.{◌≡◌, ◌↔◌, ◌+◌, ◌<◌, ◌≤◌, [], ◌∷◌, ◌++◌, length, IsTrue, IfOk, OnOk, OnErr};
ghost use Rattle.wg_params.specs.declared.limits.TheConstants.{MOST_ARCS, MOST_PAGES};
ghost use Rattle.wg_graph.specs.Ascending.{Ascends, Below};
ghost use Rattle.wg_graph.specs.Digraph.{arc_count, successors, IsGraphPrefix, IsGraph};
ghost use Rattle.wg_graph.specs.Growing.{ComesAfter, FollowsOn, with_arc, padded};

use crate::Graph;
use crate::cutting::{add, append, pad, piece};
use std::alloc::{AllocError, Global};
use std::marker::Model;
use wg_params::MOST_ARCS;

/// A graph in the making: its lists up to the last page that is begun. It holds 8 bytes for each arc and 8 for each of
/// these pages; [`GraphBuilder::finish`] takes 8 for each page that follows.
#[derive(Debug)]
pub struct GraphBuilder {
    nodes: u64,
    // The end of the list of each page that is begun.
    ends: Vec<u64>,
    // All lists, one after the other.
    all: Vec<u64>,
}

impl Drop for GraphBuilder {
    fn drop(self) {
        let GraphBuilder { nodes, ends, all } = self;
    }
}

impl Model for GraphBuilder {
    ghost use Rattle.wg_graph.specs.Digraph.{Digraph};
    ghost use Rattle.wg_graph.specs.Pieces.{cut, IsCut};

    ghost Value = { Digraph };

    ghost view = { λ b. cut b.nodes b.ends.items b.all.items };

    ghost invariant = { λ b. IsCut b.nodes b.ends.items b.all.items };
}

impl GraphBuilder {
    /// A graph of `n` pages, none begun; it takes no memory yet.
    pub fn new(alloc: Global, n: u64) -> Result<GraphBuilder, AllocError>
        requires { n ≤ MOST_PAGES }
        ensures nodes { IfOk result (λ b. b.nodes ≡ n) }
        ensures lists { IfOk result (λ b. b.lists ≡ []) }
    {
        Ok(GraphBuilder {
            nodes: n,
            ends: Vec::new(alloc),
            all: Vec::new(alloc),
        })
    }

    /// The successors that page `x` has so far; none if it is not begun. It takes constant time.
    #[inline(always)]
    pub fn list_so_far(&self, x: u64) -> &[u64]
        ensures value { result.now ≡ successors self.now x }
        ensures ascends { Ascends 0 result.now }
        ensures below { Below self.now.nodes result.now }
    {
        if x < self.ends.len() as u64 {
            piece(&self.ends, &self.all, x as usize)
        } else {
            &[]
        }
    }

    /// How many pages there are to be.
    #[inline(always)]
    pub fn nodes(&self) -> u64
        ensures value { result ≡ self.now.nodes }
        ensures within { result ≤ MOST_PAGES }
        ensures prefix { IsGraphPrefix self.now }
    {
        self.nodes
    }

    /// How many arcs there are so far.
    #[inline(always)]
    pub fn arcs(&self) -> u64
        ensures value { result ≡ arc_count self.now }
        ensures within { result ≤ MOST_ARCS }
    {
        self.all.len() as u64
    }

    /// Whether the arc from page `x` to `v` comes after all that are there. It takes constant time.
    #[inline(always)]
    pub fn is_after_all(&self, x: u64, v: u64) -> bool
        requires { x < self.now.nodes }
        ensures value { IsTrue result ↔ ComesAfter self.now x v }
        ensures prefix { IsGraphPrefix self.now }
    {
        let begun = self.ends.len() as u64;
        if x + 1 < begun {
            return false;
        }
        is_past(self.list_so_far(x), v)
    }

    /// Whether the arc from `x` to `v` may come next. It takes constant time.
    pub fn fits(&self, x: u64, v: u64) -> bool
        ensures { IsTrue result ↔ FollowsOn self.now x v }
    {
        x < self.nodes() && v < self.nodes() && self.is_after_all(x, v) && self.arcs() < MOST_ARCS
    }

    /// Adds an arc, in constant time on average but for the pages without arcs that it passes over, of 8 bytes each.
    #[inline(always)]
    pub fn push(&mut self, x: u64, v: u64) -> Result<(), AllocError>
        requires { FollowsOn self.old x v }
        ensures nodes { self.new.nodes ≡ self.old.nodes }
        ensures ok { OnOk result (self.new.lists ≡ with_arc self.old.lists x v) }
        ensures err { OnErr result (self.new ≡ self.old) }
    {
        add(&mut self.ends, &mut self.all, x as usize, v)?;
        Ok(())
    }

    /// Adds the whole list of the next page, the first that is not begun, in time in proportion to its length on
    /// average.
    pub fn push_list(&mut self, list: &[u64]) -> Result<(), AllocError>
        requires page { length self.old.lists < self.old.nodes }
        requires ascends { Ascends 0 list.now }
        requires below { Below self.old.nodes list.now }
        requires room { arc_count self.old + length list.now ≤ MOST_ARCS }
        ensures nodes { self.new.nodes ≡ self.old.nodes }
        ensures ok { OnOk result (self.new.lists ≡ self.old.lists ++ list.now ∷ []) }
        ensures err { OnErr result (self.new ≡ self.old) }
    {
        append(&mut self.ends, &mut self.all, list)?;
        Ok(())
    }

    /// The graph; pages that were not begun have no successors. It takes one step and 8 bytes for each of these.
    pub fn finish(self) -> Result<Graph, AllocError>
        ensures nodes { IfOk result (λ g. g.nodes ≡ self.nodes) }
        ensures lists { IfOk result (λ g. g.lists ≡ padded self.nodes self.lists) }
        ensures proper { IfOk result (λ g. IsGraph g) }
    {
        let GraphBuilder {
            nodes,
            mut ends,
            mut all,
        } = self;
        pad(&mut ends, all.as_slice(), nodes as usize)?;
        ends.shrink_to_fit();
        all.shrink_to_fit();
        Ok(Graph { ends, all })
    }
}

// Whether v is above the numbers of the list.
#[inline(always)]
fn is_past(list: &[u64], v: u64) -> bool
    requires { Ascends 0 list.now }
    ensures { IsTrue result ↔ Below v list.now }
{
    match list.last() {
        Some(last) => *last < v,
        None => true,
    }
}
