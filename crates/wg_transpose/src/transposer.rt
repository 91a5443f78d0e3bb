//! The lists of the transposed graph, range after range of pages.
ghost use Rattle.std.specs.Prelude.{◌≡◌, ℕ, ◌<◌, ◌≤◌, IfOk, OnOk, OnErr};
ghost use Rattle.wg_params.specs.declared.limits.TheConstants.{MOST_ARCS, MOST_PAGES};
ghost use Rattle.wg_graph.specs.Ascending.{Ascends, Below};
ghost use Rattle.wg_graph.specs.Digraph.{IsGraph, arc_count};
ghost use Rattle.wg_transpose.specs.Transposed.{predecessors};
ghost use Rattle.wg_transpose.specs.SoFar.{AreCounts};
ghost use Rattle.wg_transpose.specs.Transposing.{arcs_between};

use crate::counting::count;
use crate::placing::Sources;
use crate::ranges::Ranges;
use std::alloc::{AllocError, Global};
use std::marker::Model;
use wg_graph::Lists;

/// The lists of the transposed graph of a graph whose lists are read in order, range after range of pages.
///
/// It is seen as the graph, and the range of pages whose lists are at hand: from page `from` up to the page before
/// `to`. It holds 8 bytes for each page, and 8 for each arc that leads to a page of the range.
#[derive(Debug, Drop)]
pub struct Transposer<L: Lists + Drop> {
    sources: Sources<L>,
    ranges: Ranges,
}

impl<L: Lists + Drop> Model for Transposer<L> {
    ghost use Rattle.wg_transpose.specs.Transposing.{Transposing, HoldsRange};

    ghost Value = { Transposing };

    ghost view = { λ t. record { graph = L.graph t.sources.lists; from = t.ranges.from; to = t.ranges.to } };

    ghost invariant = { λ t. HoldsRange (L.graph t.sources.lists) t.ranges };
}

impl<L: Lists + Drop> Transposer<L> {
    /// Before the first range. It goes over the lists once, and counts for each page the arcs that lead to it.
    pub fn new(alloc: Global, mut lists: L) -> Result<Transposer<L>, AllocError>
        requires few_pages { (L.graph lists).nodes ≤ MOST_PAGES }
        requires few_arcs { arc_count (L.graph lists) ≤ MOST_ARCS }
        ensures graph { IfOk result (λ t. t.graph ≡ L.graph lists) }
        ensures from { IfOk result (λ t. t.from ≡ 0) }
        ensures to { IfOk result (λ t. t.to ≡ 0) }
    {
        let mut counts = vec![in alloc; 0; lists.nodes() as usize]?;
        count(&mut lists, &mut counts);
        Ok(Transposer::with_counts(alloc, lists, counts))
    }

    /// Before the first range, if the arcs that lead to each page have been counted, as by
    /// [`count_arcs`](crate::count_arcs). It goes over no list, and takes no memory.
    pub fn with_counts(alloc: Global, lists: L, counts: Vec<u64>) -> Transposer<L>
        requires few_pages { (L.graph lists).nodes ≤ MOST_PAGES }
        requires few_arcs { arc_count (L.graph lists) ≤ MOST_ARCS }
        requires counted { AreCounts (L.graph lists).nodes (predecessors (L.graph lists)) counts.items }
        ensures graph { result.graph ≡ L.graph lists }
        ensures from { result.from ≡ 0 }
        ensures to { result.to ≡ 0 }
    {
        // tells that it is a graph
        lists.nodes();
        Transposer {
            sources: Sources { lists },
            ranges: Ranges::new(alloc, counts),
        }
    }

    /// How many pages the graph has.
    pub fn nodes(&self) -> u64
        ensures value { result ≡ self.now.graph.nodes }
        ensures proper { IsGraph self.now.graph }
        ensures few { arc_count self.now.graph ≤ MOST_ARCS }
        ensures few_pages { self.now.graph.nodes ≤ MOST_PAGES }
    {
        self.ranges.count()
    }

    /// The first page of the range.
    #[inline(always)]
    pub fn from(&self) -> u64
        ensures value { result ≡ self.now.from }
        ensures ordered { self.now.from ≤ self.now.to }
    {
        self.ranges.from()
    }

    /// The page behind the last one of the range.
    #[inline(always)]
    pub fn to(&self) -> u64
        ensures value { result ≡ self.now.to }
        ensures within { self.now.to ≤ self.now.graph.nodes }
    {
        self.ranges.to()
    }

    /// Goes to the next range, in one pass along the lists: it ends with the page by which it has `room` arcs or more,
    /// or with the last page. The memory of the range before is given back first. If there is none for the next,
    /// the range is empty, and stands before the same page.
    pub fn advance(&mut self, alloc: Global, room: u64) -> Result<(), AllocError>
        ensures graph { self.new.graph ≡ self.old.graph }
        ensures from { self.new.from ≡ self.old.to }
        ensures within { self.new.to ≤ self.old.graph.nodes }
        ensures some { OnOk result (self.old.to < self.old.graph.nodes → self.old.to < self.new.to) }
        ensures enough { OnOk result (self.new.to < self.old.graph.nodes
            → room ≤ arcs_between self.old.graph self.old.to self.new.to) }
        ensures least { OnOk result ((page : ℕ) → self.old.to < page → page < self.new.to
            → arcs_between self.old.graph self.old.to page < room) }
        ensures err { OnErr result (self.new.to ≡ self.old.to) }
    {
        self.ranges.advance(alloc, room, &mut self.sources)
    }

    /// The pages with an arc to this page of the range, ascending. It takes constant time.
    #[inline(always)]
    pub fn list(&self, page: u64) -> &[u64]
        requires from { self.now.from ≤ page }
        requires to { page < self.now.to }
        ensures value { result.now ≡ predecessors self.now.graph page }
        ensures ascends { Ascends 0 result.now }
        ensures below { Below self.now.graph.nodes result.now }
    {
        self.ranges.list(page)
    }
}
