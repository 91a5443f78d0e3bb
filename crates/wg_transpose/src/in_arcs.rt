//! What stands for the pages that link to each page.
ghost use Rattle.std.specs.Prelude.{◌≡◌, ◌≤◌, ◌<◌, IfOk};
ghost use Rattle.wg_params.specs.declared.limits.TheConstants.{MOST_ARCS};
ghost use Rattle.wg_graph.specs.Digraph.{IsGraph, arc_count, outdegree};
ghost use Rattle.wg_transpose.specs.Transposed.{predecessors};
ghost use Rattle.wg_transpose.specs.Held.{AreReady};
ghost use Rattle.wg_transpose.specs.Runs.{AreDegrees};
ghost use Rattle.wg_transpose.specs.declared.run.TheConstants.{MOST_PAGES_IN_RUNS};

use crate::filling::fill;
use crate::spans::span;
use crate::{InArc, PageRun};
use std::alloc::{AllocError, Global};
use std::marker::Model;
use wg_graph::Lists;

/// The pages that link to each page, as runs of pages or one by one, and the outdegree of each page.
/// [`crate::RunCounts`] makes them.
///
/// They are seen as the graph. They hold 12 bytes for each page, and 8 for each run, or 4 for each arc. Each call takes
/// constant time, and no memory.
#[derive(Debug)]
pub struct InArcs<T: InArc> {
    // Where the list of each page ends; it begins where that of the page before ends.
    ends: Vec<u64>,
    all: Vec<T>,
    degrees: Vec<u32>,
}

/// As runs.
pub type Runs = InArcs<PageRun>;

/// One by one.
pub type InLists = InArcs<u32>;

impl<T: InArc> Drop for InArcs<T> {
    fn drop(self) {
        let InArcs { ends, all, degrees } = self;
    }
}

impl<T: InArc> Model for InArcs<T> {
    ghost use Rattle.wg_graph.specs.Digraph.{Digraph};
    ghost use Rattle.wg_transpose.specs.Held.{graph_of, HoldsArcs};

    ghost Value = { Digraph };

    ghost view = { λ l. graph_of T.pages l.ends.items l.all.items };

    ghost invariant = { λ l. HoldsArcs T.items T.none (graph_of T.pages l.ends.items l.all.items) l.ends.items
        l.all.items l.degrees.items };
}

impl<T: InArc> InArcs<T> {
    // Of a graph, of which it was counted how much stands for the pages that link to each page, in one pass over its
    // lists. Its memory is taken before.
    pub(crate) fn of<L: Lists>(
        alloc: Global,
        lists: &mut L,
        mut ends: Vec<u64>,
        mut reach: Vec<u32>,
        degrees: Vec<u32>,
        none: T,
        size: u64,
    ) -> Result<InArcs<T>, AllocError>
        requires ready { AreReady T.items (L.graph lists.old) ends.items reach.items size }
        requires degrees { AreDegrees (L.graph lists.old) degrees.items }
        ensures graph { L.graph lists.new ≡ L.graph lists.old }
        ensures made { IfOk result (λ made. made ≡ L.graph lists.old) }
    {
        let mut all = vec![in alloc; none; size as usize]?;
        fill(lists, &mut ends, &mut reach, &mut all);
        Ok(InArcs { ends, all, degrees })
    }

    /// How many pages the graph has.
    #[inline(always)]
    pub fn nodes(&self) -> u64
        ensures value { result ≡ self.now.nodes }
        ensures within { result ≤ MOST_PAGES_IN_RUNS }
        ensures proper { IsGraph self.now }
        ensures few { arc_count self.now ≤ MOST_ARCS }
    {
        self.ends.len() as u64
    }

    /// How many arcs leave page `u`.
    #[inline(always)]
    pub fn degree(&self, u: u64) -> u32
        requires { u < self.now.nodes }
        ensures value { result ≡ outdegree self.now u }
    {
        self.degrees[u as usize]
    }

    /// The pages that link to page `v`, ascending: the runs of them, each as long as can be, or each of them.
    #[inline(always)]
    pub fn of_page(&self, v: u64) -> &[T]
        requires { v < self.now.nodes }
        ensures value { result.now ≡ T.items (predecessors self.now v) }
        ensures numbers { T.pages result.now ≡ predecessors self.now v }
        ensures proper { T.proper self.now.nodes result.now }
    {
        let (begin, end) = span(&self.ends, v);
        &self.all[begin..end]
    }
}
