//! How many runs and arcs lead to each page, before memory is taken for them.
ghost use Rattle.std.specs.Prelude.{◌≡◌, ◌≤◌, length, IfOk};
ghost use Rattle.wg_params.specs.declared.limits.TheConstants.{MOST_ARCS};
ghost use Rattle.wg_graph.specs.Digraph.{arc_count};
ghost use Rattle.wg_transpose.specs.Runs.{IsCountOf};
ghost use Rattle.wg_transpose.specs.declared.run.TheConstants.{MOST_PAGES_IN_RUNS};

use crate::run_counting::count;
use crate::{InArcs, InLists, PageRun, Runs};
use std::alloc::{AllocError, Global};
use std::marker::Model;
use wg_graph::Lists;

/// How many runs and arcs lead to each page of a graph, and how many arcs leave it. It holds 24 bytes for each page.
#[derive(Debug)]
pub struct RunCounts {
    counts: Vec<u64>,
    // How many pages link to each page.
    links: Vec<u64>,
    // Where the last run to each page ends.
    reach: Vec<u32>,
    degrees: Vec<u32>,
    runs: u64,
    arcs: u64,
}

impl Drop for RunCounts {
    fn drop(self) {
        let RunCounts {
            counts,
            links,
            reach,
            degrees,
            runs,
            arcs,
        } = self;
    }
}

impl Model for RunCounts {
    ghost use Rattle.std.specs.Prelude.{◌≡◌, length};
    ghost use Rattle.wg_transpose.specs.Runs.{Counted};

    ghost Value = { Counted };

    ghost view = { λ c. record {
      counts = c.counts.items;
      links = c.links.items;
      degrees = c.degrees.items;
      runs = c.runs;
      arcs = c.arcs;
    } };

    ghost invariant = { λ c. length c.reach.items ≡ length c.counts.items };
}

impl RunCounts {
    /// Counts in one pass over the lists. Its memory is taken before.
    pub fn of<L: Lists>(alloc: Global, lists: &mut L) -> Result<RunCounts, AllocError>
        requires few_pages { (L.graph lists.old).nodes ≤ MOST_PAGES_IN_RUNS }
        requires few_arcs { arc_count (L.graph lists.old) ≤ MOST_ARCS }
        ensures graph { L.graph lists.new ≡ L.graph lists.old }
        ensures counted { IfOk result (λ c. IsCountOf (L.graph lists.old) c) }
    {
        let pages = lists.nodes() as usize;
        let mut counts = vec![in alloc; 0; pages]?;
        let mut links = vec![in alloc; 0; pages]?;
        let mut reach = vec![in alloc; u32::MAX; pages]?;
        let mut degrees = vec![in alloc; 0; pages]?;
        let (runs, arcs) = count(lists, &mut counts, &mut links, &mut reach, &mut degrees);
        Ok(RunCounts {
            counts,
            links,
            reach,
            degrees,
            runs,
            arcs,
        })
    }

    /// How many runs there are.
    pub fn runs(&self) -> u64
        ensures { result ≡ self.now.runs }
    {
        self.runs
    }

    /// How many arcs there are.
    pub fn arcs(&self) -> u64
        ensures { result ≡ self.now.arcs }
    {
        self.arcs
    }

    /// Fills in the runs, in one pass over the lists of the same graph. It gives back 8 bytes for each page, takes 8
    /// for each run, and gives back 4 more for each page in the end.
    pub fn fill<L: Lists>(self, alloc: Global, lists: &mut L) -> Result<Runs, AllocError>
        requires counted { IsCountOf (L.graph lists.old) self }
        ensures graph { L.graph lists.new ≡ L.graph lists.old }
        ensures runs { IfOk result (λ runs. runs ≡ L.graph lists.old) }
    {
        let RunCounts {
            counts,
            links,
            reach,
            degrees,
            runs,
            arcs: _,
        } = self;
        drop(links);
        let none = PageRun { from: 0, to: 0 };
        InArcs::of(alloc, lists, counts, reach, degrees, none, runs)
    }

    /// Lists the pages that link to each page one by one in place of runs, in one pass over the lists of the same
    /// graph. It gives back 8 bytes for each page, takes 4 for each arc, and gives back 4 more for each page in the end.
    pub fn list<L: Lists>(self, alloc: Global, lists: &mut L) -> Result<InLists, AllocError>
        requires counted { IsCountOf (L.graph lists.old) self }
        ensures graph { L.graph lists.new ≡ L.graph lists.old }
        ensures lists { IfOk result (λ made. made ≡ L.graph lists.old) }
    {
        let RunCounts {
            counts,
            links,
            reach,
            degrees,
            runs: _,
            arcs,
        } = self;
        drop(counts);
        InArcs::of(alloc, lists, links, reach, degrees, 0, arcs)
    }
}
