//! The pages of a graph, written one after the other.
ghost use Rattle.std.specs.Prelude.{◌≡◌, ℕ, ◌+◌, ◌<◌, ◌≤◌, true, List, [], length, Some, OnOk, IfOk, IfErr, IsTrue};
ghost use Rattle.std.specs.FinMap as fin;
ghost use Rattle.wg_outside.specs.Outside.{Files, NonDecreasing};
ghost use Rattle.wg_outside.specs.Suffixes.{graph_name, offsets_name};
ghost use Rattle.wg_graph.specs.Digraph.{IsGraph, arc_count};
ghost use Rattle.wg_greedy.specs.Greedy.{size_of, is_candidate, chosen};
ghost use Rattle.wg_greedy.specs.Archive.{graph_bits, referring_pages};
ghost use Rattle.wg_greedy.specs.Laws.{IsList};
ghost use Rattle.wg_encoder.specs.Encoding.{lists_before, context_of, list_of};
ghost use Rattle.wg_encoder.specs.Gone.{HasSentUpTo, IsWritten, HasStopped, HasFailed, OnlyTwo};

use crate::error::EncodeError;
use crate::list_encoder::ListEncoder;
use std::alloc::{AllocError, Global};
use std::marker::Model;
use wg_graph::Graph;
use wg_outside::Depot;
use wg_params::Params;

/// Writes a graph page by page, each by the reference that makes its record the shortest.
///
/// It is seen as the graph, the page that comes next, and the bits of the two files that wait to go out. That each page
/// before was written by the reference that is chosen is an invariant. Beside the graph it holds a copy of each list
/// that a reference may name, with room for at most twice its numbers or for few, and 32 bytes beside it; 4096 bytes
/// for each file and for marks, and the names of the files; and memory for the longest record so far and for the lists
/// that it was made of. Each memory serves again for later lists.
#[derive(Debug, Drop)]
pub struct Encoder<'a> {
    pub(crate) graph: &'a Graph,
    lists: ListEncoder,
}

impl<'a> Model for Encoder<'a> {
    ghost use Rattle.std.specs.Prelude.{◌≡◌, ◌≤◌, take};
    ghost use Rattle.wg_graph.specs.Digraph.{arc_count};
    ghost use Rattle.wg_encoder.specs.Encoding.{Encoding, HasWritten};

    ghost Value = { Encoding };

    ghost view = { λ e. record {
      params = e.lists.params;
      graph = e.graph.now;
      page = e.lists.next.page;
      graph_waits = e.lists.graph_waits;
      offsets_waits = e.lists.offsets_waits;
    } };

    ghost invariant = { λ e. (e.lists.next.page ≤ e.graph.now.nodes) × (e.lists.params.nodes ≡ e.graph.now.nodes)
        × (e.lists.params.arcs ≡ arc_count e.graph.now) × HasWritten e.lists (take e.lists.next.page e.graph.now.lists) };
}

impl<'a> Encoder<'a> {
    /// Before page 0.
    pub fn new(alloc: Global, params: Params, graph: &'a Graph) -> Result<Encoder<'a>, AllocError>
        requires nodes { params.nodes ≡ graph.now.nodes }
        requires arcs { params.arcs ≡ arc_count graph.now }
        ensures fresh { IfOk result (λ e. e ≡ record {
          params = params;
          graph = graph.now;
          page = 0;
          graph_waits = [];
          offsets_waits = [];
        }) }
        ensures begun { IfOk result (λ e. (files : Files) (base : List ℕ) → fin.get files (graph_name base) ≡ Some []
            → fin.get files (offsets_name base) ≡ Some [] → HasSentUpTo files base e) }
    {
        let lists = ListEncoder::new(alloc, params)?;
        Ok(Encoder { graph, lists })
    }

    /// The page that comes next; the number of pages if all are done.
    pub fn page(&self) -> u64
        ensures value { result ≡ self.now.page }
        ensures within { result ≤ self.now.graph.nodes }
    {
        self.lists.page()
    }

    /// How many of the pages that were written have a reference above 0. It takes no memory, and counts nothing anew.
    pub fn referring(&self) -> u64
        ensures value { result ≡ referring_pages self.now.params (lists_before self.now) }
        ensures all { self.now.page ≡ self.now.graph.nodes
            → result ≡ referring_pages self.now.params self.now.graph.lists }
        ensures within { result ≤ self.now.page }
    {
        self.limits();
        self.lists.referring()
    }

    // The graph is within the limits.
    fn limits(&self)
        ensures { IsGraph self.now.graph }
    {
        let _nodes = self.graph.nodes();
    }

    // What has written the pages before.
    fn lists(&self) -> &ListEncoder
        ensures params { result.now.params ≡ self.now.params }
        ensures next { result.now.next ≡ context_of self.now }
    {
        &self.lists
    }

    // The successors of the page that comes next.
    fn list(&self) -> &[u64]
        requires { self.now.page < self.now.graph.nodes }
        ensures value { result.now ≡ list_of self.now }
        ensures proper { IsList self.now.params result.now }
        ensures more { self.now.page < self.now.params.nodes }
    {
        self.graph.list(self.lists.page())
    }

    /// Whether the page that comes next may be written by this reference: 0, or one within the window that names a page
    /// with successors, if the chain of references gets no longer than the archive allows and each value of the
    /// record has a word. It takes no memory, and time in proportion to the two lists.
    pub fn candidate(&self, r: u64) -> bool
        requires page { self.now.page < self.now.graph.nodes }
        ensures { result ≡ is_candidate self.now.params (context_of self.now) (list_of self.now) r }
    {
        self.lists().candidate(self.list(), r)
    }

    /// How many bits the canonical record of page `x`, the one that comes next, takes by a candidate. It takes no
    /// memory, and time in proportion to the two lists.
    pub fn cost(&self, x: u64, r: u64) -> u64
        requires more { self.now.page < self.now.graph.nodes }
        requires page { x ≡ self.now.page }
        requires candidate { is_candidate self.now.params (context_of self.now) (list_of self.now) r ≡ true }
        ensures { result ≡ size_of self.now.params (context_of self.now) (list_of self.now) r }
    {
        prove!(x == self.page());
        self.lists().cost(self.list(), r)
    }

    /// The reference by which the page that comes next is written: of the candidates with the shortest record the
    /// smallest. It takes no memory, and counts the bits of each candidate's record, until there are as many as the
    /// best so far has.
    pub fn chosen(&self) -> u64
        requires page { self.now.page < self.now.graph.nodes }
        ensures { result ≡ chosen self.now.params (context_of self.now) (list_of self.now) }
    {
        self.lists().chosen(self.list())
    }

    /// Writes the page that comes next, and goes on to the one after it. Its record is made in memory before anything
    /// is put. The words of the offsets file come one page later: 0 first, then the length of the record before. The
    /// names of the two files are made when a name of an archive first comes, or another one, and then held.
    pub fn next<D: Depot>(self, depot: &mut D, base: &str) -> Result<Encoder<'a>, EncodeError>
        requires more { self.page < self.graph.nodes }
        ensures on { IfOk result (λ e. e ≡ record self.entry {
          page = self.entry.page + 1;
          graph_waits = e.graph_waits;
          offsets_waits = e.offsets_waits;
        }) }
        ensures ok { IsTrue D.told → HasSentUpTo (D.files depot.old) base.now self.entry
            → IfOk result (λ e. HasSentUpTo (D.files depot.new) base.now e) }
        ensures err { IsTrue D.told → HasSentUpTo (D.files depot.old) base.now self.entry
            → IfErr result (HasStopped (D.files depot.new) base.now self.entry.params self.entry.graph.lists) }
        ensures only_two { IsTrue D.told → OnlyTwo base.now (D.files depot.old) (D.files depot.new) }
        ensures fault { IfErr result (HasFailed base.now (D.counts depot.old) (D.counts depot.new)) }
        ensures later { NonDecreasing (D.counts depot.old) (D.counts depot.new) }
    {
        self.limits();
        let graph = self.graph;
        let list = graph.list(self.lists.page());
        let lists = self.lists.next(list, depot, base)?;
        Ok(Encoder { graph, lists })
    }

    /// Puts the last word of the offsets, the length of the last record, and fills up both files to whole bytes. It
    /// answers how many bits the records have.
    pub fn finish<D: Depot>(self, depot: &mut D, base: &str) -> Result<u64, EncodeError>
        requires done { self.page ≡ self.graph.nodes }
        ensures bits { IfOk result (λ bits. bits ≡ length (graph_bits self.entry.params self.entry.graph.lists)) }
        ensures ok { IsTrue D.told → HasSentUpTo (D.files depot.old) base.now self.entry
            → OnOk result (IsWritten (D.files depot.new) base.now self.entry.params self.entry.graph.lists) }
        ensures err { IsTrue D.told → HasSentUpTo (D.files depot.old) base.now self.entry
            → IfErr result (HasStopped (D.files depot.new) base.now self.entry.params self.entry.graph.lists) }
        ensures only_two { IsTrue D.told → OnlyTwo base.now (D.files depot.old) (D.files depot.new) }
        ensures fault { IfErr result (HasFailed base.now (D.counts depot.old) (D.counts depot.new)) }
        ensures later { NonDecreasing (D.counts depot.old) (D.counts depot.new) }
    {
        self.limits();
        self.lists.finish(depot, base)
    }
}
