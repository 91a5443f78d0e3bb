//! The archive of a graph whose lists come range after range of pages, encoded in memory.
ghost use Rattle.std.specs.Prelude.{◌≡◌, ℕ, ◌+◌, ◌<◌, ◌≤◌, [], IfOk, OnOk};
ghost use Rattle.wg_params.specs.Parameters.{IsWithinLimits, params_of};
ghost use Rattle.wg_params.specs.declared.limits.TheConstants.{MOST_ARCS, MOST_PAGES};
ghost use Rattle.wg_graph.specs.Digraph.{Digraph, IsGraph, arc_count};
ghost use Rattle.wg_encoder.specs.ArchiveInMemory.{HasEncoded};
ghost use Rattle.wg_shape.specs.Classes.{whole};
ghost use Rattle.wg_transforms.specs.Encoding.{IsEncoding, IsNextList};
ghost use Rattle.wg_transpose.specs.Transposed.{transposed};
ghost use Rattle.wg_writing.specs.Writing.{IsArchiveOf};

use std::alloc::{AllocError, Global};
use wg_encoder::{ArchiveEncoder, EncodedArchive};
use wg_graph::Lists;
use wg_outcomes::params_of;
use wg_params::{Layout, MOST_ARCS, Params};
use wg_shape::Quotienter;
use wg_transpose::Transposer;

/// A graph whose lists come range after range of pages: those from page `from` up to the page before `to` are at hand.
pub(crate) trait Ranged {
    ghost graph: { Self → Digraph };

    ghost from: { Self → ℕ };

    ghost to: { Self → ℕ };

    /// How many pages there are.
    fn nodes(&self) -> u64
        ensures value { result ≡ (graph self.now).nodes }
        ensures proper { IsGraph (graph self.now) }
        ensures few_pages { (graph self.now).nodes ≤ MOST_PAGES }
        ensures few_arcs { arc_count (graph self.now) ≤ MOST_ARCS };

    /// The page behind the last one of the range.
    fn to(&self) -> u64
        ensures value { result ≡ to self.now }
        ensures within { to self.now ≤ (graph self.now).nodes };

    /// Goes to the next range, which has at least `room` arcs, or is the last.
    fn advance(&mut self, alloc: Global, room: u64) -> Result<(), AllocError>
        ensures graph { graph self.new ≡ graph self.old }
        ensures from { from self.new ≡ to self.old }
        ensures some { OnOk result (to self.old < (graph self.old).nodes → to self.old < to self.new) };

    /// Encodes the list of the page that comes next, which is one of the range; `list` has room for it.
    fn add(
        &self,
        encoder: ArchiveEncoder,
        list: &mut Vec<u64>,
    ) -> Result<ArchiveEncoder, AllocError>
        requires from { from self.now ≤ encoder.page }
        requires to { encoder.page < to self.now }
        requires so_far { IsEncoding (graph self.now) encoder }
        ensures so_far { IfOk result (IsEncoding (graph self.now)) }
        ensures page { IfOk result (λ e. e.page ≡ encoder.page + 1) }
        ensures params { IfOk result (λ e. e.params ≡ encoder.params) };
}

// Encodes the list of a graph's page that comes next.
fn add_list(encoder: ArchiveEncoder, list: &[u64]) -> Result<ArchiveEncoder, AllocError>
    requires { (g : Digraph) × IsNextList g encoder list.now }
    ensures so_far { (g : Digraph) → IsNextList g encoder list.now → IfOk result (IsEncoding g) }
    ensures page { IfOk result (λ e. e.page ≡ encoder.page + 1) }
    ensures params { IfOk result (λ e. e.params ≡ encoder.params) }
{
    let added = encoder.add(list)?;
    Ok(added)
}

impl<L: Lists + Drop> Ranged for Transposer<L> {
    ghost graph = { λ t. transposed t.graph };

    ghost from = { λ t. t.from };

    ghost to = { λ t. t.to };

    fn nodes(&self) -> u64 {
        Transposer::nodes(self)
    }

    fn to(&self) -> u64 {
        Transposer::to(self)
    }

    fn advance(&mut self, alloc: Global, room: u64) -> Result<(), AllocError> {
        Transposer::advance(self, alloc, room)
    }

    fn add(
        &self,
        encoder: ArchiveEncoder,
        _list: &mut Vec<u64>,
    ) -> Result<ArchiveEncoder, AllocError> {
        // tell what the graph is, and that the range is of its pages
        Transposer::nodes(self);
        Transposer::to(self);
        let list = self.list(encoder.page());
        add_list(encoder, list)
    }
}

impl<'a, L: Lists + Drop> Ranged for Quotienter<'a, L> {
    ghost graph = { λ t. whole t.pages };

    ghost from = { λ t. t.from };

    ghost to = { λ t. t.to };

    fn nodes(&self) -> u64 {
        Quotienter::nodes(self)
    }

    fn to(&self) -> u64 {
        Quotienter::to(self)
    }

    fn advance(&mut self, alloc: Global, room: u64) -> Result<(), AllocError> {
        Quotienter::advance(self, alloc, room)
    }

    fn add(
        &self,
        encoder: ArchiveEncoder,
        list: &mut Vec<u64>,
    ) -> Result<ArchiveEncoder, AllocError> {
        // tell that the quotient has few arcs, and that the range is of its pages
        Quotienter::nodes(self);
        Quotienter::to(self);
        self.list(encoder.page(), list)?;
        add_list(encoder, list)
    }
}

// Encodes the lists of all ranges, each of which has at least so many arcs, but for the last.
fn add_ranges<R: Ranged>(
    alloc: Global,
    mut encoder: ArchiveEncoder,
    ranges: &mut R,
    room: u64,
) -> Result<ArchiveEncoder, AllocError>
    requires none { R.to ranges.old ≡ 0 }
    requires nodes { encoder.params.nodes ≡ (R.graph ranges.old).nodes }
    requires most { encoder.params.arcs ≡ MOST_ARCS }
    requires encoded { HasEncoded encoder [] }
    ensures params { IfOk result (λ e. e.params ≡ encoder.params) }
    ensures encoded { IfOk result (λ e. HasEncoded e (R.graph ranges.old).lists) }
{
    let mut list = Vec::new(alloc);
    'all: while ranges.to() < ranges.nodes() {
        ranges.advance(alloc, room)?;
        'pages: while encoder.page() < ranges.to() {
            encoder = ranges.add(encoder, &mut list)?;
        }
    }
    Ok(encoder)
}

/// The archive of all lists, range after range of which each has at least so many arcs, but for the last; and its
/// parameters, which are given the number of arcs at the end.
pub(crate) fn archive_of_ranges<R: Ranged + Drop>(
    alloc: Global,
    layout: &Layout,
    mut ranges: R,
    room: u64,
) -> Result<(Params, EncodedArchive), AllocError>
    requires layout { IsWithinLimits (params_of layout.now 0 0) }
    requires none { R.to ranges ≡ 0 }
    ensures { IfOk result (λ made. IsArchiveOf layout.now (R.graph ranges) made) }
{
    let nodes = ranges.nodes();
    let begun = ArchiveEncoder::new(alloc, params_of(layout, nodes, MOST_ARCS))?;
    let encoder = add_ranges(alloc, begun, &mut ranges, room)?;
    let params = params_of(layout, nodes, encoder.arcs());
    let archive = encoder.finish(alloc, &params)?;
    Ok((params, archive))
}
