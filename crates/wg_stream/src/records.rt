//! All records of an archive, and what is kept of them.
ghost use Rattle.std.specs.Prelude.{◌≡◌, ℕ, Bool, List, [], Ok, Err, length, IfOk, OnOk};
ghost use Rattle.wg_params.specs.Parameters.{IsWithinLimits};
ghost use Rattle.wg_grammar.specs.Archive.{ReadsGraph};
ghost use Rattle.wg_grammar.specs.Errors.{OnFault, OnRefusal};
ghost use Rattle.wg_stream.specs.Prefix.{AreBehind};

use crate::Pages;
use std::alloc::Global;
use wg_grammar::{ArchiveFault, ReadError, Source};
use wg_graph::{Graph, GraphBuilder};
use wg_params::Params;

// Reads the records of all pages into a graph that has no list yet, and checks what follows them.
fn read_lists<S: Source>(
    pages: &mut Pages,
    graph: &mut GraphBuilder,
    source: &mut S,
) -> Result<(), ReadError<ArchiveFault, S::Refusal>>
    requires limits { IsWithinLimits pages.old.params }
    requires page { pages.old.page ≡ 0 }
    requires arcs { pages.old.arcs ≡ 0 }
    requires nodes { graph.old.nodes ≡ pages.old.params.nodes }
    requires none { graph.old.lists ≡ [] }
    ensures nodes { graph.new.nodes ≡ graph.old.nodes }
    ensures later { S.later source.old source.new }
    ensures refused { OnRefusal result (S.caused source.old source.new) }
    ensures all { OnOk result (length graph.new.lists ≡ graph.old.nodes) }
    ensures reads { (bits : List Bool) → S.reads_from source.old bits
        → AreBehind bits pages.old (S.offset source.old) []
        → OnOk result ((places : List ℕ) × ReadsGraph pages.old.params bits
        (Ok (record { graph = graph.new.lists; places = places }))) }
    ensures fault { (bits : List Bool) → S.reads_from source.old bits
        → AreBehind bits pages.old (S.offset source.old) []
        → OnFault result (λ f. ReadsGraph pages.old.params bits (Err f)) }
{
    let nodes = graph.nodes();
    for _page in 0..nodes {
        pages.next(source)?;
        graph.push_list(pages.list())?;
    }
    pages.finish(source)
}

// Reads the records of all pages, from the first one on, into a graph that has no list yet, and checks what follows
// them.
fn read_into<S: Source>(
    alloc: Global,
    params: Params,
    graph: &mut GraphBuilder,
    source: &mut S,
) -> Result<(), ReadError<ArchiveFault, S::Refusal>>
    requires start { S.offset source.old ≡ 0 }
    requires nodes { graph.old.nodes ≡ params.nodes }
    requires none { graph.old.lists ≡ [] }
    ensures nodes { graph.new.nodes ≡ graph.old.nodes }
    ensures later { S.later source.old source.new }
    ensures refused { OnRefusal result (S.caused source.old source.new) }
    ensures all { OnOk result (length graph.new.lists ≡ graph.old.nodes) }
    ensures reads { (bits : List Bool) → S.reads_from source.old bits
        → OnOk result ((places : List ℕ) × ReadsGraph params bits
        (Ok (record { graph = graph.new.lists; places = places }))) }
    ensures fault { (bits : List Bool) → S.reads_from source.old bits
        → OnFault result (λ f. ReadsGraph params bits (Err f)) }
{
    let mut pages = Pages::new(alloc, params);
    read_lists(&mut pages, graph, source)
}

/// Validates the records of all pages, the tail and the number of arcs, and answers the graph. The source stands at its
/// first bit. Besides what [`Pages`] holds it takes 8 bytes an arc and 8 a page, as they come.
pub fn read_graph<S: Source>(
    alloc: Global,
    params: Params,
    source: &mut S,
) -> Result<Graph, ReadError<ArchiveFault, S::Refusal>>
    requires { S.offset source.old ≡ 0 }
    ensures limits { IsWithinLimits params }
    ensures nodes { IfOk result (λ g. g.nodes ≡ params.nodes) }
    ensures later { S.later source.old source.new }
    ensures refused { OnRefusal result (S.caused source.old source.new) }
    ensures reads { (bits : List Bool) → S.reads_from source.old bits
        → IfOk result (λ g. (places : List ℕ) × ReadsGraph params bits
        (Ok (record { graph = g.lists; places = places }))) }
    ensures fault { (bits : List Bool) → S.reads_from source.old bits
        → OnFault result (λ f. ReadsGraph params bits (Err f)) }
{
    let mut graph = GraphBuilder::new(alloc, params.nodes())?;
    read_into(alloc, params, &mut graph, source)?;
    Ok(graph.finish()?)
}
