//! The graph of an arc list, encoded in memory as its lines come.
ghost use Rattle.std.specs.Prelude.{◌≡◌, ◌+◌, ◌<◌, ◌≤◌, ◌^◌, ◌++◌, ◌∷◌, ℕ, List as ListOf, [], None, Err, length, OnOk, IfOk, IfErr, take};
ghost use Rattle.wg_num.specs.Lines.{lines_of};
ghost use Rattle.wg_params.specs.Parameters.{IsWithinLimits, params_of};
ghost use Rattle.wg_params.specs.declared.limits.TheConstants.{MOST_ARCS, MOST_PAGES};
ghost use Rattle.wg_graph.specs.Growing.{padded};
ghost use Rattle.wg_arcs.specs.Growing.{SoFar};
ghost use Rattle.wg_arcs.specs.Listing.{arcs_on};
ghost use Rattle.wg_encoder.specs.ArchiveInMemory.{HasEncoded};
ghost use Rattle.wg_greedy.specs.Laws.{IsList};
ghost use Rattle.wg_builds.specs.Encoded.{Encodes, Makes};
ghost use Rattle.wg_builds.specs.Listed.{GoesOn, IsFault, IsUnderWay, LoadsListBy, MayTake};
ghost use Rattle.wg_builds.specs.Listed.{done_at, list_at, status_of_list};

use std::alloc::{AllocError, Global};
use wg_arcs::{ArcLines, ArcsError};
use wg_encoder::{ArchiveEncoder, EncodedArchive};
use wg_graph::List;
use wg_outcomes::{Ending, Input, Status, params_of};
use wg_outside::Depot;
use wg_params::{Layout, MOST_ARCS, Params};
use wg_readings::{next_lines, open_lines};
use wg_words::Name;

// How a job ends at an error of an arc list.
#[cold]
#[inline(never)]
fn list_ending(error: ArcsError) -> Ending
    ensures { result.status ≡ status_of_list error }
{
    Ending::of(match error {
        ArcsError::Line { line, kind } => Status::BadArcs { line, kind },
        ArcsError::Memory => Status::Memory,
    })
}

// Encodes the list of the page that comes next, which is let go then, and empty lists up to a later page.
fn pass_to(
    encoder: ArchiveEncoder,
    list: &mut List,
    page: u64,
) -> Result<ArchiveEncoder, AllocError>
    requires page { encoder.page < page }
    requires within { page ≤ encoder.params.nodes }
    requires list { IsList encoder.params list.old }
    requires arcs { encoder.arcs + length list.old ≤ encoder.params.arcs }
    ensures params { IfOk result (λ e. e.params ≡ encoder.params) }
    ensures page { IfOk result (λ e. e.page ≡ page) }
    ensures list { OnOk result (list.new ≡ []) }
    ensures encoded { (done : ListOf (ListOf ℕ)) → HasEncoded encoder done
        → IfOk result (λ e. HasEncoded e (padded page (done ++ list.old ∷ []))) }
{
    let mut encoder = encoder.add(list.as_slice())?;
    list.clear();
    while encoder.page() < page {
        encoder = encoder.add(&[])?;
    }
    Ok(encoder)
}

// Begins the list of the page of an arc, if one comes next.
fn begin_page(
    encoder: ArchiveEncoder,
    list: &mut List,
    next: Option<(u64, u64)>,
) -> Result<ArchiveEncoder, AllocError>
    requires { MayTake encoder list.old next }
    ensures params { IfOk result (λ e. e.params ≡ encoder.params) }
    ensures list { OnOk result (list.new ≡ list_at next list.old) }
    ensures encoded { (done : ListOf (ListOf ℕ)) → HasEncoded encoder done
        → IfOk result (λ e. HasEncoded e (done_at next done list.old)) }
{
    match next {
        Some((u, v)) => {
            let encoder = pass_to(encoder, list, u)?;
            list.push(v)?;
            Ok(encoder)
        }
        None => Ok(encoder),
    }
}

// Encodes the lists of the pages that some lines complete.
fn take_lines(
    mut encoder: ArchiveEncoder,
    list: &mut List,
    lines: &mut ArcLines,
    text: &[u8],
) -> Result<ArchiveEncoder, ArcsError>
    requires way { (done : ListOf (ListOf ℕ)) × IsUnderWay encoder list.old lines.old done }
    requires line { lines.old.line + length text.now < 2 ^ 64 }
    ensures params { IfOk result (λ e. e.params ≡ encoder.params) }
    ensures nodes { OnOk result (lines.new.nodes ≡ lines.old.nodes) }
    ensures line { OnOk result (lines.new.line ≤ lines.old.line + length text.now) }
    ensures goes_on { (done : ListOf (ListOf ℕ)) → IsUnderWay encoder list.old lines.old done
        → IfOk result (λ e. GoesOn text.now lines.old (arcs_on done list.old) e list.new lines.new) }
    ensures fault { (done all later : ListOf (ListOf ℕ)) → IsUnderWay encoder list.old lines.old done
        → SoFar lines.old.nodes all (lines_of text.now ++ later) lines.old.line (arcs_on done list.old)
        → IfErr result (IsFault lines.old.nodes all) }
{
    let mut rest = text;
    'lines: while !rest.is_empty() {
        let (next, after) = lines.fill(encoder.page(), list, rest)?;
        rest = after;
        encoder = begin_page(encoder, list, next)?;
    }
    Ok(encoder)
}

// Encodes the lists of all pages that are left.
fn end_pages(
    encoder: ArchiveEncoder,
    list: &mut List,
    nodes: u64,
) -> Result<ArchiveEncoder, AllocError>
    requires nodes { nodes ≡ encoder.params.nodes }
    requires list { MayTake encoder list.old None }
    ensures params { IfOk result (λ e. e.params ≡ encoder.params) }
    ensures page { IfOk result (λ e. e.page ≡ nodes) }
    ensures encoded { (done : ListOf (ListOf ℕ)) → HasEncoded encoder done
        → IfOk result (λ e. HasEncoded e (take nodes (padded nodes (done ++ list.old ∷ [])))) }
{
    if encoder.page() < nodes {
        return pass_to(encoder, list, nodes);
    }
    Ok(encoder)
}

// Encodes the lists of all pages, as the lines of the arc list come, and gives the number of arcs.
fn encode_lines<D: Depot>(
    alloc: Global,
    mut encoder: ArchiveEncoder,
    nodes: u64,
    depot: &mut D,
    name: &str,
) -> Result<(ArchiveEncoder, u64), Ending>
    requires nodes { encoder.params.nodes ≡ nodes }
    requires arcs { encoder.params.arcs ≡ MOST_ARCS }
    requires none { HasEncoded encoder [] }
    ensures params { IfOk result (λ r. r.0.params ≡ encoder.params) }
    ensures few { IfOk result (λ r. r.1 ≤ MOST_ARCS) }
    ensures encodes { IfOk result (λ r. Encodes (LoadsListBy ⟦<D as Depot>⟧ name.now nodes depot.old depot.new)
        r.0 nodes r.1) }
    ensures ends { IfErr result (λ e. LoadsListBy ⟦<D as Depot>⟧ name.now nodes depot.old depot.new (Err e)) }
{
    let mut reader = open_lines(alloc, depot, name, Input::ArcList)?;
    let mut lines = ArcLines::new(nodes);
    let mut list = List::new(alloc);
    while next_lines(&mut reader, depot, name, Input::ArcList)? {
        encoder = match take_lines(encoder, &mut list, &mut lines, reader.lines()) {
            Ok(encoder) => encoder,
            Err(error) => return Err(list_ending(error)),
        };
    }
    let encoder = end_pages(encoder, &mut list, nodes)?;
    Ok((encoder, lines.arcs()))
}

/// The archive of the graph of so many pages that an arc list holds, and its parameters. It goes through the list
/// once, and holds a piece of it with the line that the piece cuts, the list of one page, and the archive. Each line is
/// validated as it comes; after a fault the archive is let go.
pub fn encode_list<D: Depot>(
    alloc: Global,
    nodes: u64,
    layout: &Layout,
    depot: &mut D,
    name: &Name,
) -> Result<(Params, EncodedArchive), Ending>
    requires nodes { nodes ≤ MOST_PAGES }
    requires layout { IsWithinLimits (params_of layout.now 0 0) }
    ensures makes { IfOk result (λ r. Makes (LoadsListBy ⟦<D as Depot>⟧ name.now nodes depot.old depot.new)
        layout.now r.0 r.1) }
    ensures ends { IfErr result (λ e. LoadsListBy ⟦<D as Depot>⟧ name.now nodes depot.old depot.new (Err e)) }
{
    // how many arcs there are is known at the end
    let encoder = ArchiveEncoder::new(alloc, params_of(layout, nodes, MOST_ARCS))?;
    let (encoder, arcs) = encode_lines(alloc, encoder, nodes, depot, name.as_str())?;
    let params = params_of(layout, nodes, arcs);
    let archive = encoder.finish(alloc, &params)?;
    Ok((params, archive))
}
