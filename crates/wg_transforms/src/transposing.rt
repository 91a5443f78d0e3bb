//! The archive of a transposed graph, encoded in memory, range after range of pages.
ghost use Rattle.std.specs.Prelude.{◌≡◌, ◌≤◌, Err, IfErr, IfOk, length};
ghost use Rattle.wg_outside.specs.declared.limits.TheConstants.{MOST_BYTES};
ghost use Rattle.wg_bits.specs.Bits.{bits_of};
ghost use Rattle.wg_params.specs.Parameters.{IsWithinLimits, params_of};
ghost use Rattle.wg_grammar.specs.Archive.{Accepted};
ghost use Rattle.wg_outcomes.specs.Answers.{Steps};
ghost use Rattle.wg_outcomes.specs.Judged.{with_graph};
ghost use Rattle.wg_outcomes.specs.Promised.{IsBadFile};
ghost use Rattle.wg_outcomes.specs.Readings.{Readings};
ghost use Rattle.wg_transforms.specs.Counting.{CountsArcs, IsGraphEnd, IsReversed};
ghost use Rattle.wg_transpose.specs.Transposed.{transposed};
ghost use Rattle.wg_writing.specs.Writing.{IsArchiveOf};

use crate::counting::{Counted, count_records};
use crate::ranging::archive_of_ranges;
use std::alloc::Global;
use wg_encoder::EncodedArchive;
use wg_graph::Lists;
use wg_outcomes::{Ending, Input, Status};
use wg_params::{Layout, Params};
use wg_readings::{graph_ending, lists_of_records};
use wg_stream::Sweep;
use wg_transpose::{Transposer, range_room};

// Validates the records of a graph file, and counts the arcs that lead to each page, in one pass.
fn counted_of_graph(alloc: Global, params: &Params, bytes: &[u8]) -> Result<Counted, Ending>
    requires { length bytes.now ≤ MOST_BYTES }
    ensures limits { IsWithinLimits params.now }
    ensures finds { IfOk result (λ found. CountsArcs params.now (bits_of bytes.now) found.greatest found.counts.items) }
    ensures refused { (r : Readings) → IfErr result (λ e. Steps {B = Accepted}
        (with_graph r params.now bytes.now) (Err e)) }
    ensures only { IfErr result (λ e. IsBadFile Input.Graph params.now.arcs e) }
{
    // tells the limits
    params.nodes();
    match count_records(alloc, bytes, *params) {
        Ok(found) => Ok(found),
        Err(error) => Err(graph_ending(error, params)),
    }
}

// The lists of the transposed graph of a graph file whose arcs are counted while its records are validated.
fn counted_ranges<'a>(
    alloc: Global,
    params: &Params,
    bytes: &'a [u8],
) -> Result<Transposer<Sweep<'a>>, Ending>
    requires { length bytes.now ≤ MOST_BYTES }
    ensures goes { IfOk result (IsReversed params.now bytes.now) }
    ensures ends { IfErr result (IsGraphEnd params.now bytes.now) }
{
    let found = counted_of_graph(alloc, params, bytes)?;
    let lists = Sweep::with_room(alloc, bytes, *params, found.greatest)?;
    Ok(Transposer::with_counts(alloc, lists, found.counts))
}

// The lists of the transposed graph of a graph file whose records are validated before its arcs are counted.
fn judged_ranges<'a>(
    alloc: Global,
    params: &Params,
    bytes: &'a [u8],
) -> Result<Transposer<Sweep<'a>>, Ending>
    requires { length bytes.now ≤ MOST_BYTES }
    ensures goes { IfOk result (IsReversed params.now bytes.now) }
    ensures ends { IfErr result (IsGraphEnd params.now bytes.now) }
{
    // tells the limits
    params.nodes();
    let lists = lists_of_records(alloc, params, bytes)?;
    Ok(Transposer::new(alloc, lists)?)
}

/// The lists of the transposed graph of a graph file, before the first range of pages. The pass that validates the
/// records counts the arcs, too, for which it takes 8 bytes a page. But a record has one bit at least: if the file has
/// fewer bits than pages, nothing is taken for these, and its first fault is found.
pub fn ranges_of_records<'a>(
    alloc: Global,
    params: &Params,
    bytes: &'a [u8],
) -> Result<Transposer<Sweep<'a>>, Ending>
    requires { length bytes.now ≤ MOST_BYTES }
    ensures goes { IfOk result (IsReversed params.now bytes.now) }
    ensures ends { IfErr result (IsGraphEnd params.now bytes.now) }
{
    if params.nodes() <= 8 * bytes.len() as u64 {
        counted_ranges(alloc, params, bytes)
    } else {
        judged_ranges(alloc, params, bytes)
    }
}

/// The archive of a transposed graph of so many arcs, whose lists come range after range, and its parameters. It goes
/// along the lists of the graph once for each range of pages, at most 15 times. Beside the archive it holds 8 bytes a
/// page, and 8 an arc of one range: a fourteenth of the arcs or 2^24 of them, if that is more, and those of one page.
pub fn encode_transposed<L: Lists + Drop>(
    alloc: Global,
    layout: &Layout,
    ranges: Transposer<L>,
    arcs: u64,
) -> Result<(Params, EncodedArchive), Ending>
    requires layout { IsWithinLimits (params_of layout.now 0 0) }
    requires none { ranges.to ≡ 0 }
    ensures made { IfOk result (λ made. IsArchiveOf layout.now (transposed ranges.graph) made) }
    ensures only { IfErr result (λ e. e.status ≡ Status.Memory) }
{
    Ok(archive_of_ranges(alloc, layout, ranges, range_room(arcs))?)
}
