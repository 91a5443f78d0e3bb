//! Whether the files of an archive are in order.
ghost use Rattle.std.specs.Prelude.{◌≡◌, ◌+◌, ◌≤◌, Bool, List, Ok, Err, length, OnOk};
ghost use Rattle.wg_outside.specs.declared.limits.TheConstants.{MOST_BYTES};
ghost use Rattle.wg_bits.specs.Bits.{bits_of};
ghost use Rattle.wg_grammar.specs.Archive.{Accepted, ReadsGraph};
ghost use Rattle.wg_grammar.specs.Errors.{OnFault};
ghost use Rattle.wg_offsets.specs.Words.{ReadsOffsets};
ghost use Rattle.wg_memory.specs.Checking.{ArePaired, IsFaultBeside, IsFaultOfBoth, IsSound};

use std::alloc::Global;
use std::convert::Infallible;
use wg_grammar::{ArchiveFault, ReadError};
use wg_offsets::{Offsets, OffsetsError};
use wg_params::Params;
use wg_stream::pass;

/// Validates a graph file to its end, or answers its first fault. It takes 8 bytes a page, and holds the lists of a
/// window.
pub fn check(
    alloc: Global,
    params: Params,
    graph: &[u8],
) -> Result<(), ReadError<ArchiveFault, Infallible>>
    requires short { length graph.now ≤ MOST_BYTES }
    ensures sound { OnOk result (IsSound params (bits_of graph.now)) }
    ensures fault { OnFault result (λ f. ReadsGraph params (bits_of graph.now) (Err f)) }
{
    pass(alloc, graph, params)?;
    Ok(())
}

// Holds an offsets file against the places of the records.
fn check_beside(
    alloc: Global,
    params: Params,
    places: &Offsets,
    file: &[u8],
) -> Result<(), ReadError<ArchiveFault, Infallible>>
    requires short { length file.now ≤ MOST_BYTES }
    requires many { length places.now ≡ params.nodes + 1 }
    ensures paired { (graph : List Bool) (a : Accepted) → ReadsGraph params graph (Ok a) → a.places ≡ places.now
        → OnOk result (ArePaired params graph (bits_of file.now)) }
    ensures fault { (a : Accepted) → a.places ≡ places.now
        → OnFault result (IsFaultBeside params a (bits_of file.now)) }
{
    // tells the limits
    params.nodes();
    match wg_offsets::read(alloc, file, params.nodes(), params.offsets()) {
        Ok(stored) => match places.first_mismatch(&stored) {
            None => Ok(()),
            Some((page, found, stored)) => Err(ReadError::Fault(ArchiveFault::Length {
                page,
                found,
                stored,
            })),
        },
        Err(OffsetsError::Word(word)) => Err(ReadError::Fault(ArchiveFault::Offsets(word))),
        Err(OffsetsError::Memory) => Err(ReadError::Memory),
    }
}

/// Validates a graph file and its offsets file, or answers their first fault: one of the graph, else one of a word of
/// the offsets, else the first page whose two lengths differ. It goes through the one and then through the other, and
/// takes 16 bytes a page.
pub fn check_offsets(
    alloc: Global,
    params: Params,
    graph: &[u8],
    file: &[u8],
) -> Result<(), ReadError<ArchiveFault, Infallible>>
    requires short { length graph.now ≤ MOST_BYTES }
    requires short_file { length file.now ≤ MOST_BYTES }
    ensures paired { OnOk result (ArePaired params (bits_of graph.now) (bits_of file.now)) }
    ensures fault { OnFault result (IsFaultOfBoth params (bits_of graph.now) (bits_of file.now)) }
{
    match pass(alloc, graph, params) {
        Ok(found) => check_beside(alloc, params, &found.offsets, file),
        Err(error) => Err(error),
    }
}
