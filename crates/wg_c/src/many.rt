//! The successors of several pages.
ghost use Rattle.std.specs.Prelude.{◌≡◌, ◌≢◌, ◌⊎◌, ◌+◌, ◌<◌, ℕ, Bool, List, [], ◌∷◌, length, get_or};
ghost use Rattle.wg_bits.specs.Bits.{bits_of};
ghost use Rattle.wg_params.specs.Parameters.{Parameters};
ghost use Rattle.wg_memory.specs.Many.{AreSpots, StopsAt, end_before};
ghost use Rattle.wg_c.specs.Answers.{IsMisused, OneOf};
ghost use Rattle.wg_c.specs.Many.{Ends};
ghost use Rattle.wg_c.specs.Numbers.{params_in};

use crate::fault::fault_in;
use crate::params::params_for;
use crate::status::{BAD_ARCHIVE, BAD_PLACES, DONE, MEMORY, NO_PAGE, NO_ROOM, USAGE};
use crate::{WgFault, WgParams};
use std::alloc::Global;
use wg_grammar::ReadError;
use wg_memory::{Stop, successors_of};

/// The status of a page that was not read, and its fault.
pub(crate) fn status_of(why: Stop, fault: &mut WgFault) -> u32
    ensures only { OneOf (3 ∷ 9 ∷ 10 ∷ 17 ∷ 18 ∷ []) result }
    ensures ends { (p : Parameters) (bits : List Bool) (places : List ℕ) (page used room : ℕ)
        → StopsAt p bits places page used room why → Ends p bits places page used room fault.new result }
    ensures untold { (result ≡ 9) ⊎ (fault.new ≡ fault.old) }
{
    match why {
        Stop::NoPage => NO_PAGE,
        Stop::NoRoom => NO_ROOM,
        Stop::Unread(ReadError::Fault(found)) => {
            *fault = fault_in(found);
            BAD_ARCHIVE
        }
        Stop::Unread(ReadError::Memory) => MEMORY,
        Stop::Unread(ReadError::Refused(_)) => BAD_PLACES,
    }
}

/// The successors of these pages, as `wg_successors` tells them, one list after the other, and for each page where its
/// list ends. It stops at the first page that is not read, and tells how many pages were read before it: for more room
/// call it again for the pages from there on.
#[unsafe(no_mangle)]
pub extern "C" fn wg_successors_of(
    alloc: Global,
    params: &WgParams,
    graph: &[u8],
    places: &[u64],
    pages: &[u64],
    ends: &mut [u64],
    out: &mut [u64],
    done: &mut u64,
    fault: &mut WgFault,
) -> u32
    ensures lists { (result ≡ 2) ⊎ AreSpots (params_in params.now) (bits_of graph.now) places.now pages.now done.new
        ends.new out.new }
    ensures all { result ≡ 0 → done.new ≡ length pages.now }
    ensures stops { (result ≡ 0) ⊎ ((result ≡ 2) ⊎ Ends (params_in params.now) (bits_of graph.now) places.now
        (get_or pages.now done.new 0) (end_before ends.new done.new) (length out.new) fault.new result) }
    ensures misused { result ≡ 2 → IsMisused params.now graph.now
        ⊎ (length places.now ≢ params.now.nodes + 1) ⊎ (length ends.old < length pages.now) }
    ensures only { OneOf (0 ∷ 2 ∷ 3 ∷ 9 ∷ 10 ∷ 17 ∷ 18 ∷ []) result }
    ensures untold { (result ≡ 9) ⊎ (fault.new ≡ fault.old) }
    ensures untouched { result ≡ 2 → (ends.new ≡ ends.old) × (out.new ≡ out.old) × (done.new ≡ done.old) }
{
    let read = match params_for(params, graph) {
        Some(read) => read,
        None => return USAGE,
    };
    if places.len() as u64 != read.nodes() + 1 || ends.len() < pages.len() {
        return USAGE;
    }
    match successors_of(alloc, &read, graph, places, pages, ends, out) {
        Ok(()) => {
            *done = pages.len() as u64;
            DONE
        }
        Err(stopped) => {
            *done = stopped.done;
            status_of(stopped.why, fault)
        }
    }
}
