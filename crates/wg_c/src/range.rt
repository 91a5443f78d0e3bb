//! The successors of a range of pages.
ghost use Rattle.std.specs.Prelude.{◌≡◌, ◌≢◌, ◌⊎◌, ◌+◌, [], ◌∷◌, length};
ghost use Rattle.std.specs.List.{range_with_len};
ghost use Rattle.wg_bits.specs.Bits.{bits_of};
ghost use Rattle.wg_memory.specs.Many.{AreSpots, end_before};
ghost use Rattle.wg_c.specs.Answers.{IsMisused, OneOf};
ghost use Rattle.wg_c.specs.Many.{Ends};
ghost use Rattle.wg_c.specs.Numbers.{params_in};

use crate::many::status_of;
use crate::params::params_for;
use crate::status::{DONE, USAGE};
use crate::{WgFault, WgParams};
use std::alloc::Global;
use wg_memory::read_range;

/// The successors of the pages from the first one on, as many as `ends` has room for, as `wg_successors` tells them: one
/// list after the other, and for each page where its list ends. It stops at the first page that is not read, and tells
/// how many pages were read before it: for more room call it again from there on.
#[unsafe(no_mangle)]
pub extern "C" fn wg_read_range(
    alloc: Global,
    params: &WgParams,
    graph: &[u8],
    places: &[u64],
    first: u64,
    ends: &mut [u64],
    out: &mut [u64],
    done: &mut u64,
    fault: &mut WgFault,
) -> u32
    ensures lists { (result ≡ 2) ⊎ AreSpots (params_in params.now) (bits_of graph.now) places.now
        (range_with_len first (length ends.old)) done.new ends.new out.new }
    ensures all { result ≡ 0 → done.new ≡ length ends.old }
    ensures stops { (result ≡ 0) ⊎ ((result ≡ 2) ⊎ Ends (params_in params.now) (bits_of graph.now) places.now
        (first + done.new) (end_before ends.new done.new) (length out.new) fault.new result) }
    ensures misused { result ≡ 2 → IsMisused params.now graph.now
        ⊎ (length places.now ≢ params.now.nodes + 1) }
    ensures only { OneOf (0 ∷ 2 ∷ 3 ∷ 9 ∷ 10 ∷ 17 ∷ 18 ∷ []) result }
    ensures untold { (result ≡ 9) ⊎ (fault.new ≡ fault.old) }
    ensures untouched { result ≡ 2 → (ends.new ≡ ends.old) × (out.new ≡ out.old) × (done.new ≡ done.old) }
{
    let read = match params_for(params, graph) {
        Some(read) => read,
        None => return USAGE,
    };
    if places.len() as u64 != read.nodes() + 1 {
        return USAGE;
    }
    let pages = ends.len() as u64;
    match read_range(alloc, &read, graph, places, first, ends, out) {
        Ok(()) => {
            *done = pages;
            DONE
        }
        Err(stopped) => {
            *done = stopped.done;
            status_of(stopped.why, fault)
        }
    }
}
