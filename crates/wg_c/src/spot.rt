//! The successors of one page.
ghost use Rattle.std.specs.Prelude.{◌≡◌, ◌≢◌, ◌⊎◌, ℕ, ◌+◌, ◌<◌, ◌≤◌, List as ListOf, [], ◌∷◌, length, Err};
ghost use Rattle.wg_bits.specs.Bits.{bits_of};
ghost use Rattle.wg_grammar.specs.declared.fault.ArchiveFault.{ArchiveFault};
ghost use Rattle.wg_decoder.specs.Chains.{SpotReads};
ghost use Rattle.wg_memory.specs.Answers.{Falls, HasList};
ghost use Rattle.wg_c.specs.Answers.{BeginsWith, IsMisused, OneOf};
ghost use Rattle.wg_c.specs.Faults.{fault_in};
ghost use Rattle.wg_c.specs.Numbers.{params_in};

use crate::fault::fault_in;
use crate::params::params_for;
use crate::status::{BAD_ARCHIVE, BAD_PLACES, DONE, MEMORY, NO_PAGE, NO_ROOM, USAGE};
use crate::{WgFault, WgParams};
use std::alloc::Global;
use wg_grammar::ReadError;
use wg_memory::successors;

// Hands a list out, if there is room for it.
fn hand_out(list: &[u64], out: &mut [u64], outdegree: &mut u64) -> u32
    ensures outdegree { outdegree.new ≡ length list.now }
    ensures done { result ≡ 0 → BeginsWith list.now out.old out.new }
    ensures no_room { result ≡ 17 → (length out.old < length list.now) × (out.new ≡ out.old) }
    ensures only { OneOf (0 ∷ 17 ∷ []) result }
{
    *outdegree = list.len() as u64;
    if list.len() > out.len() {
        return NO_ROOM;
    }
    out[..list.len()].copy_from_slice(list);
    DONE
}

/// The successors of a page of an archive, and how many they are. Only the records of the page's chain of references
/// are read and validated; their first fault is told. If there is too little room, it is told how much there has to be.
#[unsafe(no_mangle)]
pub extern "C" fn wg_successors(
    alloc: Global,
    params: &WgParams,
    graph: &[u8],
    places: &[u64],
    page: u64,
    out: &mut [u64],
    outdegree: &mut u64,
    fault: &mut WgFault,
) -> u32
    ensures done { result ≡ 0 → (list : ListOf ℕ)
        × HasList (params_in params.now) (bits_of graph.now) places.now page list
        × (outdegree.new ≡ length list) × BeginsWith list out.old out.new }
    ensures no_room { result ≡ 17 → (list : ListOf ℕ)
        × HasList (params_in params.now) (bits_of graph.now) places.now page list
        × (outdegree.new ≡ length list) × (length out.old < length list) }
    ensures fault { result ≡ 9 → (f : ArchiveFault)
        × SpotReads (params_in params.now) (bits_of graph.now) places.now page (Err f)
        × (fault.new ≡ fault_in f) }
    ensures no_page { result ≡ 10 → params.now.nodes ≤ page }
    ensures falls { result ≡ 18 → (y : ℕ) × Falls places.now y }
    ensures misused { result ≡ 2 → IsMisused params.now graph.now
        ⊎ (length places.now ≢ params.now.nodes + 1) }
    ensures only { OneOf (0 ∷ 2 ∷ 3 ∷ 9 ∷ 10 ∷ 17 ∷ 18 ∷ []) result }
    ensures kept { (result ≡ 0) ⊎ (out.new ≡ out.old) }
    ensures untold { (result ≡ 9) ⊎ (fault.new ≡ fault.old) }
    ensures uncounted { (result ≡ 0) ⊎ ((result ≡ 17) ⊎ (outdegree.new ≡ outdegree.old)) }
{
    let read = match params_for(params, graph) {
        Some(read) => read,
        None => return USAGE,
    };
    if places.len() as u64 != read.nodes() + 1 {
        return USAGE;
    }
    if page >= read.nodes() {
        return NO_PAGE;
    }
    match successors(alloc, &read, graph, places, page) {
        Ok(list) => hand_out(list.as_slice(), out, outdegree),
        Err(ReadError::Fault(found)) => {
            *fault = fault_in(found);
            BAD_ARCHIVE
        }
        Err(ReadError::Memory) => MEMORY,
        Err(ReadError::Refused(_)) => BAD_PLACES,
    }
}
