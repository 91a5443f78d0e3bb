//! The outdegrees of all pages.
ghost use Rattle.std.specs.Prelude.{◌≡◌, ◌≢◌, ◌⊎◌, [], ◌∷◌, Err, length};
ghost use Rattle.wg_bits.specs.Bits.{bits_of};
ghost use Rattle.wg_grammar.specs.Archive.{ReadsGraph};
ghost use Rattle.wg_grammar.specs.declared.fault.ArchiveFault.{ArchiveFault};
ghost use Rattle.wg_memory.specs.Checking.{AreOutdegrees};
ghost use Rattle.wg_c.specs.Answers.{IsMisused, OneOf};
ghost use Rattle.wg_c.specs.Faults.{fault_in};
ghost use Rattle.wg_c.specs.Numbers.{params_in};

use crate::fault::status_of;
use crate::params::params_for;
use crate::status::{DONE, USAGE};
use crate::{WgFault, WgParams};
use std::alloc::Global;
use wg_memory::read_outdegrees;

/// Reads and validates a whole graph file, and puts the outdegree of each page into an array. The first fault of the
/// file is told; what stands in the array has no meaning then. It holds the lists of a window.
#[unsafe(no_mangle)]
pub extern "C" fn wg_read_outdegrees(
    alloc: Global,
    params: &WgParams,
    graph: &[u8],
    outdegrees: &mut [u64],
    fault: &mut WgFault,
) -> u32
    ensures done { result ≡ 0 → AreOutdegrees (params_in params.now) (bits_of graph.now) outdegrees.new }
    ensures fault { result ≡ 9 → (f : ArchiveFault)
        × ReadsGraph (params_in params.now) (bits_of graph.now) (Err f) × (fault.new ≡ fault_in f) }
    ensures misused { result ≡ 2 → IsMisused params.now graph.now ⊎ (length outdegrees.old ≢ params.now.nodes) }
    ensures only { OneOf (0 ∷ 2 ∷ 3 ∷ 9 ∷ []) result }
    ensures untold { (result ≡ 9) ⊎ (fault.new ≡ fault.old) }
    ensures untouched { result ≡ 2 → outdegrees.new ≡ outdegrees.old }
{
    let read = match params_for(params, graph) {
        Some(read) => read,
        None => return USAGE,
    };
    if outdegrees.len() as u64 != read.nodes() {
        return USAGE;
    }
    match read_outdegrees(alloc, read, graph, outdegrees) {
        Ok(()) => DONE,
        Err(error) => status_of(error, fault),
    }
}
