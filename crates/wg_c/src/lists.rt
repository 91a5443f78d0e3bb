//! All lists of an archive.
ghost use Rattle.std.specs.Prelude.{◌≡◌, ◌≢◌, ◌⊎◌, [], ◌∷◌, Err, length};
ghost use Rattle.wg_bits.specs.Bits.{bits_of};
ghost use Rattle.wg_grammar.specs.Archive.{ReadsGraph};
ghost use Rattle.wg_grammar.specs.declared.fault.ArchiveFault.{ArchiveFault};
ghost use Rattle.wg_memory.specs.Answers.{AreLists};
ghost use Rattle.wg_c.specs.Answers.{IsMisused, OneOf};
ghost use Rattle.wg_c.specs.Faults.{fault_in};
ghost use Rattle.wg_c.specs.Numbers.{params_in};

use crate::fault::status_of;
use crate::params::params_for;
use crate::status::{DONE, USAGE};
use crate::{WgFault, WgParams};
use std::alloc::Global;
use wg_memory::read_lists;

/// Reads and validates a whole graph file into two arrays: the successors of page 0, those of page 1 and so on, one
/// after the other, and for each page where its successors end. The first fault of the file is told; what stands in the
/// arrays has no meaning then. It holds the lists of a window.
#[unsafe(no_mangle)]
pub extern "C" fn wg_read_lists(
    alloc: Global,
    params: &WgParams,
    graph: &[u8],
    ends: &mut [u64],
    all: &mut [u64],
    fault: &mut WgFault,
) -> u32
    ensures done { result ≡ 0 → AreLists (params_in params.now) (bits_of graph.now) ends.new all.new }
    ensures fault { result ≡ 9 → (f : ArchiveFault)
        × ReadsGraph (params_in params.now) (bits_of graph.now) (Err f) × (fault.new ≡ fault_in f) }
    ensures misused { result ≡ 2 → IsMisused params.now graph.now ⊎ (length ends.old ≢ params.now.nodes)
        ⊎ (length all.old ≢ params.now.arcs) }
    ensures only { OneOf (0 ∷ 2 ∷ 3 ∷ 9 ∷ []) result }
    ensures untold { (result ≡ 9) ⊎ (fault.new ≡ fault.old) }
    ensures untouched { result ≡ 2 → (ends.new ≡ ends.old) × (all.new ≡ all.old) }
{
    let read = match params_for(params, graph) {
        Some(read) => read,
        None => return USAGE,
    };
    if ends.len() as u64 != read.nodes() || all.len() as u64 != read.arcs() {
        return USAGE;
    }
    match read_lists(alloc, read, graph, ends, all) {
        Ok(()) => DONE,
        Err(error) => status_of(error, fault),
    }
}
