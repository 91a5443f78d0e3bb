//! Whether the files of an archive are in order.
ghost use Rattle.std.specs.Prelude.{◌≡◌, ◌⊎◌, ◌<◌, [], ◌∷◌, Err, length};
ghost use Rattle.wg_outside.specs.declared.limits.TheConstants.{MOST_BYTES};
ghost use Rattle.wg_bits.specs.Bits.{bits_of};
ghost use Rattle.wg_grammar.specs.Archive.{ReadsGraph};
ghost use Rattle.wg_grammar.specs.declared.fault.ArchiveFault.{ArchiveFault};
ghost use Rattle.wg_memory.specs.Checking.{ArePaired, IsFaultOfBoth, IsSound};
ghost use Rattle.wg_c.specs.Answers.{IsMisused, OneOf};
ghost use Rattle.wg_c.specs.Faults.{fault_in};
ghost use Rattle.wg_c.specs.Numbers.{params_in};

use crate::fault::status_of;
use crate::params::params_for;
use crate::status::{DONE, USAGE};
use crate::{WgFault, WgParams};
use std::alloc::Global;
use wg_memory::{check, check_offsets};
use wg_outside::MOST_BYTES;

/// Validates a graph file to its end, and tells its first fault. It takes 8 bytes a page, and holds the lists of a
/// window.
#[unsafe(no_mangle)]
pub extern "C" fn wg_check(
    alloc: Global,
    params: &WgParams,
    graph: &[u8],
    fault: &mut WgFault,
) -> u32
    ensures done { result ≡ 0 → IsSound (params_in params.now) (bits_of graph.now) }
    ensures fault { result ≡ 9 → (f : ArchiveFault)
        × ReadsGraph (params_in params.now) (bits_of graph.now) (Err f) × (fault.new ≡ fault_in f) }
    ensures misused { result ≡ 2 → IsMisused params.now graph.now }
    ensures only { OneOf (0 ∷ 2 ∷ 3 ∷ 9 ∷ []) result }
    ensures untold { (result ≡ 9) ⊎ (fault.new ≡ fault.old) }
{
    let read = match params_for(params, graph) {
        Some(read) => read,
        None => return USAGE,
    };
    match check(alloc, read, graph) {
        Ok(()) => DONE,
        Err(error) => status_of(error, fault),
    }
}

/// Validates a graph file and its offsets file, and tells their first fault: one of the graph, else one of a word of
/// the offsets, else the first page whose two lengths differ. It takes 16 bytes a page, and holds the lists of a
/// window.
#[unsafe(no_mangle)]
pub extern "C" fn wg_check_offsets(
    alloc: Global,
    params: &WgParams,
    graph: &[u8],
    file: &[u8],
    fault: &mut WgFault,
) -> u32
    ensures done { result ≡ 0 → ArePaired (params_in params.now) (bits_of graph.now) (bits_of file.now) }
    ensures fault { result ≡ 9 → (f : ArchiveFault)
        × IsFaultOfBoth (params_in params.now) (bits_of graph.now) (bits_of file.now) f × (fault.new ≡ fault_in f) }
    ensures misused { result ≡ 2 → IsMisused params.now graph.now ⊎ (MOST_BYTES < length file.now) }
    ensures only { OneOf (0 ∷ 2 ∷ 3 ∷ 9 ∷ []) result }
    ensures untold { (result ≡ 9) ⊎ (fault.new ≡ fault.old) }
{
    let read = match params_for(params, graph) {
        Some(read) => read,
        None => return USAGE,
    };
    if file.len() as u64 > MOST_BYTES {
        return USAGE;
    }
    match check_offsets(alloc, read, graph, file) {
        Ok(()) => DONE,
        Err(error) => status_of(error, fault),
    }
}
