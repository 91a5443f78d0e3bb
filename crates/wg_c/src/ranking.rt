//! Bounds of the PageRank of all pages.
ghost use Rattle.std.specs.Prelude.{◌≡◌, ◌≢◌, ◌⊎◌, ◌*◌, ◌<◌, ◌≤◌, true, false, [], ◌∷◌, Err, length};
ghost use Rattle.wg_params.specs.declared.limits.TheConstants.{MOST_DAMPING, MOST_ROUNDS};
ghost use Rattle.wg_bits.specs.Bits.{bits_of};
ghost use Rattle.wg_grammar.specs.Archive.{ReadsGraph};
ghost use Rattle.wg_grammar.specs.declared.fault.ArchiveFault.{ArchiveFault};
ghost use Rattle.wg_rank.specs.Intervals.{Intervals};
ghost use Rattle.wg_rank.specs.Weights.{AreWeights, weights_of};
ghost use Rattle.wg_memory.specs.declared.ranking.RankError.TheVariants as errors;
ghost use Rattle.wg_memory.specs.Ranking.{AreRanks, AreWide, given_by};
ghost use Rattle.wg_c.specs.Answers.{IsMisused, OneOf};
ghost use Rattle.wg_c.specs.Faults.{fault_in};
ghost use Rattle.wg_c.specs.Numbers.{params_in};
ghost use Rattle.wg_c.specs.Ranks.{AreOdd, IsBeyond};

use crate::fault::fault_in;
use crate::params::params_for;
use crate::status::{BAD_ARCHIVE, BAD_WEIGHTS, DONE, MEMORY, USAGE};
use crate::{WgFault, WgParams};
use std::alloc::Global;
use wg_memory::{RankError, put_wide, rank};
use wg_params::{MOST_DAMPING, MOST_ROUNDS};

/// The status of pages that are not ranked, and the fault of their graph.
pub fn status_of_rank(error: RankError, fault: &mut WgFault) -> u32
    ensures fault { result ≡ 9 → (f : ArchiveFault) × (error ≡ errors.Archive f) × (fault.new ≡ fault_in f) }
    ensures weights { result ≡ 12 → error ≡ errors.Weights }
    ensures only { OneOf (3 ∷ 9 ∷ 12 ∷ []) result }
    ensures untold { (result ≡ 9) ⊎ (fault.new ≡ fault.old) }
{
    match error {
        RankError::Archive(found) => {
            *fault = fault_in(found);
            BAD_ARCHIVE
        }
        RankError::Weights => BAD_WEIGHTS,
        RankError::Memory => MEMORY,
    }
}

// Whether there is no weight, or one for each page.
pub fn are_even(nodes: u64, weights: &[u64]) -> bool
    ensures yes { result ≡ true → (length weights.now ≡ 0) ⊎ (length weights.now ≡ nodes) }
    ensures no { result ≡ false → AreOdd nodes weights.now }
{
    weights.is_empty() || weights.len() as u64 == nodes
}

/// Lower and upper bounds of the PageRank of each page after so many rounds, in units of 10^-24, two words each. The
/// damping is in thousandths; teleport goes by the weights, or to each page alike if there are none.
#[unsafe(no_mangle)]
pub extern "C" fn wg_rank(
    alloc: Global,
    params: &WgParams,
    graph: &[u8],
    weights: &[u64],
    damping: u64,
    rounds: u64,
    low: &mut [u64],
    high: &mut [u64],
    fault: &mut WgFault,
) -> u32
    ensures done { result ≡ 0 → (b : Intervals)
        × AreRanks (params_in params.now) (bits_of graph.now) weights.now damping rounds b
        × AreWide low.new b.low × AreWide high.new b.high }
    ensures fault { result ≡ 9 → (f : ArchiveFault)
        × ReadsGraph (params_in params.now) (bits_of graph.now) (Err f) × (fault.new ≡ fault_in f) }
    ensures weights { result ≡ 12
        → AreWeights params.now.nodes (weights_of params.now.nodes (given_by weights.now)) → ⊥ }
    ensures misused { result ≡ 2 → IsMisused params.now graph.now
        ⊎ IsBeyond params.now.nodes weights.now damping rounds low.old high.old }
    ensures only { OneOf (0 ∷ 2 ∷ 3 ∷ 9 ∷ 12 ∷ []) result }
    ensures kept { (result ≡ 0) ⊎ ((low.new ≡ low.old) × (high.new ≡ high.old)) }
    ensures untold { (result ≡ 9) ⊎ (fault.new ≡ fault.old) }
{
    let read = match params_for(params, graph) {
        Some(read) => read,
        None => return USAGE,
    };
    if damping > MOST_DAMPING || rounds > MOST_ROUNDS || !are_even(read.nodes(), weights) {
        return USAGE;
    }
    if low.len() as u64 != 2 * read.nodes() || high.len() as u64 != 2 * read.nodes() {
        return USAGE;
    }
    match rank(alloc, read, graph, weights, damping, rounds) {
        Ok(bounds) => {
            put_wide(bounds.lower(), low);
            put_wide(bounds.upper(), high);
            DONE
        }
        Err(error) => status_of_rank(error, fault),
    }
}
