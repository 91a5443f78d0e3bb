//! Lower bounds of PageRank, held against a graph.
ghost use Rattle.std.specs.Prelude.{◌≡◌, ◌≢◌, ◌⊎◌, ◌*◌, ◌<◌, [], ◌∷◌, Ok, Err, length};
ghost use Rattle.wg_params.specs.declared.limits.TheConstants.{MOST_DAMPING};
ghost use Rattle.wg_bits.specs.Bits.{bits_of};
ghost use Rattle.wg_grammar.specs.Archive.{ReadsGraph};
ghost use Rattle.wg_grammar.specs.declared.fault.ArchiveFault.{ArchiveFault};
ghost use Rattle.wg_rank.specs.Weights.{AreWeights, weights_of};
ghost use Rattle.wg_rank.specs.declared.fault.JudgeError.TheVariants as judge_errors;
ghost use Rattle.wg_memory.specs.Ranking.{given_by};
ghost use Rattle.wg_memory.specs.Verifying.{IsTooMuch, IsVerified};
ghost use Rattle.wg_c.specs.Answers.{IsMisused, OneOf};
ghost use Rattle.wg_c.specs.Faults.{fault_in};
ghost use Rattle.wg_c.specs.Numbers.{params_in};
ghost use Rattle.wg_c.specs.Ranks.{AreOdd, wide_in};

use crate::params::params_for;
use crate::ranking::{are_even, status_of_rank};
use crate::status::{BAD_BOUNDS, DONE, USAGE};
use crate::{WgFault, WgParams};
use std::alloc::Global;
use wg_memory::{VerifyError, verify};
use wg_params::MOST_DAMPING;

/// A number of 128 bits, as C sees it.
#[repr(C)]
#[derive(Clone, Copy, Drop)]
pub struct WgWide {
    pub low: u64,
    pub high: u64,
}

// The two words of a number.
fn wide_of(number: u128) -> WgWide
    ensures { wide_in result ≡ number }
{
    WgWide {
        low: (number % (1 << 64)) as u64,
        high: (number / (1 << 64)) as u64,
    }
}

/// Whether one round at a damping in thousandths lowers none of these lower bounds, two words each: then what they
/// leave of 1, in units of 10^-24, is told. Else it is told which page is the first that falls; the greatest number is
/// for bounds that add up to more than 1.
#[unsafe(no_mangle)]
pub extern "C" fn wg_verify(
    alloc: Global,
    params: &WgParams,
    graph: &[u8],
    weights: &[u64],
    damping: u64,
    low: &[u64],
    left: &mut WgWide,
    page: &mut u64,
    fault: &mut WgFault,
) -> u32
    ensures done { result ≡ 0
        → IsVerified (params_in params.now) (bits_of graph.now) weights.now damping low.now (Ok (wide_in left.new)) }
    ensures fault { result ≡ 9 → (f : ArchiveFault)
        × ReadsGraph (params_in params.now) (bits_of graph.now) (Err f) × (fault.new ≡ fault_in f) }
    ensures weights { result ≡ 12
        → AreWeights params.now.nodes (weights_of params.now.nodes (given_by weights.now)) → ⊥ }
    ensures bounds { result ≡ 16 → ((page.new ≡ 18446744073709551615) × IsTooMuch low.now)
        ⊎ IsVerified (params_in params.now) (bits_of graph.now) weights.now damping low.now
        (Err (judge_errors.Falls page.new)) }
    ensures misused { result ≡ 2 → IsMisused params.now graph.now ⊎ (MOST_DAMPING < damping)
        ⊎ AreOdd params.now.nodes weights.now ⊎ (length low.now ≢ 2 * params.now.nodes) }
    ensures only { OneOf (0 ∷ 2 ∷ 3 ∷ 9 ∷ 12 ∷ 16 ∷ []) result }
    ensures left { (result ≡ 0) ⊎ (left.new ≡ left.old) }
    ensures page { (result ≡ 16) ⊎ (page.new ≡ page.old) }
    ensures untold { (result ≡ 9) ⊎ (fault.new ≡ fault.old) }
{
    let read = match params_for(params, graph) {
        Some(read) => read,
        None => return USAGE,
    };
    if damping > MOST_DAMPING || !are_even(read.nodes(), weights) {
        return USAGE;
    }
    if low.len() as u64 != 2 * read.nodes() {
        return USAGE;
    }
    match verify(alloc, read, graph, weights, damping, low) {
        Ok(rest) => {
            *left = wide_of(rest);
            DONE
        }
        Err(VerifyError::Unranked(error)) => status_of_rank(error, fault),
        Err(VerifyError::Sum) => {
            *page = u64::MAX;
            BAD_BOUNDS
        }
        Err(VerifyError::Falls(first)) => {
            *page = first;
            BAD_BOUNDS
        }
    }
}
