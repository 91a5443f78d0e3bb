//! Lower bounds of PageRank, held against a graph.
ghost use Rattle.std.specs.Prelude.{◌≡◌, ◌⊎◌, ◌*◌, ◌<◌, ◌≤◌, ℕ, true, false, All, Ok, Err, length, IfErr, IfOk};
ghost use Rattle.wg_outside.specs.declared.limits.TheConstants.{MOST_BYTES};
ghost use Rattle.wg_params.specs.declared.limits.TheConstants.{MOST_DAMPING, MOST_PAGES};
ghost use Rattle.wg_bits.specs.Bits.{bits_of};
ghost use Rattle.wg_rank.specs.declared.fault.JudgeError.TheVariants as judge_errors;
ghost use Rattle.wg_rank.specs.declared.limits.TheConstants.{UNITS};
ghost use Rattle.wg_rank.specs.Sum.{sum_below};
ghost use Rattle.wg_rank.specs.Intervals.{by_page};
ghost use Rattle.wg_rank.specs.Claims.{IsJudged, weights_for};
ghost use Rattle.wg_rank.specs.Weights.{AreWeights};
ghost use Rattle.wg_memory.specs.declared.ranking.RankError.TheVariants as rank_errors;
ghost use Rattle.wg_memory.specs.declared.verifying.VerifyError.TheVariants as errors;
ghost use Rattle.wg_memory.specs.Ranking.{AreWide};
ghost use Rattle.wg_memory.specs.Verifying.{IsTooMuch, IsUnverified, IsVerified};

use crate::ranking::{RankError, copied, lists_of};
use crate::wide::wide_of;
use std::alloc::{AllocError, Global};
use thiserror::Error;
use wg_graph::{List, Lists};
use wg_num::UNITS;
use wg_params::Params;
use wg_rank::{Certificate, JudgeError, judge};

/// Why bounds are not found to hold.
#[derive(Clone, Copy, Debug, Drop, PartialEq, Eq, Error)]
pub enum VerifyError {
    /// There is no graph, or there are no weights, by which to judge them.
    #[error("{0}")]
    Unranked(RankError),
    /// They add up to more than 1.
    #[error("the bounds add up to more than 1")]
    Sum,
    /// This page is the first whose bound a round lowers.
    #[error("page {0} falls")]
    Falls(u64),
}

impl From<RankError> for VerifyError {
    ghost from_gives = { λ r e. e ≡ errors.Unranked r };

    fn from(error: RankError) -> Self {
        VerifyError::Unranked(error)
    }
}

impl From<AllocError> for VerifyError {
    ghost from_gives = { λ _ e. e ≡ errors.Unranked rank_errors.Memory };

    fn from(_error: AllocError) -> Self {
        VerifyError::Unranked(RankError::Memory)
    }
}

// Whether no bound is above 1.
fn all_within(low: &[u128]) -> bool
    ensures yes { result ≡ true → All (λ x. x ≤ UNITS) low.now }
    ensures no { result ≡ false → UNITS < sum_below (length low.now) (by_page low.now) }
{
    for bound in low {
        if *bound > UNITS {
            return false;
        }
    }
    true
}

// What these bounds claim.
fn claimed(alloc: Global, damping: u64, low: &[u64], pages: u64) -> Result<Certificate, VerifyError>
    requires pages { pages ≤ MOST_PAGES }
    requires damping { damping ≤ MOST_DAMPING }
    requires words { length low.now ≡ 2 * pages }
    ensures damping { IfOk result (λ c. c.damping ≡ damping) }
    ensures low { IfOk result (λ c. AreWide low.now c.low) }
    ensures count { IfOk result (λ c. length c.low ≡ pages) }
    ensures why { IfErr result (λ e. (e ≡ errors.Unranked rank_errors.Memory)
        ⊎ ((e ≡ errors.Sum) × IsTooMuch low.now)) }
{
    let numbers = wide_of(alloc, low, pages as usize)?;
    if !all_within(&numbers) {
        return Err(VerifyError::Sum);
    }
    match Certificate::new(damping, numbers) {
        Some(certificate) => Ok(certificate),
        None => Err(VerifyError::Sum),
    }
}

// What a claim leaves of 1, if a round lowers none of its bounds.
fn judged<L: Lists>(
    alloc: Global,
    claim: &Certificate,
    weights: &Option<List>,
    lists: &mut L,
) -> Result<u128, VerifyError>
    requires pages { (L.graph lists.old).nodes ≡ length claim.now.low }
    requires weights { AreWeights (length claim.now.low) (weights_for claim.now weights.now) }
    ensures left { let w = by_page (weights_for claim.now weights.now) in
        IfOk result (λ left. IsJudged (L.graph lists.old) claim.now w (Ok left)) }
    ensures why { let w = by_page (weights_for claim.now weights.now) in
        IfErr result (λ e. (e ≡ errors.Unranked rank_errors.Memory) ⊎ ((page : ℕ) × (e ≡ errors.Falls page)
        × IsJudged (L.graph lists.old) claim.now w (Err (judge_errors.Falls page)))) }
{
    match judge(alloc, claim, weights.as_ref(), lists) {
        Ok(left) => Ok(left),
        Err(JudgeError::Falls(page)) => Err(VerifyError::Falls(page)),
        Err(JudgeError::Memory) => Err(VerifyError::Unranked(RankError::Memory)),
    }
}

/// Whether one round at a damping in thousandths, with teleport by the weights or to each page alike if there are none,
/// lowers none of these lower bounds, two words each: then what they leave of 1, in units of 10^-24. The graph file is
/// validated to its end. Besides the lists of [`lists_of`](crate::ranking::lists_of) it takes 32 bytes a page, and 8
/// more with weights.
pub fn verify(
    alloc: Global,
    params: Params,
    graph: &[u8],
    weights: &[u64],
    damping: u64,
    low: &[u64],
) -> Result<u128, VerifyError>
    requires short { length graph.now ≤ MOST_BYTES }
    requires many { (length weights.now ≡ 0) ⊎ (length weights.now ≡ params.nodes) }
    requires damping { damping ≤ MOST_DAMPING }
    requires words { length low.now ≡ 2 * params.nodes }
    ensures left { IfOk result (λ left. IsVerified params (bits_of graph.now) weights.now damping low.now (Ok left)) }
    ensures why { IfErr result (IsUnverified params (bits_of graph.now) weights.now damping low.now) }
{
    let mut lists = lists_of(alloc, params, graph)?;
    let given = copied(alloc, params.nodes(), weights)?;
    let claim = claimed(alloc, damping, low, params.nodes())?;
    judged(alloc, &claim, &given, &mut lists)
}
