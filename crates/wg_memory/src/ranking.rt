//! Bounds of the PageRank of all pages.
ghost use Rattle.std.specs.Prelude.{◌≡◌, ◌≢◌, ◌⊎◌, ◌<◌, ◌≤◌, ℕ, nat_eq, true, false, All, Err, length, IfErr, IfOk, OnOk};
ghost use Rattle.wg_outside.specs.declared.limits.TheConstants.{MOST_BYTES};
ghost use Rattle.wg_params.specs.declared.limits.TheConstants.{MOST_ARCS, MOST_DAMPING, MOST_PAGES, MOST_ROUNDS};
ghost use Rattle.wg_params.specs.Parameters.{IsWithinLimits};
ghost use Rattle.wg_bits.specs.Bits.{bits_of};
ghost use Rattle.wg_graph.specs.Digraph.{arc_count};
ghost use Rattle.wg_grammar.specs.Archive.{ReadsGraph};
ghost use Rattle.wg_rank.specs.declared.limits.TheConstants.{MOST_WEIGHT};
ghost use Rattle.wg_rank.specs.Sum.{sum_below};
ghost use Rattle.wg_rank.specs.Intervals.{by_page};
ghost use Rattle.wg_rank.specs.Weights.{AreWeights, weights_of};
ghost use Rattle.wg_rank.specs.Rounds.{bounds_after};
ghost use Rattle.wg_memory.specs.declared.ranking.RankError.TheVariants as errors;
ghost use Rattle.wg_memory.specs.Ranking.{AreRanks, OfArchive, StandsFor, given_by};

use std::alloc::{AllocError, Global};
use thiserror::Error;
use wg_grammar::{ArchiveFault, ReadError};
use wg_graph::{List, Lists};
use wg_params::Params;
use wg_rank::{Bounds, MOST_WEIGHT, bounds_by_rounds, pulled_for, room_for};
use wg_stream::{Sweep, pass};

/// Why pages are not ranked.
#[derive(Clone, Copy, Debug, Drop, PartialEq, Eq, Error)]
pub enum RankError {
    /// The graph file has this first fault.
    #[error("{0}")]
    Archive(ArchiveFault),
    /// A weight is past the limit, or there are pages and each has the weight 0.
    #[error("bad weights")]
    Weights,
    /// There was no memory.
    #[error("out of memory")]
    Memory,
}

impl From<AllocError> for RankError {
    ghost from_gives = { λ _ e. e ≡ errors.Memory };

    fn from(_error: AllocError) -> Self {
        RankError::Memory
    }
}

/// Validates a graph file, and gives its lists in the order of the pages, as often as one likes. While it runs it takes
/// 8 bytes a page; the lists hold a row of the greatest outdegree for each page that a reference reaches, and one more.
pub fn lists_of<'a>(alloc: Global, params: Params, graph: &'a [u8]) -> Result<Sweep<'a>, RankError>
    requires short { length graph.now ≤ MOST_BYTES }
    ensures limits { IsWithinLimits params }
    ensures graph { IfOk result (λ s. StandsFor params (bits_of graph.now) s.graph) }
    ensures nodes { IfOk result (λ s. s.graph.nodes ≡ params.nodes) }
    ensures arcs { IfOk result (λ s. arc_count s.graph ≡ params.arcs) }
    ensures fault { IfErr result (λ e. OfArchive e (λ f. ReadsGraph params (bits_of graph.now) (Err f))) }
    ensures sound { IfErr result (λ e. e ≢ errors.Weights) }
{
    // tells the limits
    params.nodes();
    match pass(alloc, graph, params) {
        Ok(found) => Ok(Sweep::with_room(alloc, graph, params, found.greatest)?),
        Err(ReadError::Fault(fault)) => Err(RankError::Archive(fault)),
        Err(ReadError::Memory) => Err(RankError::Memory),
        Err(ReadError::Refused(never)) => match never {},
    }
}

// Whether each weight is within the limit.
fn all_small(weights: &[u64]) -> bool
    ensures yes { result ≡ true → All (λ w. w ≤ MOST_WEIGHT) weights.now }
    ensures no { result ≡ false → All (λ w. w ≤ MOST_WEIGHT) weights.now → ⊥ }
{
    for weight in weights {
        if *weight > MOST_WEIGHT {
            return false;
        }
    }
    true
}

// Whether no weight is above 0.
fn all_zero(weights: &[u64]) -> bool
    ensures { result ≡ nat_eq (sum_below (length weights.now) (by_page weights.now)) 0 }
{
    for weight in weights {
        if *weight > 0 {
            return false;
        }
    }
    true
}

/// Copies the weights of so many pages, if any are given.
pub fn copied(alloc: Global, nodes: u64, weights: &[u64]) -> Result<Option<List>, RankError>
    requires many { (length weights.now ≡ 0) ⊎ (length weights.now ≡ nodes) }
    ensures given { IfOk result (λ o. o ≡ given_by weights.now) }
    ensures proper { OnOk result (AreWeights nodes (weights_of nodes (given_by weights.now))) }
    ensures refused { IfErr result (λ e. (e ≡ errors.Memory)
        ⊎ ((e ≡ errors.Weights) × (AreWeights nodes (weights_of nodes (given_by weights.now)) → ⊥))) }
{
    if weights.is_empty() {
        return Ok(None);
    }
    if !all_small(weights) {
        return Err(RankError::Weights);
    }
    if all_zero(weights) {
        return Err(RankError::Weights);
    }
    let mut list = List::new(alloc);
    list.extend(weights)?;
    Ok(Some(list))
}

// Bounds of a graph after so many rounds.
fn by_rounds<L: Lists>(
    alloc: Global,
    lists: &mut L,
    weights: Option<List>,
    damping: u64,
    rounds: u64,
) -> Result<Bounds, AllocError>
    requires pages { (L.graph lists.old).nodes ≤ MOST_PAGES }
    requires arcs { arc_count (L.graph lists.old) ≤ MOST_ARCS }
    requires weights { AreWeights (L.graph lists.old).nodes (weights_of (L.graph lists.old).nodes weights) }
    requires damping { damping ≤ MOST_DAMPING }
    requires rounds { rounds ≤ MOST_ROUNDS }
    ensures { IfOk result (λ b. b ≡ bounds_after (L.graph lists.old) weights damping rounds) }
{
    let first = room_for(alloc, lists, weights, damping)?;
    let pulled = pulled_for(alloc, lists);
    Ok(bounds_by_rounds(pulled, first, lists, rounds))
}

/// Lower and upper bounds of the PageRank of each page after so many rounds at a damping in thousandths, with teleport
/// by the weights, or to each page alike if there are none. The graph file is validated to its end before the first
/// round. Besides the lists of [`lists_of`](crate::ranking::lists_of) it takes 64 bytes a page, 8 more with weights, and
/// up to 192 for the runs of the pages that link to each page, if memory suffices for these; else each round decodes
/// all lists again.
pub fn rank(
    alloc: Global,
    params: Params,
    graph: &[u8],
    weights: &[u64],
    damping: u64,
    rounds: u64,
) -> Result<Bounds, RankError>
    requires short { length graph.now ≤ MOST_BYTES }
    requires many { (length weights.now ≡ 0) ⊎ (length weights.now ≡ params.nodes) }
    requires damping { damping ≤ MOST_DAMPING }
    requires rounds { rounds ≤ MOST_ROUNDS }
    ensures bounds { IfOk result (AreRanks params (bits_of graph.now) weights.now damping rounds) }
    ensures pages { IfOk result (λ b. (length b.low ≡ params.nodes) × (length b.high ≡ params.nodes)) }
    ensures fault { IfErr result (λ e. OfArchive e (λ f. ReadsGraph params (bits_of graph.now) (Err f))) }
    ensures weights { IfErr result (λ e. e ≡ errors.Weights
        → AreWeights params.nodes (weights_of params.nodes (given_by weights.now)) → ⊥) }
{
    let mut lists = lists_of(alloc, params, graph)?;
    let given = copied(alloc, params.nodes(), weights)?;
    Ok(by_rounds(alloc, &mut lists, given, damping, rounds)?)
}
