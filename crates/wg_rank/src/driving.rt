//! Bounds of the PageRank of a graph's pages, before the first round and after the last.
ghost use Rattle.std.specs.Prelude.{◌≡◌, ◌≤◌, List, ℕ, Option, IfOk};
ghost use Rattle.wg_params.specs.declared.limits.TheConstants.{MOST_DAMPING, MOST_PAGES, MOST_ROUNDS};
ghost use Rattle.wg_rank.specs.Weights.{AreWeights, weights_of};
ghost use Rattle.wg_rank.specs.Rounds.{AreReady, bounds_after};

use crate::{Bounds, Gather};
use std::alloc::{AllocError, Global};
use wg_graph::{List as Numbers, Lists};

// Bounds of a graph before the first round.
fn first_bounds<L: Lists>(
    alloc: Global,
    lists: &L,
    weights: &Option<Numbers>,
    damping: u64,
) -> Result<Bounds, AllocError>
    requires pages { (L.graph lists.now).nodes ≤ MOST_PAGES }
    requires weights { AreWeights (L.graph lists.now).nodes (weights_of (L.graph lists.now).nodes weights.now) }
    requires damping { damping ≤ MOST_DAMPING }
    ensures ready { IfOk result (AreReady (L.graph lists.now)) }
    ensures weights { IfOk result (λ b. b.weights ≡ weights_of (L.graph lists.now).nodes weights.now) }
    ensures damping { IfOk result (λ b. b.damping ≡ damping) }
{
    match weights {
        Some(weights) => Bounds::weighted(alloc, lists.nodes(), damping, weights),
        None => Bounds::new(alloc, lists.nodes(), damping),
    }
}

/// Bounds of a graph before the first round. They take all memory of the rounds and the ranking: 64 bytes a page, and 8
/// more if weights are given, which are let go.
pub fn room_for<L: Lists>(
    alloc: Global,
    lists: &L,
    weights: Option<Numbers>,
    damping: u64,
) -> Result<Bounds, AllocError>
    requires pages { (L.graph lists.now).nodes ≤ MOST_PAGES }
    requires weights { AreWeights (L.graph lists.now).nodes (weights_of (L.graph lists.now).nodes weights) }
    requires damping { damping ≤ MOST_DAMPING }
    ensures ready { IfOk result (AreReady (L.graph lists.now)) }
    ensures weights { IfOk result (λ b. b.weights ≡ weights_of (L.graph lists.now).nodes weights) }
    ensures damping { IfOk result (λ b. b.damping ≡ damping) }
{
    first_bounds(alloc, lists, &weights, damping)
}

/// The bounds after so many rounds. They take no memory. Each round is one pass along the lists, or along whatever else
/// it is by which what flows to each page is gathered.
pub fn last_bounds<G: Gather>(mut bounds: Bounds, source: &mut G, rounds: u64) -> Bounds
    requires rounds { rounds ≤ MOST_ROUNDS }
    requires ready { AreReady (G.graph source.old) bounds }
    ensures { (given : Option (List ℕ)) → bounds.weights ≡ weights_of (G.graph source.old).nodes given
        → result ≡ bounds_after (G.graph source.old) given bounds.damping rounds }
{
    for _ in 0..rounds {
        bounds.pull(source);
    }
    bounds
}
