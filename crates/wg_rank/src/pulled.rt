//! Rounds along the pages that link to each page, if these fit in memory.
ghost use Rattle.std.specs.Prelude.{◌≡◌, ◌≤◌, ℕ, List, Option, IfOk, IfSome};
ghost use Rattle.wg_params.specs.declared.limits.TheConstants.{MOST_ARCS, MOST_ROUNDS};
ghost use Rattle.wg_transpose.specs.declared.run.TheConstants.{MOST_PAGES_IN_RUNS};
ghost use Rattle.wg_graph.specs.Digraph.{arc_count};
ghost use Rattle.wg_rank.specs.Weights.{weights_of};
ghost use Rattle.wg_rank.specs.Rounds.{AreReady, bounds_after};
ghost use Rattle.wg_transpose.specs.Runs.{IsCountOf};
ghost use Rattle.wg_rank.specs.Pulled.{pulled_graph};

use crate::driving::last_bounds;
use crate::ways::{Way, way_for};
use crate::{Bounds, Pulling};
use std::alloc::{AllocError, Global};
use wg_graph::Lists;
use wg_transpose::{MOST_PAGES_IN_RUNS, PageRun, RunCounts};

/// The pages that link to each page, which rounds go along.
#[derive(Drop)]
pub enum Pulled {
    /// As runs.
    Runs(Pulling<PageRun>),
    /// Listed one by one.
    InLists(Pulling<u32>),
}

// Along runs.
fn by_runs<L: Lists>(alloc: Global, counts: RunCounts, lists: &mut L) -> Result<Pulled, AllocError>
    requires counted { IsCountOf (L.graph lists.old) counts }
    ensures graph { L.graph lists.new ≡ L.graph lists.old }
    ensures pulled { IfOk result (λ p. pulled_graph p ≡ L.graph lists.old) }
{
    let runs = counts.fill(alloc, lists)?;
    Ok(Pulled::Runs(Pulling::new(alloc, runs)?))
}

// Along in-lists.
fn by_lists<L: Lists>(alloc: Global, counts: RunCounts, lists: &mut L) -> Result<Pulled, AllocError>
    requires counted { IsCountOf (L.graph lists.old) counts }
    ensures graph { L.graph lists.new ≡ L.graph lists.old }
    ensures pulled { IfOk result (λ p. pulled_graph p ≡ L.graph lists.old) }
{
    let made = counts.list(alloc, lists)?;
    Ok(Pulled::InLists(Pulling::new(alloc, made)?))
}

// What rounds go along beside the lists, if it fits.
fn fitting<L: Lists>(alloc: Global, lists: &mut L) -> Result<Option<Pulled>, AllocError>
    requires few_pages { (L.graph lists.old).nodes ≤ MOST_PAGES_IN_RUNS }
    requires few_arcs { arc_count (L.graph lists.old) ≤ MOST_ARCS }
    ensures graph { L.graph lists.new ≡ L.graph lists.old }
    ensures pulled { IfOk result (λ o. IfSome o (λ p. pulled_graph p ≡ L.graph lists.old)) }
{
    let pages = lists.nodes();
    let counts = RunCounts::of(alloc, lists)?;
    match way_for(counts.runs(), counts.arcs(), pages) {
        Way::Runs => Ok(Some(by_runs(alloc, counts, lists)?)),
        Way::InLists => Ok(Some(by_lists(alloc, counts, lists)?)),
        Way::Lists => Ok(None),
    }
}

/// What rounds go along beside the lists, if it fits [`crate::MOST_ROUND_ROOM`] bytes a page and memory suffices for
/// it. It goes along the lists twice.
pub fn pulled_for<L: Lists>(alloc: Global, lists: &mut L) -> Option<Pulled>
    requires few_arcs { arc_count (L.graph lists.old) ≤ MOST_ARCS }
    ensures graph { L.graph lists.new ≡ L.graph lists.old }
    ensures pulled { IfSome result (λ p. pulled_graph p ≡ L.graph lists.old) }
{
    if lists.nodes() > MOST_PAGES_IN_RUNS {
        return None;
    }
    match fitting(alloc, lists) {
        Ok(pulled) => pulled,
        Err(_) => None,
    }
}

/// The bounds after so many rounds. They go along what was made beside the lists of the same graph; if nothing was,
/// each round is one pass along the lists. They take no memory.
pub fn bounds_by_rounds<L: Lists>(
    pulled: Option<Pulled>,
    bounds: Bounds,
    lists: &mut L,
    rounds: u64,
) -> Bounds
    requires pulled { IfSome pulled (λ p. pulled_graph p ≡ L.graph lists.old) }
    requires rounds { rounds ≤ MOST_ROUNDS }
    requires ready { AreReady (L.graph lists.old) bounds }
    ensures { (given : Option (List ℕ)) → bounds.weights ≡ weights_of (L.graph lists.old).nodes given
        → result ≡ bounds_after (L.graph lists.old) given bounds.damping rounds }
{
    match pulled {
        Some(Pulled::Runs(mut runs)) => last_bounds(bounds, &mut runs, rounds),
        Some(Pulled::InLists(mut made)) => last_bounds(bounds, &mut made, rounds),
        None => last_bounds(bounds, lists, rounds),
    }
}
