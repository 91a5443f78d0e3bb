// Exact shares, a ranking that is filled again, and the first pages of one.
ghost use Rattle.std.specs.Prelude.{◌≡◌, ◌+◌, ◌*◌, [], ◌∷◌};
ghost use Rattle.wg_graph.specs.Digraph.{Digraph};
ghost use Rattle.wg_rank.specs.Rank.{numerator, denominator, exact_step};

use crate::tables::rounds::two_rounds;
use std::test::Fail;
use wg_graph::GraphLists;
use wg_order::{FirstPages, Ranking};
use wg_rank::Bounds;

// The exact iterates of two pages with the one arc, at a damping of one half: 3/8 and 5/8 come first, 2/5 and 3/5 stay.
fn exact_shares()
    ensures first { let g : Digraph = record { nodes = 2; lists = (1 ∷ []) ∷ [] ∷ [] } in
        (numerator g 500 (λ _. 1) 1 0 ≡ 3000) × (numerator g 500 (λ _. 1) 1 1 ≡ 5000)
        × (denominator g (λ _. 1) 1 ≡ 8000) }
    ensures stay { let g : Digraph = record { nodes = 2; lists = (1 ∷ []) ∷ [] ∷ [] } in
        (exact_step g 500 (λ _. 1) (λ v. 2 + v) 5 0 ≡ 2 * 1000 * 2 * 1 * 2)
        × (exact_step g 500 (λ _. 1) (λ v. 2 + v) 5 1 ≡ 3 * 1000 * 2 * 1 * 2) }
{}

// Two pages with the one arc, whose bounds lie apart after the third round.
#[test]
fn a_round_more_makes_it_sure(rt: HostRuntime) -> Result<(), Fail> {
    let graph = wg_arcs::read(rt.alloc(), b"0 1\n", 2)?;
    let mut lists = GraphLists::new(&graph);
    let mut bounds = Bounds::new(rt.alloc(), 2, 500)?;
    let mut ranking = Ranking::new(rt.alloc(), 2)?;
    two_rounds(&mut lists, &mut bounds);
    ranking.fill(&bounds);
    assert!(rt; ranking.page(0) == 1 && !ranking.surely_above(1, 0));
    bounds.round(&mut lists);
    ranking.fill(&bounds);
    assert!(rt; ranking.page(0) == 1 && ranking.surely_above(1, 0));
    Ok(())
}

// Three pages, of which the two first link to the last. They have the same bounds.
#[test]
fn the_first_pages_have_their_positions_among_all(rt: HostRuntime) -> Result<(), Fail> {
    let graph = wg_arcs::read(rt.alloc(), b"0 2\n1 2\n", 3)?;
    let mut lists = GraphLists::new(&graph);
    let mut bounds = Bounds::new(rt.alloc(), 3, 100)?;
    two_rounds(&mut lists, &mut bounds);
    let first = FirstPages::of(bounds, 2);
    assert!(rt; first.len() == 2 && first.page(0) == 2 && first.page(1) == 0);
    assert!(rt; first.best(0) == 1 && first.worst(0) == 1 && first.low(0) > first.high(1));
    assert!(rt; first.best(1) == 2 && first.worst(1) == 3);
    Ok(())
}
