//! The union of two graphs, a page at a time.
ghost use Rattle.std.specs.Prelude.{◌≡◌, ℕ, ◌+◌, List as ListOf, ◌++◌, OnOk, OnErr};
ghost use Rattle.wg_graph.specs.Digraph.{IsGraph};
ghost use Rattle.wg_shape.specs.Graphs.{AreAt, both};

use crate::{Coming, ListWalk, Merge};
use std::alloc::AllocError;
use wg_graph::{List, Lists};

// Puts the numbers in place of those of the list. After an error it has some of the first.
fn fill<A: Coming>(list: &mut List, mut numbers: A) -> Result<(), AllocError>
    ensures ok { OnOk result (list.new ≡ A.coming numbers) }
    ensures some { OnErr result ((left : ListOf ℕ) × (A.coming numbers ≡ list.new ++ left)) }
{
    list.clear();
    'numbers: while let Some(number) = numbers.next() {
        list.push(number)?;
    }
    Ok(())
}

/// Puts the successors that a page has in one of two graphs, or in both, in place of the numbers of `list`. The lists
/// of this page come next in both graphs; a graph that has no page more has none. It takes time in proportion to the
/// two lists, besides what these take themselves, and no memory if `list` has room. After an error `list` has some of
/// the first of these successors; both graphs have gone on to the next page all the same.
pub fn next_union<A: Lists, B: Lists>(
    first: &mut A,
    second: &mut B,
    list: &mut List,
) -> Result<(), AllocError>
    requires first { IsGraph (A.graph first.old) }
    requires second { IsGraph (B.graph second.old) }
    ensures list { (page : ℕ)
        → AreAt page (A.graph first.old) (A.place first.old) (B.graph second.old) (B.place second.old)
        → OnOk result (list.new ≡ both (A.graph first.old) (B.graph second.old) page) }
    ensures some { (page : ℕ)
        → AreAt page (A.graph first.old) (A.place first.old) (B.graph second.old) (B.place second.old)
        → OnErr result ((left : ListOf ℕ)
        × (both (A.graph first.old) (B.graph second.old) page ≡ list.new ++ left)) }
    ensures first_graph { A.graph first.new ≡ A.graph first.old }
    ensures second_graph { B.graph second.new ≡ B.graph second.old }
    ensures go { (page : ℕ)
        → AreAt page (A.graph first.old) (A.place first.old) (B.graph second.old) (B.place second.old)
        → AreAt (page + 1) (A.graph first.old) (A.place first.new) (B.graph second.old) (B.place second.new) }
{
    let one = first.next_list().unwrap_or(&[]);
    let other = second.next_list().unwrap_or(&[]);
    fill(list, Merge::new(ListWalk::new(one), ListWalk::new(other)))
}
