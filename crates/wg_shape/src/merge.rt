//! Two ascending lists that are joined number by number.
ghost use Rattle.std.specs.Prelude.{◌≡◌};
ghost use Rattle.wg_graph.specs.Unions.{union_of};

use crate::Coming;
use std::marker::Model;

/// Gives the numbers of two ascending lists, ascending, and a number of both once. It is seen as those that are still
/// to come. No call takes memory.
#[derive(Debug, Drop)]
pub struct Merge<A: Coming, B: Coming> {
    a: A,
    b: B,
    // the next number of each, which is taken ahead
    first: Option<u64>,
    second: Option<u64>,
}

impl<A: Coming, B: Coming> Model for Merge<A, B> {
    ghost use Rattle.std.specs.Prelude.{List, ℕ};
    ghost use Rattle.wg_graph.specs.Ascending.{Ascends};
    ghost use Rattle.wg_graph.specs.Coming.{front};
    ghost use Rattle.wg_graph.specs.Unions.{union_of};

    ghost Value = { List ℕ };

    ghost view = { λ m. union_of (front m.first (A.coming m.a)) (front m.second (B.coming m.b)) };

    ghost invariant = { λ m. Ascends 0 (front m.first (A.coming m.a)) × Ascends 0 (front m.second (B.coming m.b)) };
}

impl<A: Coming, B: Coming> Merge<A, B> {
    /// The numbers of both. It takes the first of each.
    pub fn new(mut a: A, mut b: B) -> Merge<A, B>
        ensures { result ≡ union_of (A.coming a) (B.coming b) }
    {
        let first = a.next();
        let second = b.next();
        Merge {
            a,
            b,
            first,
            second,
        }
    }
}

impl<A: Coming, B: Coming> Coming for Merge<A, B> {
    ghost coming = { λ m. m };

    #[tactic(auto, using(crate::proofs::Unions::all_ascend))]
    fn next(&mut self) -> Option<u64> {
        match (self.first, self.second) {
            (None, None) => None,
            (Some(x), None) => {
                self.first = self.a.next();
                Some(x)
            }
            (None, Some(y)) => {
                self.second = self.b.next();
                Some(y)
            }
            (Some(x), Some(y)) => {
                if x < y {
                    self.first = self.a.next();
                    Some(x)
                } else if y < x {
                    self.second = self.b.next();
                    Some(y)
                } else {
                    self.first = self.a.next();
                    self.second = self.b.next();
                    Some(x)
                }
            }
        }
    }
}

impl<A: Coming, B: Coming> Iterator for Merge<A, B> {
    ghost use Rattle.std.specs.Iterator.{YieldsFirst, item_count};

    type Item = u64;

    ghost next_gives = { YieldsFirst (λ m. m) };

    ghost remaining = { item_count (λ m. m) };

    fn next(&mut self) -> Option<u64> {
        Coming::next(self)
    }
}
