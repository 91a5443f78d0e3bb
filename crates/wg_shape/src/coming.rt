//! Ascending numbers that come one by one.
ghost use Rattle.std.specs.Prelude.{◌≡◌, ℕ, List};
ghost use Rattle.wg_graph.specs.Ascending.{Ascends};
ghost use Rattle.wg_graph.specs.Coming.{Gives};

use std::marker::Model;

/// An ascending list whose numbers are given one by one, such as the successors of a page.
pub trait Coming: Drop {
    /// The numbers that are still to come.
    ghost coming: { Self → List ℕ };

    /// The next number; none exactly if none is to come, again and again.
    fn next(&mut self) -> Option<u64>
        ensures gives { Gives (coming self.old) result (coming self.new) }
        ensures ascends { Ascends 0 (coming self.old) };
}

/// Gives the numbers of a list in memory. It is seen as those that are still to come. No call takes memory.
#[derive(Debug, Drop)]
pub struct ListWalk<'a> {
    left: &'a [u64],
}

impl<'a> Model for ListWalk<'a> {
    ghost use Rattle.std.specs.Prelude.{List, ℕ};
    ghost use Rattle.wg_graph.specs.Ascending.{Ascends};

    ghost Value = { List ℕ };

    ghost view = { λ w. w.left.now };

    ghost invariant = { λ w. Ascends 0 w.left.now };
}

impl<'a> ListWalk<'a> {
    /// Before the first number.
    pub fn new(list: &'a [u64]) -> ListWalk<'a>
        requires { Ascends 0 list.now }
        ensures { result ≡ list.now }
    {
        ListWalk { left: list }
    }
}

impl<'a> Coming for ListWalk<'a> {
    ghost coming = { λ w. w };

    #[inline(always)]
    fn next(&mut self) -> Option<u64> {
        match self.left.split_first() {
            Some((first, rest)) => {
                self.left = rest;
                Some(*first)
            }
            None => None,
        }
    }
}

impl<'a> Iterator for ListWalk<'a> {
    ghost use Rattle.std.specs.Iterator.{YieldsFirst, item_count};

    type Item = u64;

    ghost next_gives = { YieldsFirst (λ w. w) };

    ghost remaining = { item_count (λ w. w) };

    #[inline(always)]
    fn next(&mut self) -> Option<u64> {
        Coming::next(self)
    }
}
