//! The numbers inside intervals, one after the other.
ghost use Rattle.std.specs.Prelude.{◌≡◌, ℕ, ◌^◌, ◌≤◌, List, length, None};
ghost use Rattle.wg_bits.specs.Bits.{rest};
ghost use Rattle.wg_graph.specs.Ascending.{Ascends};
ghost use Rattle.wg_intervals.specs.Stored.{StandAt, IntervalsStandAt, numbers_inside};
ghost use Rattle.wg_graph.specs.Coming.{Gives};

use crate::Run;
use crate::interval::interval_at;
use std::marker::Model;
use wg_bits::Cursor;

/// Gives the numbers inside the intervals of a record, ascending, each once. Contracts see it as the list of those to
/// come.
///
/// It reads an interval when the one before it is used up.
#[derive(Debug, Drop)]
pub struct IntervalWalk<'a> {
    // stands behind the intervals that were read
    cursor: Cursor<'a>,
    page: u64,
    least: u64,
    // how many intervals have not been read
    unread: u64,
    // one past the last number of the interval that was read last; none before the first
    past: Option<u64>,
    // what is left of that interval
    current: Run,
}

impl<'a> Model for IntervalWalk<'a> {
    ghost use Rattle.std.specs.Prelude.{ℕ, ◌+◌, ◌^◌, ◌≤◌, List, ◌++◌};
    ghost use Rattle.wg_bits.specs.Bits.{rest};
    ghost use Rattle.wg_intervals.specs.Canonical.{numbers_of};
    ghost use Rattle.wg_intervals.specs.Stored.{IntervalsStandAt, numbers_at};

    ghost Value = { List ℕ };

    ghost view = { λ m. numbers_of m.current ++ numbers_at m.page m.least m.past m.unread (rest m.cursor) };

    ghost invariant = { λ m. (m.page ≤ 2 ^ 62) × (m.current.left + m.current.length ≤ 2 ^ 62 + 1)
        × IntervalsStandAt m.page m.least m.past m.unread (rest m.cursor) };
}

impl<'a> IntervalWalk<'a> {
    /// A walk before the first number of `count` intervals that stand at the cursor, in the record of `page`. None is
    /// shorter than `interval`, the archive's least length.
    pub fn new(cursor: Cursor<'a>, page: u64, count: u64, interval: u64) -> IntervalWalk<'a>
        requires page { page ≤ 2 ^ 62 }
        requires stand { IntervalsStandAt page interval None count (rest cursor) }
        ensures coming { (lefts lengths : List ℕ) → length lefts ≡ count
            → StandAt page interval None lefts lengths (rest cursor.entry) → result ≡ numbers_inside lefts lengths }
        ensures ascends { (lefts lengths : List ℕ) → StandAt page interval None lefts lengths (rest cursor.entry)
            → Ascends 0 (numbers_inside lefts lengths) }
    {
        IntervalWalk {
            cursor,
            page,
            least: interval,
            unread: count,
            past: None,
            current: Run::none(),
        }
    }

    /// The next number; none if nothing is left, again and again.
    #[inline(always)]
    pub fn next(&mut self) -> Option<u64>
        ensures { Gives self.old result self.new }
    {
        // an interval may be empty, if the least length is 0
        while self.current.length == 0 {
            if self.unread == 0 {
                return None;
            }
            self.current = interval_at(&mut self.cursor, self.page, self.least, self.past);
            self.past = Some(self.current.left + self.current.length);
            self.unread -= 1;
        }
        let number = self.current.left;
        self.current.left += 1;
        self.current.length -= 1;
        Some(number)
    }
}

impl<'a> Iterator for IntervalWalk<'a> {
    ghost use Rattle.std.specs.Iterator.{YieldsFirst, item_count};

    type Item = u64;

    ghost next_gives = { YieldsFirst (λ w. w) };

    ghost remaining = { item_count (λ w. w) };

    #[inline(always)]
    fn next(&mut self) -> Option<u64> {
        IntervalWalk::next(self)
    }
}
