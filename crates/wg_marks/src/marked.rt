//! A list that is marked, and what it has in common with others.
ghost use Rattle.std.specs.Prelude.{◌≡◌};
ghost use Rattle.std.specs.Option.{ForSome};
ghost use Rattle.wg_graph.specs.Ascending.{Ascends};
ghost use Rattle.wg_marks.specs.Common.{IsCommon};

use crate::extras::may_have_rows;
use crate::marks::{Marks, is_short};
use crate::spans::follows;
use std::marker::Model;

/// What two lists have in common.
#[derive(Clone, Copy, Debug)]
pub struct Common {
    /// Bit j is set if member j of the referenced list stands in the list.
    pub theirs: u64,
    /// Bit i is set if number i of the list stands in the referenced list.
    pub ours: u64,
    /// Whether four numbers of the list that are not in the referenced list may follow each other.
    pub rows: bool,
}

/// A list of 1 to 64 numbers that each have a slot of their own in a table.
///
/// It is seen as the list.
#[derive(Debug, Drop)]
pub struct Marked<'a> {
    marks: &'a Marks,
    list: &'a [u64],
    // bit i is set if number i + 1 follows number i by 1
    next: u64,
}

impl<'a> Model for Marked<'a> {
    ghost use Rattle.std.specs.Prelude.{List, ℕ};
    ghost use Rattle.wg_graph.specs.Ascending.{Ascends};
    ghost use Rattle.wg_marks.specs.Common.{IsShort};
    ghost use Rattle.wg_marks.specs.Marked.{IsMarked};
    ghost use Rattle.wg_marks.specs.Spans.{TellsNext};

    ghost Value = { List ℕ };

    ghost view = { λ m. m.list.now };

    ghost invariant = { λ m. IsShort m.list.now × Ascends 0 m.list.now × IsMarked m.marks.now.places m.list.now
        × TellsNext m.list.now m.next };
}

impl<'a> Marked<'a> {
    /// The list that was marked last, if it has 1 to 64 numbers and no two of them have one slot.
    pub fn of(marks: &'a Marks, list: &'a [u64]) -> Option<Marked<'a>>
        requires { Ascends 0 list.now }
        ensures { ForSome result (λ m. m ≡ list.now) }
    {
        if !is_short(list) || !marks.has(list) {
            return None;
        }
        let next = follows(list);
        Some(Marked { marks, list, next })
    }

    /// What the list has in common with another, if that has 1 to 64 numbers.
    #[inline(always)]
    pub fn common(&self, referenced: &[u64]) -> Option<Common>
        ensures { ForSome result (IsCommon self.now referenced.now) }
    {
        if !is_short(referenced) {
            return None;
        }
        let (theirs, ours) = self.marks.members(self.list, referenced);
        let rows = may_have_rows(self.list, ours, self.next);
        Some(Common { theirs, ours, rows })
    }
}
