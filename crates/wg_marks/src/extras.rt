//! The numbers that are not copied, one by one.
ghost use Rattle.std.specs.Prelude.{◌≡◌, ◌^◌, ◌<◌, ◌≤◌, ℕ, List, not, false, ◌++◌, filter, length, option_to_list, None, []};
ghost use Rattle.wg_graph.specs.Ascending.{Ascends};
ghost use Rattle.wg_graph.specs.Numbers.{is_in};
ghost use Rattle.wg_blocks.specs.Canonical.{mask_of};
ghost use Rattle.wg_marks.specs.Masks.{mask_bits};
ghost use Rattle.wg_marks.specs.Spans.{members_at, TellsNext, IsWithoutRows};

use crate::spans::has_spans;
use std::marker::Model;

/// The numbers of a list that are left, by the bits of their places.
///
/// It is seen as the list of these numbers.
#[derive(Debug, Drop)]
pub struct Extras<'a> {
    list: &'a [u64],
    left: u64,
}

impl<'a> Model for Extras<'a> {
    ghost use Rattle.std.specs.Prelude.{List, ℕ, ◌<◌, ◌^◌, map, get_or, length};
    ghost use Rattle.wg_marks.specs.Masks.{places};

    ghost Value = { List ℕ };

    ghost view = { λ e. map (λ p. get_or e.list.now p 0) (places 64 0 e.left) };

    ghost invariant = { λ e. e.left < 2 ^ length e.list.now };
}

// The places of the list that are not set.
#[inline(always)]
fn others(list: &[u64], ours: u64) -> u64
    requires some { 0 < length list.now }
    requires short { length list.now ≤ 64 }
    ensures within { result < 2 ^ length list.now }
    ensures left { (referenced : List ℕ) → mask_bits (length list.now) ours ≡ mask_of referenced list.now
        → members_at list.now result ≡ filter (λ y. not (is_in y referenced)) list.now }
{
    !ours & (u64::MAX >> (64 - list.len()))
}

// Whether four numbers that are not copied may follow each other. If not, there is no interval of so many.
#[inline(always)]
pub(crate) fn may_have_rows(list: &[u64], ours: u64, next: u64) -> bool
    requires some { 0 < length list.now }
    requires short { length list.now ≤ 64 }
    requires up { Ascends 0 list.now }
    requires next { TellsNext list.now next }
    ensures { (referenced : List ℕ) → mask_bits (length list.now) ours ≡ mask_of referenced list.now → result ≡ false
        → IsWithoutRows (filter (λ y. not (is_in y referenced)) list.now) }
{
    has_spans(list, others(list, ours), next)
}

impl<'a> Extras<'a> {
    /// Those that are not copied.
    #[inline(always)]
    pub fn of(list: &'a [u64], ours: u64) -> Extras<'a>
        requires some { 0 < length list.now }
        requires short { length list.now ≤ 64 }
        ensures { (referenced : List ℕ) → mask_bits (length list.now) ours ≡ mask_of referenced list.now
            → result ≡ filter (λ y. not (is_in y referenced)) list.now }
    {
        let left = others(list, ours);
        Extras { list, left }
    }

    /// The next of them.
    #[inline(always)]
    pub fn next(&mut self) -> Option<u64>
        ensures split { self.old ≡ option_to_list result ++ self.new }
        ensures end { result ≡ None → self.old ≡ [] }
    {
        if self.left == 0 {
            return None;
        }
        let place = self.left.trailing_zeros() as usize;
        self.left &= self.left - 1;
        Some(self.list[place])
    }
}
