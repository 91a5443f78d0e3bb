ghost use Rattle.std.specs.Prelude.{◌≡◌, ℕ, List as ListOf, ◌<◌, ◌≤◌, ◌+◌, ◌^◌, [], ◌∷◌, ◌++◌, length, take, IfOk};
ghost use Rattle.std.specs.List.{range_with_len};
ghost use Rattle.wg_graph.specs.Ascending.{Ascends, Below};

use crate::pieces::{PIECE, copy, copy_above, copy_below, write_run};
use std::alloc::{AllocError, Global};
use std::marker::Model;

/// Numbers in order, in memory that is taken once: 8 bytes for each that there is room for, and 64 more, so that whole
/// pieces are written wherever there is room for one number.
///
/// Numbers may also wait in this memory, so that others are joined to them: what comes next is put behind the list,
/// be it one of those that wait or another. A row is seen as the list of its numbers, those that wait, and for how many
/// in all there is room. Only [`Row::new`] takes memory.
#[derive(Debug, Drop)]
pub struct Row {
    // the list is the first `len`; what waits is all from `start` on, and a piece at least is between them
    numbers: Vec<u64>,
    len: usize,
    start: usize,
}

impl Model for Row {
    ghost use Rattle.std.specs.Prelude.{◌≡◌, ◌+◌, ◌-◌, ◌≤◌, length, take, drop};
    ghost use Rattle.wg_graph.specs.Filled.{Filled};
    ghost use Rattle.wg_graph.specs.declared.pieces.TheConstants.{PIECE};

    ghost Value = { Filled };

    ghost view = { λ r. record {
      list = take r.len r.numbers.items;
      waiting = drop r.start r.numbers.items;
      room = length r.numbers.items - PIECE;
    } };

    ghost invariant = { λ r. (r.len + PIECE ≤ r.start) × (r.start ≤ length r.numbers.items) };
}

impl Row {
    /// No numbers, and memory for `room` of them.
    pub fn new(alloc: Global, room: u64) -> Result<Row, AllocError>
        ensures list { IfOk result (λ row. row.list ≡ []) }
        ensures waiting { IfOk result (λ row. row.waiting ≡ []) }
        ensures room { IfOk result (λ row. row.room ≡ room) }
    {
        let all = (room as usize).checked_add(PIECE).ok_or(AllocError)?;
        Ok(Row {
            numbers: vec![in alloc; 0; all]?,
            len: 0,
            start: all,
        })
    }

    /// Drops all numbers, and keeps the memory for others.
    #[inline(always)]
    pub fn clear(&mut self)
        ensures list { self.new.list ≡ [] }
        ensures waiting { self.new.waiting ≡ [] }
        ensures room { self.new.room ≡ self.old.room }
    {
        self.len = 0;
        self.start = self.numbers.len();
    }

    /// Adds a number at the end of the list, in constant time.
    #[inline(always)]
    pub fn push(&mut self, number: u64)
        requires { length self.old.list + length self.old.waiting < self.old.room }
        ensures list { self.new.list ≡ self.old.list ++ number ∷ [] }
        ensures waiting { self.new.waiting ≡ self.old.waiting }
        ensures room { self.new.room ≡ self.old.room }
    {
        self.numbers[self.len] = number;
        self.len += 1;
    }

    /// Adds the first of these numbers, so many, at the end of the list; up to eight without a call, if there are
    /// eight.
    #[inline(always)]
    pub fn extend(&mut self, numbers: &[u64], count: usize)
        requires within { count ≤ length numbers.now }
        requires room { length self.old.list + length self.old.waiting + count ≤ self.old.room }
        ensures list { self.new.list ≡ self.old.list ++ take count numbers.now }
        ensures waiting { self.new.waiting ≡ self.old.waiting }
        ensures room { self.new.room ≡ self.old.room }
    {
        copy(&mut self.numbers, self.len, numbers, count);
        self.len += count;
    }

    /// Adds so many numbers that follow one another at the end of the list, eight at a time.
    #[inline(always)]
    pub fn extend_run(&mut self, first: u64, count: u64)
        requires room { length self.old.list + length self.old.waiting + count ≤ self.old.room }
        requires short { first + count ≤ 2 ^ 63 }
        ensures list { self.new.list ≡ self.old.list ++ range_with_len first count }
        ensures waiting { self.new.waiting ≡ self.old.waiting }
        ensures room { self.new.room ≡ self.old.room }
    {
        write_run(&mut self.numbers, self.len, first, count as usize);
        self.len += count as usize;
    }

    /// Lets the last numbers of the list wait, before those that wait already: those that are not below the bound.
    #[inline(always)]
    pub fn hold(&mut self, bound: u64)
        requires { Ascends 0 self.old.list }
        ensures held { (held : ListOf ℕ) × Ascends bound held × (self.old.list ≡ self.new.list ++ held)
            × (self.new.waiting ≡ held ++ self.old.waiting) }
        ensures left { Below bound self.new.list }
        ensures room { self.new.room ≡ self.old.room }
    {
        let count = copy_above(&mut self.numbers, self.len, self.start, bound);
        self.len -= count;
        self.start -= count;
    }

    /// Puts the first of the numbers that wait at the end of the list, up to one that is not below the bound.
    #[inline(always)]
    pub fn take_below(&mut self, bound: u64)
        ensures taken { (taken : ListOf ℕ) × Below bound taken × (self.old.waiting ≡ taken ++ self.new.waiting)
            × (self.new.list ≡ self.old.list ++ taken) }
        ensures left { (x : ℕ) (others : ListOf ℕ) → self.new.waiting ≡ x ∷ others → bound ≤ x }
        ensures room { self.new.room ≡ self.old.room }
    {
        let count = copy_below(&mut self.numbers, self.len, self.start, bound);
        self.len += count;
        self.start += count;
    }

    /// Puts all numbers that wait at the end of the list: each is moved once.
    #[inline(always)]
    pub fn take_all(&mut self)
        ensures list { self.new.list ≡ self.old.list ++ self.old.waiting }
        ensures waiting { self.new.waiting ≡ [] }
        ensures room { self.new.room ≡ self.old.room }
    {
        let all = self.numbers.len();
        self.numbers.copy_within(self.start..all, self.len);
        self.len += all - self.start;
        self.start = all;
    }

    /// The list.
    #[inline(always)]
    pub fn as_slice(&self) -> &[u64]
        ensures value { result.now ≡ self.now.list }
        ensures within { length result.now ≤ self.now.room }
    {
        &self.numbers[..self.len]
    }
}
