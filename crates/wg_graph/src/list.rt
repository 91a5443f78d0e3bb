ghost use Rattle.std.specs.Prelude.{◌≡◌, ℕ, suc, ◌+◌, ◌^◌, ◌≤◌, List as ListOf, [], ◌∷◌, ◌++◌, length, take, IfOk, OnOk, OnErr};
ghost use Rattle.std.specs.List.{range_with_len};
ghost use Rattle.wg_graph.specs.Ascending.{Ascends, Below};
ghost use Rattle.wg_graph.specs.Numbers.{is_in_either, numbers_where};
ghost use Rattle.wg_graph.specs.Joined.{Joined};

use crate::merging::{write_joined, write_union};
use crate::pieces::{PIECE, copy_piece, write_run};
use std::alloc::{AllocError, Global};
use std::marker::Model;

/// Numbers in order: 8 bytes each.
///
/// What stands behind them in their memory has no meaning, and is there to be written over. So one test of the room
/// serves for many numbers.
#[derive(Clone, Debug, Drop)]
pub struct List {
    // the numbers are the first `len`
    numbers: Vec<u64>,
    len: usize,
}

impl Model for List {
    ghost use Rattle.std.specs.Prelude.{List as Numbers, ℕ, ◌≤◌, length, take};

    ghost Value = { Numbers ℕ };

    ghost view = { λ a. take a.len a.numbers.items };

    ghost invariant = { λ a. a.len ≤ length a.numbers.items };
}

// Makes room for so many numbers behind the first `len`: all that its memory has, with more memory if there is too
// little.
#[cold]
#[inline(never)]
fn make_room(numbers: &mut Vec<u64>, len: usize, room: usize) -> Result<(), AllocError>
    requires { len ≤ length numbers.old.items }
    ensures room { OnOk result (len + room ≤ length numbers.new.items) }
    ensures kept { take len numbers.new.items ≡ take len numbers.old.items }
    ensures within { len ≤ length numbers.new.items }
{
    let least = len.checked_add(room).ok_or(AllocError)?;
    numbers.reserve(least.saturating_sub(numbers.len()))?;
    numbers.resize(numbers.capacity(), 0)
}

// Has room for so many numbers behind the first `len`.
#[inline(always)]
fn have_room(numbers: &mut Vec<u64>, len: usize, room: usize) -> Result<(), AllocError>
    requires { len ≤ length numbers.old.items }
    ensures room { OnOk result (len + room ≤ length numbers.new.items) }
    ensures kept { take len numbers.new.items ≡ take len numbers.old.items }
    ensures within { len ≤ length numbers.new.items }
{
    if numbers.len() - len < room {
        make_room(numbers, len, room)?;
    }
    Ok(())
}

// Puts numbers behind the first `len`, in place of all that stands there.
#[inline(never)]
fn put_anew(numbers: &mut Vec<u64>, len: usize, more: &[u64]) -> Result<(), AllocError>
    requires { len ≤ length numbers.old.items }
    ensures ok { OnOk result (numbers.new.items ≡ take len numbers.old.items ++ more.now) }
    ensures err { OnErr result (numbers.new.items ≡ take len numbers.old.items) }
{
    numbers.truncate(len);
    numbers.extend_from_slice(more)
}

// Puts numbers behind the first `len`, over what stands there if that is enough.
#[inline(always)]
fn put(numbers: &mut Vec<u64>, len: usize, more: &[u64]) -> Result<(), AllocError>
    requires { len ≤ length numbers.old.items }
    ensures ok { OnOk result (take (len + length more.now) numbers.new.items ≡ take len numbers.old.items ++ more.now) }
    ensures room { OnOk result (len + length more.now ≤ length numbers.new.items) }
    ensures err { OnErr result (take len numbers.new.items ≡ take len numbers.old.items) }
    ensures within { len ≤ length numbers.new.items }
{
    if numbers.len() - len < more.len() {
        return put_anew(numbers, len, more);
    }
    numbers[len..len + more.len()].copy_from_slice(more);
    Ok(())
}

// Puts the first of these numbers, so many, behind the first `len`: up to a piece without a call, if there is a piece
// and room for it.
#[inline(always)]
fn put_first(
    numbers: &mut Vec<u64>,
    len: usize,
    more: &[u64],
    count: usize,
) -> Result<(), AllocError>
    requires len { len ≤ length numbers.old.items }
    requires count { count ≤ length more.now }
    ensures ok { OnOk result (take (len + count) numbers.new.items ≡ take len numbers.old.items ++ take count more.now) }
    ensures room { OnOk result (len + count ≤ length numbers.new.items) }
    ensures err { OnErr result (take len numbers.new.items ≡ take len numbers.old.items) }
    ensures within { len ≤ length numbers.new.items }
{
    if count <= PIECE && PIECE <= more.len() && PIECE <= numbers.len() - len {
        copy_piece(numbers, len, more);
        return Ok(());
    }
    put(numbers, len, &more[..count])
}

impl PartialEq for List {
    ghost use Rattle.std.specs.Prelude.{bytes_eq};
    ghost use Rattle.std.specs.Cmp.{partial_equiv_from_equiv};
    ghost use Rattle.std.specs.Cmp.Lexicographic.{nat_list_eq_equiv};

    ghost eq = { bytes_eq };

    ghost laws = { partial_equiv_from_equiv nat_list_eq_equiv };

    fn eq(&self, other: &List) -> bool {
        self.as_slice() == other.as_slice()
    }
}

impl Eq for List {
    ghost use Rattle.std.specs.Cmp.Lexicographic.{nat_list_eq_equiv};

    ghost laws = { nat_list_eq_equiv };
}

impl List {
    /// No numbers, and no memory yet.
    pub fn new(alloc: Global) -> List
        ensures { result ≡ [] }
    {
        List {
            numbers: Vec::new(alloc),
            len: 0,
        }
    }

    /// No numbers, and memory for `room` of them.
    pub fn with_room(alloc: Global, room: usize) -> Result<List, AllocError>
        ensures { IfOk result (λ list. list ≡ []) }
    {
        Ok(List {
            numbers: Vec::with_capacity(alloc, room)?,
            len: 0,
        })
    }

    /// For how many numbers it has memory.
    pub fn room(&self) -> usize
        ensures { length self.now ≤ result }
    {
        self.numbers.capacity()
    }

    /// Makes room for so many numbers more, and for others if it is made anew.
    #[inline(always)]
    pub fn reserve(&mut self, room: usize) -> Result<(), AllocError>
        ensures { self.new ≡ self.old }
    {
        have_room(&mut self.numbers, self.len, room)
    }

    /// Drops all numbers, and keeps the memory for others.
    #[inline(always)]
    pub fn clear(&mut self)
        ensures { self.new ≡ [] }
    {
        self.len = 0;
    }

    /// Adds a number at the end, in constant time on average.
    #[inline(always)]
    pub fn push(&mut self, number: u64) -> Result<(), AllocError>
        ensures ok { OnOk result (self.new ≡ self.old ++ number ∷ []) }
        ensures err { OnErr result (self.new ≡ self.old) }
    {
        have_room(&mut self.numbers, self.len, 1)?;
        self.numbers[self.len] = number;
        self.len += 1;
        Ok(())
    }

    /// Adds numbers at the end, in their order, in time in proportion to them on average.
    #[inline(always)]
    pub fn extend(&mut self, numbers: &[u64]) -> Result<(), AllocError>
        ensures ok { OnOk result (self.new ≡ self.old ++ numbers.now) }
        ensures err { OnErr result (self.new ≡ self.old) }
    {
        put(&mut self.numbers, self.len, numbers)?;
        self.len += numbers.len();
        Ok(())
    }

    /// Adds the first of these numbers, so many, at the end; up to eight without a call, if there are eight and room
    /// for them.
    #[inline(always)]
    pub fn extend_first(&mut self, numbers: &[u64], count: usize) -> Result<(), AllocError>
        requires { count ≤ length numbers.now }
        ensures ok { OnOk result (self.new ≡ self.old ++ take count numbers.now) }
        ensures err { OnErr result (self.new ≡ self.old) }
    {
        put_first(&mut self.numbers, self.len, numbers, count)?;
        self.len += count;
        Ok(())
    }

    /// Adds so many numbers that follow one another at the end, eight at a time.
    #[inline(always)]
    pub fn extend_run(&mut self, first: u64, count: u64) -> Result<(), AllocError>
        requires { first + count ≤ 2 ^ 63 }
        ensures ok { OnOk result (self.new ≡ self.old ++ range_with_len first count) }
        ensures err { OnErr result (self.new ≡ self.old) }
    {
        let count = count as usize;
        have_room(&mut self.numbers, self.len, count + PIECE)?;
        write_run(&mut self.numbers, self.len, first, count);
        self.len += count;
        Ok(())
    }

    /// Puts the numbers of two ascending lists in place of its own: ascending, a number of both once. It has none after
    /// an error.
    #[inline(never)]
    pub fn put_union(&mut self, members: &[u64], numbers: &[u64]) -> Result<(), AllocError>
        requires members { Ascends 0 members.now }
        requires numbers { Ascends 0 numbers.now }
        ensures ok { OnOk result ((n : ℕ) → Below n members.now → Below n numbers.now
            → self.new ≡ numbers_where (is_in_either members.now numbers.now) 0 n) }
        ensures err { OnErr result (self.new ≡ []) }
    {
        self.len = 0;
        have_room(&mut self.numbers, 0, members.len() + numbers.len())?;
        self.len = write_union(&mut self.numbers, members, numbers);
        Ok(())
    }

    // As `crate::join`.
    #[inline(always)]
    pub(crate) fn join(
        &mut self,
        members: &[u64],
        from: usize,
        number: u64,
    ) -> Result<usize, AllocError>
        requires { from ≤ length members.now }
        ensures within { IfOk result (λ to. to ≤ length members.now) }
        ensures joined { IfOk result (λ to. (numbers : ListOf ℕ) (m : ℕ) → m ≤ number
            → Joined members.now numbers from self.old m
            → Joined members.now (numbers ++ number ∷ []) to self.new (suc number)) }
        ensures err { OnErr result (self.new ≡ self.old) }
    {
        have_room(&mut self.numbers, self.len, members.len() - from + 1)?;
        let (end, taken) = write_joined(&mut self.numbers, self.len, members, from, number);
        self.len = end;
        Ok(taken)
    }

    /// The numbers.
    #[inline(always)]
    pub fn as_slice(&self) -> &[u64]
        ensures { result.now ≡ self.now }
    {
        &self.numbers[..self.len]
    }
}
