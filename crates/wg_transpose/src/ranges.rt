//! Lists that stand one after the other in an array, range after range of lists, if it is counted how long each is.
ghost use Rattle.std.specs.Prelude.{◌≡◌, ◌⊎◌, ℕ, ◌+◌, ◌-◌, ◌*◌, ◌/◌, ◌^◌, ◌<◌, ◌≤◌, max, List, [], length, get_or, take, sum, slice_index, slice_range, slice_set, OnOk, OnErr};
ghost use Rattle.wg_params.specs.declared.limits.TheConstants.{MOST_ARCS};
ghost use Rattle.wg_transpose.specs.SoFar.{onward, start, AreCounts, ArePrefixes};
ghost use Rattle.wg_transpose.specs.Transposing.{IsRangeOf, HoldsLists, numbers_between};

use std::alloc::{AllocError, Global};
use std::marker::Model;

/// A pass that puts numbers into lists, each into the list that it is for, in their order.
pub trait Placing {
    /// The lists.
    ghost lists: { Self → ℕ → List ℕ };

    /// The second goes over the same as the first.
    ghost same: { Self → Self → Type 0 };

    /// Makes the lists from list `from` on, if each place in `ends` has the start of one: it puts each number behind
    /// those of its list so far, and leaves out the numbers of other lists. The starts become ends.
    fn place(&mut self, from: u64, ends: &mut [u64], all: &mut [u64])
        requires none { ArePrefixes (length ends.old) (onward from (lists self.old)) (λ _. []) ends.old all.old }
        ensures same { same self.old self.new }
        ensures placed { ArePrefixes (length ends.old) (onward from (lists self.old))
            (onward from (lists self.old)) ends.new all.new };

    ghost stays: { (a : Self) → same a a };
}

/// How many arcs a range is to have at least, so that a graph of so many arcs is gone through in 15 ranges at most: a
/// fourteenth of them, rounded up, and 2^24 if that is more.
pub fn range_room(arcs: u64) -> u64
    ensures exact { result ≡ max ((arcs + 13) / 14) (2 ^ 24) }
    ensures least { 2 ^ 24 ≤ result }
    ensures few { arcs ≤ 14 * result }
{
    arcs.div_ceil(14).max(1 << 24)
}

/// Puts in place of each count the sum of those before it.
pub fn set_starts(counts: &mut [u64])
    requires few { sum counts.old ≤ MOST_ARCS }
    ensures pages { length counts.new ≡ length counts.old }
    ensures starts { (v : ℕ) → v < length counts.old → get_or counts.new v 0 ≡ sum (take v counts.old) }
{
    let mut start = 0;
    for count in counts {
        let next = start + *count;
        *count = start;
        start = next;
    }
}

// Of lists of so many numbers each: how many from the first on have at least `room` numbers together, one list at
// least, or else all; and how many numbers these have.
fn lists_with(counts: &[u64], room: u64) -> (usize, u64)
    requires few { sum counts.now ≤ MOST_ARCS }
    ensures within { result.0 ≤ length counts.now }
    ensures some { 0 < length counts.now → 0 < result.0 }
    ensures total { result.1 ≡ sum (take result.0 counts.now) }
    ensures enough { result.0 < length counts.now → room ≤ result.1 }
    ensures least { (k : ℕ) → 0 < k → k < result.0 → sum (take k counts.now) < room }
{
    let mut arcs = 0;
    for page in 0..counts.len() {
        arcs += counts[page];
        if room <= arcs {
            return (page + 1, arcs);
        }
    }
    (counts.len(), arcs)
}

/// Puts a number at the end of a list, if that is one of those from list `from` on whose ends are given.
#[inline(always)]
pub fn put_in_range(number: u64, list: u64, from: u64, ends: &mut [u64], all: &mut [u64])
    requires room { from ≤ list → list - from < length ends.old
        → slice_index ends.old (list - from) < length all.old }
    ensures ends { from ≤ list → list - from < length ends.old
        → ends.new ≡ slice_set ends.old (list - from) (slice_index ends.old (list - from) + 1) }
    ensures all { from ≤ list → list - from < length ends.old
        → all.new ≡ slice_set all.old (slice_index ends.old (list - from)) number }
    ensures same_ends { (list < from) ⊎ (length ends.old ≤ list - from) → ends.new ≡ ends.old }
    ensures same_all { (list < from) ⊎ (length ends.old ≤ list - from) → all.new ≡ all.old }
{
    if list < from {
        return;
    }
    let place = (list - from) as usize;
    if place >= ends.len() {
        return;
    }
    let end = ends[place];
    all[end as usize] = number;
    ends[place] = end + 1;
}

// Where a list of the range begins and ends in the array of the range, which has the lists from list `from` on.
#[inline(always)]
fn span(ends: &[u64], all: &[u64], from: u64, list: u64) -> (usize, usize)
    requires from { from ≤ list }
    requires holds { (n : ℕ) × (whole : ℕ → List ℕ) × (to : ℕ) × HoldsLists n whole from to ends.now all.now × (list < to) }
    ensures ordered { result.0 ≤ result.1 }
    ensures within { result.1 ≤ length all.now }
    ensures list { (n : ℕ) (whole : ℕ → List ℕ) (to : ℕ) → HoldsLists n whole from to ends.now all.now → list < to
        → slice_range all.now result.0 result.1 ≡ whole list }
{
    let end = ends[list as usize] as usize;
    if list == from {
        return (0, end);
    }
    (ends[list as usize - 1] as usize, end)
}

// Makes the lists from list `from` on, one after the other, and their ends, if it was counted how long they are.
#[tactic(auto, using(crate::proofs::Totals::sum_is_all))]
pub(crate) fn fill<P: Placing>(pass: &mut P, from: u64, ends: &mut [u64], all: &mut [u64])
    requires counted { AreCounts (length ends.old) (onward from (P.lists pass.old)) ends.old }
    requires room { length all.old ≡ start (onward from (P.lists pass.old)) (length ends.old) }
    requires few { length all.old ≤ MOST_ARCS }
    ensures same { P.same pass.old pass.new }
    ensures placed { ArePrefixes (length ends.old) (onward from (P.lists pass.old))
        (onward from (P.lists pass.old)) ends.new all.new }
{
    set_starts(ends);
    pass.place(from, ends, all);
}

/// Lists of which it is counted how long each is, and of which one range after the other is at hand: from list `from`
/// up to the list before `to`. It holds 8 bytes for each list, and 8 for each number of the range.
#[derive(Debug)]
pub struct Ranges {
    // For a list of the range, where it ends; for a list behind it, how long it is.
    ends: Vec<u64>,
    // The lists of the range, one after the other.
    all: Vec<u64>,
    from: u64,
    to: u64,
}

impl Drop for Ranges {
    fn drop(self) {
        let Ranges {
            ends,
            all,
            from,
            to,
        } = self;
    }
}

impl Model for Ranges {
    ghost use Rattle.std.specs.Prelude.{◌≤◌};
    ghost use Rattle.wg_transpose.specs.Transposing.{Ranging};

    ghost Value = { Ranging };

    ghost view = { λ r. record { from = r.from; to = r.to; ends = r.ends.items; all = r.all.items } };

    ghost invariant = { λ r. (r.from ≤ r.to) × (r.to ≤ r.ends.len) };
}

impl Ranges {
    /// Before the first range of lists that are so long.
    pub fn new(alloc: Global, counts: Vec<u64>) -> Ranges
        ensures { result ≡ record { from = 0; to = 0; ends = counts.items; all = [] } }
    {
        Ranges {
            ends: counts,
            all: Vec::new(alloc),
            from: 0,
            to: 0,
        }
    }

    /// How many lists there are.
    pub fn count(&self) -> u64
        ensures { result ≡ length self.now.ends }
    {
        self.ends.len() as u64
    }

    /// The first list of the range.
    #[inline(always)]
    pub fn from(&self) -> u64
        ensures value { result ≡ self.now.from }
        ensures ordered { self.now.from ≤ self.now.to }
    {
        self.from
    }

    /// The list behind the last one of the range.
    #[inline(always)]
    pub fn to(&self) -> u64
        ensures value { result ≡ self.now.to }
        ensures within { self.now.to ≤ length self.now.ends }
    {
        self.to
    }

    /// Goes to the next range, in one pass: it ends with the list by which it has `room` numbers or more, or with the
    /// last list. The memory of the range before is given back first. If there is none for the next, the range is
    /// empty, and stands before the same list.
    pub fn advance<P: Placing>(
        &mut self,
        alloc: Global,
        room: u64,
        pass: &mut P,
    ) -> Result<(), AllocError>
        requires holds { IsRangeOf (P.lists pass.old) self.old }
        ensures holds { IsRangeOf (P.lists pass.old) self.new }
        ensures same { P.same pass.old pass.new }
        ensures count { length self.new.ends ≡ length self.old.ends }
        ensures from { self.new.from ≡ self.old.to }
        ensures within { self.new.to ≤ length self.old.ends }
        ensures some { OnOk result (self.old.to < length self.old.ends → self.old.to < self.new.to) }
        ensures enough { OnOk result (self.new.to < length self.old.ends
            → room ≤ numbers_between (P.lists pass.old) self.old.to self.new.to) }
        ensures least { OnOk result ((list : ℕ) → self.old.to < list → list < self.new.to
            → numbers_between (P.lists pass.old) self.old.to list < room) }
        ensures err { OnErr result (self.new.to ≡ self.old.to) }
    {
        self.from = self.to;
        self.all = Vec::new(alloc);
        let (lists, numbers) = lists_with(&self.ends[self.to as usize..], room);
        self.all = vec![in alloc; 0; numbers as usize]?;
        self.to += lists as u64;
        let ends = &mut self.ends[self.from as usize..self.to as usize];
        fill(pass, self.from, ends, &mut self.all);
        Ok(())
    }

    /// A list of the range. It takes constant time.
    #[inline(always)]
    pub fn list(&self, list: u64) -> &[u64]
        requires from { self.now.from ≤ list }
        requires to { list < self.now.to }
        requires holds { (whole : ℕ → List ℕ) × IsRangeOf whole self.now }
        ensures { (whole : ℕ → List ℕ) → IsRangeOf whole self.now → result.now ≡ whole list }
    {
        let (begin, end) = span(&self.ends, &self.all, self.from, list);
        &self.all[begin..end]
    }
}
