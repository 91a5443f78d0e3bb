//! The members that a record copies.
ghost use Rattle.std.specs.Prelude.{◌≡◌, ℕ, ◌+◌, ◌%◌, ◌≤◌, ◌==◌, if◌then◌else◌, List, [], ◌++◌, Bool, length, take, sum};
ghost use Rattle.wg_params.specs.Codes.{IsCode};
ghost use Rattle.wg_bits.specs.Bits.{rest};
ghost use Rattle.wg_graph.specs.Copied.{copied_members};
ghost use Rattle.wg_blocks.specs.Stored.{blocks_of};
ghost use Rattle.wg_decoder.specs.Proper.Laid.{WordsTo};

use super::block::block_of;
use super::lookahead::{Lookahead, value};
use wg_graph::Row;
use wg_params::Code;

// Adds the first of the members, so many, if this is the first run, or the second from there, and so on.
#[inline(always)]
fn keep(row: &mut Row, members: &[u64], count: usize, index: u64)
    requires within { count ≤ length members.now }
    requires room { index % 2 ≡ 0 → length row.old.list + length row.old.waiting + count ≤ row.old.room }
    ensures list { row.new.list ≡ row.old.list ++ (if index % 2 == 0 then take count members.now else []) }
    ensures waiting { row.new.waiting ≡ row.old.waiting }
    ensures room { row.new.room ≡ row.old.room }
{
    if index % 2 == 0 {
        row.extend(members, count);
    }
}

// Adds the members that so many blocks copy. It reads their words.
#[inline(always)]
pub(crate) fn copy_members(
    code: Code,
    count: u64,
    members: &[u64],
    cursor: &mut Lookahead<'_>,
    row: &mut Row,
)
    requires code { IsCode code }
    requires stand { (values : List ℕ) × (behind : List Bool) × (length values ≡ count)
        × (sum (blocks_of values) ≤ length members.now) × WordsTo code values (rest cursor.old) behind
        × (length row.old.list + length row.old.waiting + length (copied_members (blocks_of values) members.now)
        ≤ row.old.room) }
    ensures list { (values : List ℕ) (behind : List Bool) → length values ≡ count
        → sum (blocks_of values) ≤ length members.now → WordsTo code values (rest cursor.old) behind
        → row.new.list ≡ row.old.list ++ copied_members (blocks_of values) members.now }
    ensures behind { (values : List ℕ) (behind : List Bool) → length values ≡ count
        → sum (blocks_of values) ≤ length members.now → WordsTo code values (rest cursor.old) behind
        → behind ≡ rest cursor.new }
    ensures waiting { row.new.waiting ≡ row.old.waiting }
    ensures room { row.new.room ≡ row.old.room }
{
    let mut done = 0;
    'copies: for index in 0..count {
        let length = block_of(index, value(code, cursor)) as usize;
        keep(row, &members[done..], length, index);
        done += length;
    }
    keep(row, &members[done..], members.len() - done, count);
}
