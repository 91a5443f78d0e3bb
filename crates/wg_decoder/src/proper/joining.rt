//! Numbers that are joined to ascending members.
ghost use Rattle.std.specs.Prelude.{◌≡◌, ℕ, ◌+◌, ◌^◌, ◌<◌, ◌≤◌, List, [], ◌++◌, Bool, None, length};
ghost use Rattle.wg_params.specs.Codes.{IsCode};
ghost use Rattle.wg_bits.specs.Bits.{rest};
ghost use Rattle.wg_intervals.specs.Stored.{numbers_inside};
ghost use Rattle.wg_graph.specs.Unions.{union_of};
ghost use Rattle.wg_decoder.specs.Proper.Joining.{AreJoinable};
ghost use Rattle.wg_decoder.specs.Proper.Laid.{IntervalsTo, ResidualsTo};

use super::lookahead::{Lookahead, value};
use super::residuals::Residuals;
use wg_codes::number_of_gap;
use wg_graph::Row;
use wg_params::Code;

// Adds the members that wait in the row and the numbers inside so many intervals. It reads their words.
#[inline(always)]
fn join_intervals(page: u64, least: u64, count: u64, cursor: &mut Lookahead<'_>, row: &mut Row)
    requires page { page < 2 ^ 62 }
    requires stand { (lefts : List ℕ) × (lengths : List ℕ) × (behind : List Bool) × (length lefts ≡ count)
        × IntervalsTo page least None lefts lengths (rest cursor.old) behind
        × AreJoinable row.old.waiting (numbers_inside lefts lengths)
        × (length row.old.list + length (union_of row.old.waiting (numbers_inside lefts lengths)) ≤ row.old.room) }
    ensures list { (lefts lengths : List ℕ) (behind : List Bool) → length lefts ≡ count
        → IntervalsTo page least None lefts lengths (rest cursor.old) behind
        → AreJoinable row.old.waiting (numbers_inside lefts lengths)
        → row.new.list ≡ row.old.list ++ union_of row.old.waiting (numbers_inside lefts lengths) }
    ensures behind { (lefts lengths : List ℕ) (behind : List Bool) → length lefts ≡ count
        → IntervalsTo page least None lefts lengths (rest cursor.old) behind
        → AreJoinable row.old.waiting (numbers_inside lefts lengths) → behind ≡ rest cursor.new }
    ensures waiting { row.new.waiting ≡ [] }
    ensures room { row.new.room ≡ row.old.room }
{
    let mut past = None;
    'intervals: for _index in 0..count {
        let first = number_of_gap(page, past, value(Code::Gamma, cursor));
        let run = value(Code::Gamma, cursor) + least;
        row.take_below(first);
        row.extend_run(first, run);
        past = Some(first + run);
    }
    row.take_all();
}

// Adds the members that wait in the row and the residuals, and tells how many bits stand behind the last.
#[inline(always)]
fn join_residuals(residuals: Residuals<'_>, row: &mut Row) -> u64
    requires joinable { AreJoinable row.old.waiting residuals.list }
    requires room { length row.old.list + length (union_of row.old.waiting residuals.list) ≤ row.old.room }
    ensures list { row.new.list ≡ row.old.list ++ union_of row.old.waiting residuals.entry.list }
    ensures behind { result ≡ length residuals.entry.behind }
    ensures waiting { row.new.waiting ≡ [] }
    ensures room { row.new.room ≡ row.old.room }
{
    let mut coming = residuals;
    'residuals: while let Some(residual) = coming.next() {
        row.take_below(residual);
        row.push(residual);
    }
    row.take_all();
    coming.left_behind()
}

// Joins the numbers inside so many intervals, whose words it reads, to those of a row.
#[inline(always)]
pub(crate) fn add_intervals(
    page: u64,
    least: u64,
    count: u64,
    cursor: &mut Lookahead<'_>,
    row: &mut Row,
)
    requires page { page < 2 ^ 62 }
    requires waiting { row.old.waiting ≡ [] }
    requires stand { (lefts : List ℕ) × (lengths : List ℕ) × (behind : List Bool) × (length lefts ≡ count)
        × IntervalsTo page least None lefts lengths (rest cursor.old) behind
        × AreJoinable row.old.list (numbers_inside lefts lengths)
        × (length (union_of row.old.list (numbers_inside lefts lengths)) ≤ row.old.room) }
    ensures list { (lefts lengths : List ℕ) (behind : List Bool) → length lefts ≡ count
        → IntervalsTo page least None lefts lengths (rest cursor.old) behind
        → AreJoinable row.old.list (numbers_inside lefts lengths)
        → row.new.list ≡ union_of row.old.list (numbers_inside lefts lengths) }
    ensures behind { (lefts lengths : List ℕ) (behind : List Bool) → length lefts ≡ count
        → IntervalsTo page least None lefts lengths (rest cursor.old) behind
        → AreJoinable row.old.list (numbers_inside lefts lengths) → behind ≡ rest cursor.new }
    ensures waiting { row.new.waiting ≡ [] }
    ensures room { row.new.room ≡ row.old.room }
{
    if count == 0 {
        return;
    }
    row.hold(0);
    join_intervals(page, least, count, cursor, row);
}

// Joins so many residuals, which stand at the cursor, to the numbers of a row. Tells how many bits stand behind them.
#[inline(always)]
pub(crate) fn add_residuals(
    code: Code,
    page: u64,
    count: u64,
    cursor: Lookahead<'_>,
    row: &mut Row,
) -> u64
    requires code { IsCode code }
    requires page { page < 2 ^ 62 }
    requires waiting { row.old.waiting ≡ [] }
    requires stand { (residuals : List ℕ) × (behind : List Bool) × (length residuals ≡ count)
        × ResidualsTo code page None residuals (rest cursor) behind × AreJoinable row.old.list residuals
        × (length (union_of row.old.list residuals) ≤ row.old.room) }
    ensures list { (residuals : List ℕ) (behind : List Bool) → length residuals ≡ count
        → ResidualsTo code page None residuals (rest cursor.entry) behind → AreJoinable row.old.list residuals
        → row.new.list ≡ union_of row.old.list residuals }
    ensures behind { (residuals : List ℕ) (behind : List Bool) → length residuals ≡ count
        → ResidualsTo code page None residuals (rest cursor.entry) behind → AreJoinable row.old.list residuals
        → result ≡ length behind }
    ensures waiting { row.new.waiting ≡ [] }
    ensures room { row.new.room ≡ row.old.room }
{
    let mut residuals = Residuals::new(cursor, code, page, count);
    let Some(first) = residuals.next() else {
        return residuals.left_behind();
    };
    row.hold(first);
    row.push(first);
    join_residuals(residuals, row)
}
