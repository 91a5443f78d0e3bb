//! Words that are passed to find what stands behind them.
ghost use Rattle.std.specs.Prelude.{◌≡◌, ℕ, ◌+◌, ◌-◌, ◌%◌, ◌^◌, ◌<◌, ◌≤◌, ◌==◌, if◌then◌else◌, List, Bool, Option, length, sum};
ghost use Rattle.wg_params.specs.Codes.{IsCode};
ghost use Rattle.wg_bits.specs.Bits.{rest};
ghost use Rattle.wg_graph.specs.Copied.{copied_members};
ghost use Rattle.wg_blocks.specs.Stored.{blocks_of};
ghost use Rattle.wg_decoder.specs.Proper.Laid.{WordsTo, IntervalsTo};

use wg_decoder::proper::{Lookahead, block_of, value};
use wg_params::Code;

// The number copied, when `left` members past a block change from copied to skipped, or the other way round.
#[inline(always)]
fn turned(index: u64, copied: u64, left: u64) -> u64
    requires less { index % 2 ≡ 0 → left ≤ copied }
    requires more { index % 2 ≡ 1 → copied + left < 2 ^ 64 }
    ensures { result ≡ (if index % 2 == 0 then copied - left else copied + left) }
{
    if index % 2 == 0 {
        copied - left
    } else {
        copied + left
    }
}

// Passes so many blocks of a list with `source` members, and counts the members that they copy.
#[inline(always)]
pub(crate) fn pass_blocks(code: Code, count: u64, source: u64, cursor: &mut Lookahead<'_>) -> u64
    requires code { IsCode code }
    requires stand { (values : List ℕ) × (behind : List Bool) × (length values ≡ count)
        × (sum (blocks_of values) ≤ source) × WordsTo code values (rest cursor.old) behind }
    ensures { (values : List ℕ) (behind : List Bool) → length values ≡ count → sum (blocks_of values) ≤ source
        → WordsTo code values (rest cursor.old) behind → (behind ≡ rest cursor.new)
        × ((list : List ℕ) → length list ≡ source → result ≡ length (copied_members (blocks_of values) list)) }
{
    let mut copied = source;
    let mut left = source;
    'blocks: for index in 0..count {
        let stored = value(code, cursor);
        left -= block_of(index, stored);
        copied = turned(index, copied, left);
    }
    copied
}

// Passes so many intervals, and counts the numbers inside them.
#[inline(always)]
pub(crate) fn pass_intervals(least: u64, count: u64, cursor: &mut Lookahead<'_>) -> u64
    requires { (page : ℕ) × (past : Option ℕ) × (lefts : List ℕ) × (lengths : List ℕ) × (behind : List Bool)
        × (length lefts ≡ count) × (sum lengths < 2 ^ 63)
        × IntervalsTo page least past lefts lengths (rest cursor.old) behind }
    ensures { (page : ℕ) (past : Option ℕ) (lefts lengths : List ℕ) (behind : List Bool)
        → length lefts ≡ count → IntervalsTo page least past lefts lengths (rest cursor.old) behind
        → (result ≡ sum lengths) × (behind ≡ rest cursor.new) }
{
    let mut covered = 0;
    'intervals: for _index in 0..count {
        value(Code::Gamma, cursor);
        covered += value(Code::Gamma, cursor) + least;
    }
    covered
}
