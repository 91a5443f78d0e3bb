//! One interval, as it is stored.
ghost use Rattle.std.specs.Prelude.{◌≡◌, ℕ, ◌+◌, ◌≤◌, ◌^◌, List, Bool};
ghost use Rattle.wg_params.specs.declared.code.Code.TheVariants.{Gamma};
ghost use Rattle.wg_bits.specs.Bits.{rest};
ghost use Rattle.wg_codes.specs.Standing.{IsWord};
ghost use Rattle.wg_intervals.specs.Stored.{IsInterval};

use crate::Run;
use wg_bits::Cursor;
use wg_codes::{Read, number_of_gap, read};
use wg_params::Code;

// Reads a value whose word stands at the cursor.
#[inline(always)]
fn value(cursor: &mut Cursor<'_>) -> u64
    requires { (v : ℕ) × (behind : List Bool) × IsWord Gamma v (rest cursor.old) behind }
    ensures { (v : ℕ) (behind : List Bool) → IsWord Gamma v (rest cursor.old) behind
        → (v ≡ result) × (behind ≡ rest cursor.new) }
{
    match read(Code::Gamma, cursor) {
        Read::Value(value) => value,
        Read::Cut => unreachable!(),
        Read::NoWord => unreachable!(),
    }
}

// Reads an interval that stands at the cursor.
#[inline(always)]
pub(crate) fn interval_at(cursor: &mut Cursor<'_>, page: u64, least: u64, past: Option<u64>) -> Run
    requires page { page ≤ 2 ^ 62 }
    requires stands { (left : ℕ) × (len : ℕ) × (behind : List Bool)
        × IsInterval page least past left len (rest cursor.old) behind }
    ensures fits { result.left + result.length ≤ 2 ^ 62 + 1 }
    ensures exact { (left len : ℕ) (behind : List Bool)
        → IsInterval page least past left len (rest cursor.old) behind
        → (left ≡ result.left) × (len ≡ result.length) × (behind ≡ rest cursor.new) }
{
    let left = number_of_gap(page, past, value(cursor));
    let length = value(cursor) + least;
    Run { left, length }
}
