//! Delta: with y one more than the value and m the index of its highest one, the gamma word of m, then the low m bits
//! of y.
//!
//! | value | word |
//! |---|---|
//! | 0 | `1` |
//! | 1 | `0100` |
//! | 2 | `0101` |
//! | 3 | `01100` |
//! | 7 | `00100000` |
ghost use Rattle.std.specs.Prelude.{◌≡◌, ◌-◌, ◌^◌, ◌≤◌, false, length, is_err};
ghost use Rattle.wg_bits.specs.Bits.{rest};
ghost use Rattle.wg_bits.specs.Written.{Sends};
ghost use Rattle.wg_codes.specs.Words.{delta};
ghost use Rattle.wg_codes.specs.Reading.{Reads, after};

use crate::headed::{highest_one, number};
use crate::{Read, gamma};
use wg_bits::{Cursor, Writer};
use wg_outside::{Depot, WriteError};

// An index is at most 62, so the index of one more than it at most 5: six zeros begin no word.
#[cold]
#[inline(never)]
pub fn read(cursor: &mut Cursor<'_>) -> Read
    ensures found { Reads delta (2 ^ 63 - 2) (rest cursor.old) result }
    ensures moves { cursor.new ≡ after delta cursor.old result }
{
    let start = cursor.at();
    match gamma::read(cursor, 5) {
        Read::Cut => Read::Cut,
        Read::NoWord => Read::NoWord,
        Read::Value(index) => match number(cursor, index as u32) {
            None => {
                cursor.seek_back(start);
                Read::Cut
            }
            Some(value) => Read::Value(value),
        },
    }
}

#[cold]
#[inline(never)]
pub fn write<D: Depot>(
    v: u64,
    writer: &mut Writer,
    depot: &mut D,
    name: &str,
) -> Result<(), WriteError>
    requires value { v ≤ 2 ^ 63 - 2 }
    requires ready { writer.old.failed ≡ false }
    ensures sends { Sends ⟦<D as Depot>⟧ depot.old depot.new name.now writer.old.bits (delta v) writer.new.bits result }
    ensures failed { writer.new.failed ≡ is_err result }
{
    let index = highest_one(v + 1);
    gamma::write(index as u64, writer, depot, name)?;
    writer.put(depot, name, v + 1 - (1 << index), index)
}

#[cold]
#[inline(never)]
pub fn length(v: u64) -> u64
    requires { v ≤ 2 ^ 63 - 2 }
    ensures { result ≡ length (delta v) }
{
    let index = highest_one(v + 1) as u64;
    gamma::length(index) + index
}
