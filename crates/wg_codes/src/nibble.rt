//! Nibble: the digits of the value in base 8, the highest first and none of them a leading zero, each with a marker bit
//! before it, which is 1 at the last digit and 0 at the others.
//!
//! | value | word |
//! |---|---|
//! | 0 | `1000` |
//! | 1 | `1001` |
//! | 7 | `1111` |
//! | 8 | `0001 1000` |
//! | 63 | `0111 1111` |
//!
//! BVGraph's documentation names the code and gives no words for it: the marker and the canonical form are this
//! program's own.
ghost use Rattle.std.specs.Prelude.{◌≡◌, ◌+◌, ◌-◌, ◌*◌, ◌/◌, ◌%◌, ◌^◌, ◌<◌, ◌≤◌, false, length, is_err};
ghost use Rattle.wg_bits.specs.Bits.{rest};
ghost use Rattle.wg_bits.specs.Written.{Sends};
ghost use Rattle.wg_codes.specs.Words.{nibble};
ghost use Rattle.wg_codes.specs.Reading.{Reads, after};

use crate::Read;
use crate::headed::highest_one;
use wg_bits::{Cursor, Writer};
use wg_outside::{Depot, WriteError};

// A word has at most 21 digits, and no zero digit in front.
#[cold]
#[inline(never)]
pub fn read(cursor: &mut Cursor<'_>) -> Read
    ensures found { Reads nibble (2 ^ 63 - 1) (rest cursor.old) result }
    ensures moves { cursor.new ≡ after nibble cursor.old result }
{
    let start = cursor.at();
    let mut value = 0;
    for digit in 0..21u32 {
        let Some(last) = cursor.bit() else {
            cursor.seek_back(start);
            return Read::Cut;
        };
        if !last && digit == 20 {
            cursor.seek_back(start);
            return Read::NoWord;
        }
        let Some(next) = cursor.take(3) else {
            cursor.seek_back(start);
            return Read::Cut;
        };
        value = value * 8 + next;
        if last {
            return Read::Value(value);
        }
        if value == 0 {
            cursor.seek_back(start);
            return Read::NoWord;
        }
    }
    cursor.seek_back(start);
    Read::NoWord
}

#[cold]
#[inline(never)]
pub fn write<D: Depot>(
    v: u64,
    writer: &mut Writer,
    depot: &mut D,
    name: &str,
) -> Result<(), WriteError>
    requires value { v ≤ 2 ^ 63 - 1 }
    requires ready { writer.old.failed ≡ false }
    ensures sends { Sends ⟦<D as Depot>⟧ depot.old depot.new name.now writer.old.bits (nibble v) writer.new.bits
        result }
    ensures failed { writer.new.failed ≡ is_err result }
{
    let mut more = highest_one(v) / 3;
    while more > 0 {
        writer.put(depot, name, (v >> (3 * more)) % 8, 4)?;
        more -= 1;
    }
    writer.put(depot, name, 8 + v % 8, 4)
}

#[cold]
#[inline(never)]
pub fn length(v: u64) -> u64
    requires { v ≤ 2 ^ 63 - 1 }
    ensures { result ≡ length (nibble v) }
{
    4 * (highest_one(v) / 3 + 1) as u64
}
