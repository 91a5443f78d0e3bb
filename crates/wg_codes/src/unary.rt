//! Unary: as many zeros as the value says, then a one.
//!
//! | value | word |
//! |---|---|
//! | 0 | `1` |
//! | 1 | `01` |
//! | 2 | `001` |
//! | 3 | `0001` |
//! | 7 | `00000001` |
ghost use Rattle.std.specs.Prelude.{◌≡◌, ◌+◌, ◌^◌, ◌<◌, false, length, is_err, IfSome};
ghost use Rattle.wg_bits.specs.Bits.{rest};
ghost use Rattle.wg_bits.specs.Written.{Sends};
ghost use Rattle.wg_codes.specs.Words.{unary};
ghost use Rattle.wg_codes.specs.Reading.{Reads, after};
ghost use Rattle.wg_codes.specs.Windows.{Tells};

use crate::headed::put_headed;
use crate::{Read, Word};
use wg_bits::{Cursor, GLANCE_BITS, Writer};
use wg_outside::{Depot, WriteError};

/// The most zeros that a unary word has, and so the greatest value.
pub const MOST_ZEROS: u64 = (1 << 32) - 1;

// A word of at most `most`: by one load, if all of it can be seen at a glance.
#[inline(always)]
pub fn read(cursor: &mut Cursor<'_>, most: u64) -> Read
    requires { most < 2 ^ 32 }
    ensures found { Reads unary most (rest cursor.old) result }
    ensures moves { cursor.new ≡ after unary cursor.old result }
{
    if let Some(word) = word_in(cursor.peek(), most) {
        if word.bits <= cursor.remaining() {
            cursor.advance(word.bits);
            return Read::Value(word.value);
        }
    }
    read_in_steps(cursor, most)
}

// The word that 64 bits begin with, if all of it can be seen at a glance.
#[inline(always)]
pub fn word_in(window: u64, most: u64) -> Option<Word>
    requires { most < 2 ^ 32 }
    ensures { IfSome result (Tells unary most window) }
{
    let zeros = window.leading_zeros() as u64;
    if zeros >= GLANCE_BITS as u64 || zeros > most {
        return None;
    }
    Some(Word {
        value: zeros,
        bits: zeros + 1,
    })
}

// Reads a word of any length: the zeros first, and then the one.
#[cold]
#[inline(never)]
fn read_in_steps(cursor: &mut Cursor<'_>, most: u64) -> Read
    requires { most < 2 ^ 32 }
    ensures found { Reads unary most (rest cursor.old) result }
    ensures moves { cursor.new ≡ after unary cursor.old result }
{
    let start = cursor.at();
    let zeros = cursor.zeros(most + 1);
    if zeros > most {
        cursor.seek_back(start);
        return Read::NoWord;
    }
    match cursor.bit() {
        None => {
            cursor.seek_back(start);
            Read::Cut
        }
        Some(_one) => Read::Value(zeros),
    }
}

#[inline(always)]
pub fn write<D: Depot>(
    v: u64,
    writer: &mut Writer,
    depot: &mut D,
    name: &str,
) -> Result<(), WriteError>
    requires ready { writer.old.failed ≡ false }
    ensures sends { Sends ⟦<D as Depot>⟧ depot.old depot.new name.now writer.old.bits (unary v) writer.new.bits result }
    ensures failed { writer.new.failed ≡ is_err result }
{
    put_headed(writer, depot, name, v, 0, 0)
}

#[inline(always)]
pub fn length(v: u64) -> u64
    requires { v < 2 ^ 32 }
    ensures { result ≡ length (unary v) }
{
    v + 1
}
