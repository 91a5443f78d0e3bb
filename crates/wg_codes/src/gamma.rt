//! Gamma: with y one more than the value and m the index of its highest one, the unary word of m, then the low m bits
//! of y.
//!
//! | value | word |
//! |---|---|
//! | 0 | `1` |
//! | 1 | `010` |
//! | 2 | `011` |
//! | 3 | `00100` |
//! | 7 | `0001000` |
ghost use Rattle.std.specs.Prelude.{◌≡◌, ◌+◌, ◌-◌, ◌*◌, ◌^◌, ◌<◌, ◌≤◌, false, length, is_err, IfSome};
ghost use Rattle.wg_bits.specs.Bits.{rest};
ghost use Rattle.wg_bits.specs.Written.{Sends};
ghost use Rattle.wg_codes.specs.Words.{gamma};
ghost use Rattle.wg_codes.specs.Reading.{Reads, after};
ghost use Rattle.wg_codes.specs.Windows.{Tells};

use crate::headed::{highest_one, number, put_headed};
use crate::{Read, Word, unary};
use wg_bits::{Cursor, GLANCE_BITS, Writer};
use wg_outside::{Depot, WriteError};

// A word of a value whose index is at most `most`: by one load, if all of it can be seen at a glance.
#[inline(always)]
pub fn read(cursor: &mut Cursor<'_>, most: u64) -> Read
    requires { most ≤ 62 }
    ensures found { Reads gamma (2 ^ (most + 1) - 2) (rest cursor.old) result }
    ensures moves { cursor.new ≡ after gamma cursor.old result }
{
    if let Some(word) = word_in(cursor.peek(), most) {
        if word.bits <= cursor.remaining() {
            cursor.advance(word.bits);
            return Read::Value(word.value);
        }
    }
    read_in_steps(cursor, most)
}

// The word that 64 bits begin with, if all of it can be seen at a glance.
#[inline(always)]
pub fn word_in(window: u64, most: u64) -> Option<Word>
    requires { most ≤ 62 }
    ensures { IfSome result (Tells gamma (2 ^ (most + 1) - 2) window) }
{
    let index = window.leading_zeros();
    if index as u64 > most.min((GLANCE_BITS / 2) as u64) {
        return None;
    }
    Some(Word {
        value: (window >> (63 - 2 * index)) - 1,
        bits: 2 * index as u64 + 1,
    })
}

// Reads a word of any length: the unary word first, and then the low bits.
#[cold]
#[inline(never)]
fn read_in_steps(cursor: &mut Cursor<'_>, most: u64) -> Read
    requires { most ≤ 62 }
    ensures found { Reads gamma (2 ^ (most + 1) - 2) (rest cursor.old) result }
    ensures moves { cursor.new ≡ after gamma cursor.old result }
{
    let start = cursor.at();
    match unary::read(cursor, most) {
        Read::Cut => Read::Cut,
        Read::NoWord => Read::NoWord,
        Read::Value(index) => match number(cursor, index as u32) {
            None => {
                cursor.seek_back(start);
                Read::Cut
            }
            Some(value) => Read::Value(value),
        },
    }
}

#[inline(always)]
pub fn write<D: Depot>(
    v: u64,
    writer: &mut Writer,
    depot: &mut D,
    name: &str,
) -> Result<(), WriteError>
    requires value { v ≤ 2 ^ 63 - 2 }
    requires ready { writer.old.failed ≡ false }
    ensures sends { Sends ⟦<D as Depot>⟧ depot.old depot.new name.now writer.old.bits (gamma v) writer.new.bits result }
    ensures failed { writer.new.failed ≡ is_err result }
{
    let index = highest_one(v + 1);
    let low = v + 1 - (1 << index);
    put_headed(writer, depot, name, index as u64, low, index)
}

#[inline(always)]
pub fn length(v: u64) -> u64
    requires { v < 2 ^ 63 }
    ensures length { result ≡ length (gamma v) }
    ensures small { result < 128 }
{
    2 * highest_one(v + 1) as u64 + 1
}
