//! Zeta with the parameter k, as the WebGraph paper of Boldi and Vigna has it: with y one more than the value, m
//! the index of its highest one, h = m / k and least = 2^(hk), the unary word of h, then y in its shortened form:
//! y - least in hk + k - 1 bits if that is below least, else y in hk + k bits. The words of k = 3, and of k = 2:
//!
//! | value | k = 3 | k = 2 |
//! |---|---|---|
//! | 0 | `100` | `10` |
//! | 1 | `1010` | `110` |
//! | 2 | `1011` | `111` |
//! | 3 | `1100` | `01000` |
//! | 7 | `0100000` | `011000` |
ghost use Rattle.std.specs.Prelude.{◌≡◌, ◌+◌, ◌-◌, ◌*◌, ◌/◌, ◌^◌, ◌<◌, ◌≤◌, false, length, IfSome, IfNone, is_err};
ghost use Rattle.wg_bits.specs.Bits.{rest, moved};
ghost use Rattle.wg_bits.specs.Written.{Sends};
ghost use Rattle.wg_codes.specs.Words.{zeta, shortened};
ghost use Rattle.wg_codes.specs.Reading.{Reads, after};
ghost use Rattle.wg_codes.specs.Windows.{Tells};
ghost use Rattle.wg_codes.specs.Parts.{IsShortenedAt, IsCutAt};

use crate::headed::{highest_one, put_headed};
use crate::{Read, Word, unary};
use wg_bits::{Cursor, GLANCE_BITS, Writer};
use wg_outside::{Depot, WriteError};

// A word: by one load, if with its head the long form can be seen at a glance. Such a head is below 63 / k, too.
#[inline(always)]
pub fn read(cursor: &mut Cursor<'_>, k: u32) -> Read
    requires { (1 ≤ k) × (k ≤ 31) }
    ensures found { Reads (zeta k) (2 ^ (k * (63 / k)) - 2) (rest cursor.old) result }
    ensures moves { cursor.new ≡ after (zeta k) cursor.old result }
{
    if let Some(word) = word_in(cursor.peek(), k) {
        if word.bits <= cursor.remaining() {
            cursor.advance(word.bits);
            return Read::Value(word.value);
        }
    }
    read_in_steps(cursor, k)
}

// The word that 64 bits begin with, if its head with the long form can be seen at a glance.
#[inline(always)]
pub fn word_in(window: u64, k: u32) -> Option<Word>
    requires { (1 ≤ k) × (k ≤ 31) }
    ensures { IfSome result (Tells (zeta k) (2 ^ (k * (63 / k)) - 2) window) }
{
    let head = window.leading_zeros();
    let width = head * k + k;
    if head + width + 1 > GLANCE_BITS {
        return None;
    }
    // what stands behind the head, its first bit the highest; the short form has no one among the first k - 1 bits
    let behind = window << head << 1;
    let half = behind / 2;
    let one = 1u64 << (64 - k);
    let (number, bits) = if half < one {
        (half + one, head + width)
    } else {
        (behind, head + width + 1)
    };
    Some(Word {
        value: (number >> (64 - width)) - 1,
        bits: bits as u64,
    })
}

// Reads a word of any length: the unary word of the head first, and then the shortened form.
#[cold]
#[inline(never)]
fn read_in_steps(cursor: &mut Cursor<'_>, k: u32) -> Read
    requires { (1 ≤ k) × (k ≤ 31) }
    ensures found { Reads (zeta k) (2 ^ (k * (63 / k)) - 2) (rest cursor.old) result }
    ensures moves { cursor.new ≡ after (zeta k) cursor.old result }
{
    let start = cursor.at();
    match unary::read(cursor, (63 / k - 1) as u64) {
        Read::Cut => Read::Cut,
        Read::NoWord => Read::NoWord,
        Read::Value(head) => match shortened(cursor, k, head as u32) {
            None => {
                cursor.seek_back(start);
                Read::Cut
            }
            Some(value) => Read::Value(value),
        },
    }
}

// One less than the number that its shortened form spells.
fn shortened(cursor: &mut Cursor<'_>, k: u32, head: u32) -> Option<u64>
    requires k { (1 ≤ k) × (k ≤ 31) }
    requires head { head < 63 / k }
    ensures none { IfNone result (IsCutAt k head (rest cursor.old) × (cursor.new ≡ cursor.old)) }
    ensures some { IfSome result (λ v. IsShortenedAt k head v (rest cursor.old) (rest cursor.new)
        × (cursor.new ≡ moved cursor.old (length (shortened k head (v + 1))))) }
{
    let least = 1u64 << (head * k);
    let start = cursor.at();
    match cursor.take(head * k + k - 1) {
        None => None,
        Some(low) if low < least => Some(least + low - 1),
        Some(low) => match cursor.take(1) {
            None => {
                cursor.seek_back(start);
                None
            }
            Some(last) => Some(2 * low + last - 1),
        },
    }
}

#[inline(always)]
pub fn write<D: Depot>(
    k: u32,
    v: u64,
    writer: &mut Writer,
    depot: &mut D,
    name: &str,
) -> Result<(), WriteError>
    requires k { (1 ≤ k) × (k ≤ 31) }
    requires value { v ≤ 2 ^ (k * (63 / k)) - 2 }
    requires ready { writer.old.failed ≡ false }
    ensures sends { Sends ⟦<D as Depot>⟧ depot.old depot.new name.now writer.old.bits (zeta k v) writer.new.bits
        result }
    ensures failed { writer.new.failed ≡ is_err result }
{
    let head = over(highest_one(v + 1), k);
    let width = head * k + k;
    let least = 1u64 << (head * k);
    if v + 1 - least < least {
        put_headed(writer, depot, name, head as u64, v + 1 - least, width - 1)
    } else {
        put_headed(writer, depot, name, head as u64, v + 1, width)
    }
}

// A quotient by k: if k is the default, by a multiplication in place of a division.
#[inline(always)]
pub fn over(n: u32, k: u32) -> u32
    requires { 1 ≤ k }
    ensures { result ≡ n / k }
{
    if k == 3 {
        return n / 3;
    }
    n / k
}

#[inline(always)]
pub fn length(k: u32, v: u64) -> u64
    requires k { (1 ≤ k) × (k ≤ 31) }
    requires value { v ≤ 2 ^ (k * (63 / k)) - 2 }
    ensures { result ≡ length (zeta k v) }
{
    let head = over(highest_one(v + 1), k);
    let width = head * k + k;
    let least = 1u64 << (head * k);
    if v + 1 - least < least {
        (head + width) as u64
    } else {
        (head + 1 + width) as u64
    }
}
