//! Values whose words stand at a cursor.
ghost use Rattle.std.specs.Prelude.{◌≡◌, ℕ, ◌^◌, ◌<◌, ◌≤◌, List, Bool, length, drop};
ghost use Rattle.wg_params.specs.Codes.{IsCode};
ghost use Rattle.wg_bits.specs.Bits.{rest};
ghost use Rattle.wg_codes.specs.Standing.{IsWord};
ghost use Rattle.wg_decoder.specs.Proper.Laid.{MaybeWord};

use std::marker::Model;
use wg_bits::Cursor;
use wg_codes::{Read, Word, read, word_in};
use wg_params::Code;

// With fewer bits at hand than these, more are loaded.
const FEW: u64 = 32;

/// A cursor that has the next bits at hand, so that short words that follow one another are read by one load.
///
/// It is seen as the offset of the cursor among its bits.
#[derive(Debug, Drop)]
pub struct Lookahead<'a> {
    cursor: Cursor<'a>,
    // the bits that come next are its highest, so many of them
    near: u64,
    known: u64,
}

impl<'a> Model for Lookahead<'a> {
    ghost use Rattle.wg_bits.specs.Bits.{Position, rest};
    ghost use Rattle.wg_decoder.specs.Proper.Near.{IsNear};

    ghost Value = { Position };

    ghost view = { λ l. l.cursor };

    ghost invariant = { λ l. IsNear l.near l.known (rest l.cursor) };
}

impl<'a> Lookahead<'a> {
    /// At the offset of a cursor.
    #[inline(always)]
    pub fn new(cursor: Cursor<'a>) -> Lookahead<'a>
        ensures { result ≡ cursor.entry }
    {
        let near = cursor.peek();
        Lookahead {
            cursor,
            near,
            known: 64,
        }
    }

    /// A cursor at the same offset of the same bits.
    #[inline(always)]
    pub fn again(&self) -> Cursor<'a>
        ensures { result ≡ self.now }
    {
        self.cursor.again()
    }

    // How many bits stand from the offset on.
    #[inline(always)]
    pub(crate) fn remaining(&self) -> u64
        ensures { result ≡ length (rest self.now) }
    {
        self.cursor.remaining()
    }

    // Loads bits if few are at hand.
    #[inline(always)]
    fn look(&mut self)
        ensures { self.new ≡ self.old }
    {
        if self.known < FEW {
            self.near = self.cursor.peek();
            self.known = 64;
        }
    }
}

/// Reads a value whose word stands at the cursor. If the bits at hand tell it, no test is left of whether it is cut.
#[inline(always)]
pub fn value(code: Code, cursor: &mut Lookahead<'_>) -> u64
    requires code { IsCode code }
    requires stands { (v : ℕ) × (behind : List Bool) × IsWord code v (rest cursor.old) behind }
    ensures short { result < 2 ^ 63 }
    ensures exact { (v : ℕ) (behind : List Bool) → IsWord code v (rest cursor.old) behind
        → (v ≡ result) × (behind ≡ rest cursor.new) }
{
    cursor.look();
    match word_in(code, cursor.near) {
        Some(word) if word.bits < cursor.known => {
            cursor.near <<= word.bits;
            cursor.known -= word.bits;
            cursor.cursor.advance(word.bits);
            word.value
        }
        _ => {
            let word = long_word(code, cursor.again());
            cursor.known = 0;
            cursor.cursor.advance(word.bits);
            word.value
        }
    }
}

// The word that stands at a cursor, whichever it is. It takes the cursor itself: one that is lent would have to stay in
// memory wherever words are read.
#[cold]
#[inline(never)]
fn long_word(code: Code, mut cursor: Cursor<'_>) -> Word
    requires code { IsCode code }
    requires stands { (v : ℕ) × (behind : List Bool) × IsWord code v (rest cursor) behind }
    ensures short { result.value < 2 ^ 63 }
    ensures within { result.bits ≤ length (rest cursor.entry) }
    ensures exact { (v : ℕ) (behind : List Bool) → IsWord code v (rest cursor.entry) behind
        → (v ≡ result.value) × (behind ≡ drop result.bits (rest cursor.entry)) }
{
    let start = cursor.at();
    match read(code, &mut cursor) {
        Read::Value(value) => Word {
            value,
            bits: cursor.at() - start,
        },
        Read::Cut => unreachable!(),
        Read::NoWord => unreachable!(),
    }
}

/// Reads a value if its word is there; else it is 0.
#[inline(always)]
pub fn value_where(there: bool, code: Code, cursor: &mut Lookahead<'_>) -> u64
    requires code { IsCode code }
    requires stands { (v : ℕ) × (behind : List Bool) × MaybeWord there code v (rest cursor.old) behind }
    ensures short { result < 2 ^ 63 }
    ensures exact { (v : ℕ) (behind : List Bool) → MaybeWord there code v (rest cursor.old) behind
        → (v ≡ result) × (behind ≡ rest cursor.new) }
{
    if there {
        return value(code, cursor);
    }
    0
}
