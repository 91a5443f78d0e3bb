//! A code that is chosen while the program runs.
ghost use Rattle.std.specs.Prelude.{◌≡◌, ◌≤◌, false, length, is_err, IsTrue, IfSome, ◌↔◌};
ghost use Rattle.wg_params.specs.Codes.{IsCode};
ghost use Rattle.wg_bits.specs.Bits.{rest, moved};
ghost use Rattle.wg_bits.specs.Written.{Sends};
ghost use Rattle.wg_codes.specs.Words.{word, top};
ghost use Rattle.wg_codes.specs.Reading.{Reads, Passes, after};
ghost use Rattle.wg_codes.specs.Windows.{Tells};

use crate::{Read, Word, delta, gamma, nibble, unary, zeta};
use wg_bits::{Cursor, Writer};
use wg_outside::{Depot, WriteError};
use wg_params::Code;

/// What stands at the cursor. The cursor moves over a whole word, and else stands still.
#[inline(always)]
pub fn read(code: Code, cursor: &mut Cursor<'_>) -> Read
    requires { IsCode code }
    ensures found { Reads (word code) (top code) (rest cursor.old) result }
    ensures moves { cursor.new ≡ after (word code) cursor.old result }
    ensures passed { Passes (word code) cursor.old cursor.new result }
{
    if let Some(word) = word_in(code, cursor.peek()) {
        if word.bits <= cursor.remaining() {
            cursor.advance(word.bits);
            return Read::Value(word.value);
        }
    }
    read_long(code, cursor)
}

// Reads a word of any length. Two numbers and a tag are handed back in memory, which is cleared where the function that
// asks for them begins: so this is a function of its own.
#[inline(always)]
fn read_long(code: Code, cursor: &mut Cursor<'_>) -> Read
    requires { IsCode code }
    ensures found { Reads (word code) (top code) (rest cursor.old) result }
    ensures moves { cursor.new ≡ after (word code) cursor.old result }
    ensures passed { Passes (word code) cursor.old cursor.new result }
{
    let (read, bits) = read_in_steps(code, cursor.again());
    cursor.advance(bits);
    read
}

// What stands at the cursor, and how many bits to move over. It takes the cursor itself: one that is
// lent would have to stay in memory wherever words are read.
#[cold]
#[inline(never)]
fn read_in_steps(code: Code, mut cursor: Cursor<'_>) -> (Read, u64)
    requires { IsCode code }
    ensures found { Reads (word code) (top code) (rest cursor.entry) result.0 }
    ensures moves { moved cursor.entry result.1 ≡ after (word code) cursor.entry result.0 }
    ensures within { result.1 ≤ length (rest cursor.entry) }
{
    let start = cursor.at();
    let read = match code {
        Code::Unary => unary::read(&mut cursor, unary::MOST_ZEROS),
        Code::Gamma => gamma::read(&mut cursor, 62),
        Code::Delta => delta::read(&mut cursor),
        Code::Zeta(k) => zeta::read(&mut cursor, k),
        Code::Nibble => nibble::read(&mut cursor),
    };
    (read, cursor.at() - start)
}

/// The word that 64 bits begin with, the first of them the number's highest. It is told of unary, gamma and zeta, if
/// it lies within the 64 bits with some room; of other words there is none.
#[inline(always)]
pub fn word_in(code: Code, window: u64) -> Option<Word>
    requires { IsCode code }
    ensures { IfSome result (Tells (word code) (top code) window) }
{
    match code {
        Code::Unary => unary::word_in(window, unary::MOST_ZEROS),
        Code::Gamma => gamma::word_in(window, 62),
        Code::Zeta(k) => zeta::word_in(window, k),
        _ => None,
    }
}

/// Puts the word of a value. After an error the writer has failed.
#[inline(always)]
pub fn write<D: Depot>(
    code: Code,
    v: u64,
    writer: &mut Writer,
    depot: &mut D,
    name: &str,
) -> Result<(), WriteError>
    requires code { IsCode code }
    requires value { v ≤ top code }
    requires ready { writer.old.failed ≡ false }
    ensures sends { Sends ⟦<D as Depot>⟧ depot.old depot.new name.now writer.old.bits (word code v) writer.new.bits
        result }
    ensures failed { writer.new.failed ≡ is_err result }
{
    match code {
        Code::Unary => unary::write(v, writer, depot, name),
        Code::Gamma => gamma::write(v, writer, depot, name),
        Code::Delta => delta::write(v, writer, depot, name),
        Code::Zeta(k) => zeta::write(k, v, writer, depot, name),
        Code::Nibble => nibble::write(v, writer, depot, name),
    }
}

/// The length of a value's word, in bits.
#[inline(always)]
pub fn length(code: Code, v: u64) -> u64
    requires code { IsCode code }
    requires value { v ≤ top code }
    ensures { result ≡ length (word code v) }
{
    match code {
        Code::Unary => unary::length(v),
        Code::Gamma => gamma::length(v),
        Code::Delta => delta::length(v),
        Code::Zeta(k) => zeta::length(k, v),
        Code::Nibble => nibble::length(v),
    }
}

/// Whether a code has a word for a value: the test to make before [`write`] and [`length`].
#[inline(always)]
pub fn holds(code: Code, v: u64) -> bool
    requires { IsCode code }
    ensures { IsTrue result ↔ (v ≤ top code) }
{
    v <= match code {
        Code::Unary => unary::MOST_ZEROS,
        Code::Gamma | Code::Delta => (1 << 63) - 2,
        Code::Zeta(k) => (1 << (k * zeta::over(63, k))) - 2,
        Code::Nibble => (1 << 63) - 1,
    }
}
