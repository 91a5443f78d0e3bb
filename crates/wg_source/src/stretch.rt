//! The bytes of a file that are held while it is read.
ghost use Rattle.std.specs.Prelude.{◌≡◌, ◌⊎◌, ◌+◌, ◌-◌, ◌*◌, ◌/◌, ◌<◌, ◌≤◌, ℕ, IsTrue, false, true, [], ◌++◌, List, Some, None, Err, length, drop, replicate, OnOk, OnErr, IfOk, IfErr, IfSome, IfNone};
ghost use Rattle.std.specs.FinMap as map;
ghost use Rattle.wg_outside.specs.declared.limits.TheConstants.{MOST_BYTES};
ghost use Rattle.wg_outside.specs.declared.whole.LoadError.TheVariants as load;
ghost use Rattle.wg_params.specs.Codes.{IsCode};
ghost use Rattle.wg_bits.specs.Bits.{bits_of, BeginsWithNoZero};
ghost use Rattle.wg_codes.specs.Words.{word, top};
ghost use Rattle.wg_codes.specs.Reading.{Reads};
ghost use Rattle.wg_codes.specs.declared.outcome.Read.TheVariants.{Cut, Value};
ghost use Rattle.wg_grammar.specs.Archive.{IsTail, IsTailFault};
ghost use Rattle.wg_grammar.specs.Standing.{StopsAt};
ghost use Rattle.wg_source.specs.Held.{HoldsNext, IsInside, ahead};
ghost use Rattle.wg_source.specs.Stepping.{Steps, Moves, HasCause};
ghost use Rattle.wg_source.specs.declared.stretch.TheConstants.{WORD, MOST_HELD};

use std::marker::Model;
use wg_bits::{Bits, Cursor, GLANCE_BITS};
use wg_codes::Read;
use wg_outside::{Depot, LoadError, MOST_BYTES};
use wg_params::Code;

// No word but those of unary has more bytes, wherever in a byte it begins.
pub const WORD: usize = 17;

/// The most bytes of a file that are held at a time, and that one call reads.
pub const MOST_HELD: usize = 4096;

/// The bytes of a file from some offset on, as far as they were read and are not passed, and the bit that comes next.
#[derive(Debug, Drop)]
pub struct Stretch {
    bytes: [u8; MOST_HELD],
    length: usize,
    // the offset of the first of them in the file
    first: u64,
    // the bit that comes next, counted from the first of them
    here: u64,
    ended: bool,
    looked: bool,
}

impl Model for Stretch {
    ghost use Rattle.std.specs.Prelude.{ℕ, ◌+◌, ◌*◌, ◌≤◌, take};
    ghost use Rattle.wg_outside.specs.declared.limits.TheConstants.{MOST_BYTES};
    ghost use Rattle.wg_source.specs.Held.{HeldBytes};
    ghost use Rattle.wg_source.specs.declared.stretch.TheConstants.{MOST_HELD};

    ghost Value = { HeldBytes };

    ghost view = { λ s. record { bytes = take s.length s.bytes; first = s.first; at = 8 * s.first + s.here; ended = s.ended; looked = s.looked } };

    ghost invariant = { λ s. (s.length ≤ MOST_HELD) × (s.here ≤ 8 * s.length) × (s.first + s.length ≤ MOST_BYTES) };
}

impl Stretch {
    /// Nothing of a file yet, of which nothing is known.
    pub fn new() -> Stretch
        ensures { result ≡ record { bytes = []; first = 0; at = 0; ended = false; looked = false } }
    {
        Stretch {
            bytes: [0; MOST_HELD],
            length: 0,
            first: 0,
            here: 0,
            ended: false,
            looked: false,
        }
    }

    /// The offset of the bit that comes next.
    #[inline(always)]
    pub fn at(&self) -> u64
        ensures at { result ≡ self.now.at }
        ensures short { result ≤ 8 * MOST_BYTES }
    {
        8 * self.first + self.here
    }

    /// Whether the file has no more bytes.
    pub(crate) fn ended(&self) -> bool
        ensures { result ≡ self.now.ended }
    {
        self.ended
    }

    // A cursor over what is held, at the bit that comes next.
    #[inline(always)]
    fn cursor(&self) -> Cursor<'_>
        ensures position { result ≡ record { bits = bits_of self.now.bytes; at = self.now.at - 8 * self.now.first } }
        ensures inside { IsInside self.now }
    {
        Cursor::new(Bits::of(&self.bytes[..self.length]), self.here)
    }

    /// Moves over bits that are held.
    #[inline(always)]
    pub(crate) fn advance(&mut self, by: u64)
        requires { self.old.at + by ≤ 8 * (self.old.first + length self.old.bytes) }
        ensures { self.new ≡ record self.old { at = self.old.at + by } }
    {
        self.here += by;
    }

    /// Whether from the byte of the next bit on a word's bytes are held, or all that the file has.
    #[inline(always)]
    pub(crate) fn is_ready(&self) -> bool
        ensures ready { IsTrue result → HoldsNext WORD self.now }
        ensures inside { IsInside self.now }
        ensures more { result ≡ false → self.now.ended ≡ false }
        ensures few { result ≡ false → self.now.first + length self.now.bytes < self.now.at / 8 + WORD }
    {
        self.here / 8 + WORD as u64 <= self.length as u64 || self.ended
    }

    /// Lets go of the bytes before the one of the next bit.
    pub(crate) fn drop_passed(&mut self)
        ensures { self.new ≡ record self.old {
          bytes = drop (self.old.at / 8 - self.old.first) self.old.bytes;
          first = self.old.at / 8;
        } }
    {
        let passed = (self.here / 8) as usize;
        self.bytes.copy_within(passed..self.length, 0);
        self.length -= passed;
        self.first += passed as u64;
        self.here %= 8;
    }

    // The file has no more bytes.
    fn end(&mut self)
        ensures { self.new ≡ record self.old { ended = true } }
    {
        self.ended = true;
    }

    // Holds some bytes more.
    fn extend(&mut self, piece: &[u8])
        requires room { length self.old.bytes + length piece.now ≤ MOST_HELD }
        requires short { self.old.first + length self.old.bytes + length piece.now ≤ MOST_BYTES }
        ensures { self.new ≡ record self.old { bytes = self.old.bytes ++ piece.now } }
    {
        let end = self.length + piece.len();
        self.bytes[self.length..end].copy_from_slice(piece);
        self.length = end;
    }

    // How many bytes are held.
    fn count(&self) -> usize
        ensures { result ≡ length self.now.bytes }
    {
        self.length
    }

    // The offset after the last byte that is held.
    fn last(&self) -> u64
        ensures offset { result ≡ self.now.first + length self.now.bytes }
        ensures short { result ≤ MOST_BYTES }
    {
        self.first + self.length as u64
    }

    /// Asks once for the byte at the limit, so that a file that is too long is refused before any of it is read.
    #[inline(always)]
    pub fn look<D: Depot>(&mut self, depot: &mut D, name: &str) -> Result<(), LoadError>
        ensures steps { Steps D.told name.now (D.files depot.old) (D.files depot.new) (D.counts depot.old)
            (D.counts depot.new) self.old self.new }
        ensures cause { IfErr result (HasCause D.told name.now (D.files depot.old) (D.counts depot.old)
            (D.counts depot.new) self.old) }
        ensures ok { OnOk result (self.new ≡ record self.old { looked = true }) }
        ensures err { OnErr result (self.new ≡ self.old) }
        ensures absent { IsTrue D.told → map.get (D.files depot.old) name.now ≡ None → self.old.looked ≡ false
            → result ≡ Err load.Absent }
    {
        if self.looked {
            return Ok(());
        }
        self.look_now(depot, name)
    }

    // Asks for the byte at the limit, if nobody has looked yet.
    #[cold]
    #[inline(never)]
    fn look_now<D: Depot>(&mut self, depot: &mut D, name: &str) -> Result<(), LoadError>
        ensures steps { Steps D.told name.now (D.files depot.old) (D.files depot.new) (D.counts depot.old)
            (D.counts depot.new) self.old self.new }
        ensures cause { IfErr result (HasCause D.told name.now (D.files depot.old) (D.counts depot.old)
            (D.counts depot.new) self.old) }
        ensures ok { OnOk result (self.new ≡ record self.old { looked = true }) }
        ensures err { OnErr result (self.new ≡ self.old) }
        ensures absent { IsTrue D.told → map.get (D.files depot.old) name.now ≡ None → result ≡ Err load.Absent }
    {
        let mut byte = [0u8; 1];
        let count = depot.read(name, MOST_BYTES, &mut byte)?;
        if count > 0 {
            return Err(LoadError::TooLong);
        }
        self.looked = true;
        Ok(())
    }

    /// Reads one piece more, as long as there is room for.
    pub(crate) fn read_piece<D: Depot>(
        &mut self,
        depot: &mut D,
        name: &str,
    ) -> Result<(), LoadError>
        requires room { length self.old.bytes ≤ WORD }
        requires more { self.old.ended ≡ false }
        ensures steps { Steps D.told name.now (D.files depot.old) (D.files depot.new) (D.counts depot.old)
            (D.counts depot.new) self.old self.new }
        ensures cause { IfErr result (HasCause D.told name.now (D.files depot.old) (D.counts depot.old)
            (D.counts depot.new) self.old) }
        ensures more { OnOk result ((length self.old.bytes < length self.new.bytes) ⊎ (self.new.ended ≡ true)) }
        ensures least { length self.old.bytes ≤ length self.new.bytes }
        ensures first { self.new.first ≡ self.old.first }
        ensures at { self.new.at ≡ self.old.at }
    {
        let end = self.last();
        let mut room = [0u8; MOST_HELD];
        let piece = &mut room[self.count()..];
        let count = depot.read(name, end, piece)?;
        if count == 0 {
            self.end();
            return Ok(());
        }
        if end + count as u64 > MOST_BYTES {
            return Err(LoadError::TooLong);
        }
        self.extend(&piece[..count]);
        Ok(())
    }

    // Holds these bytes of the file alone, the first of them at this offset, and goes to this bit of them.
    fn hold(&mut self, first: u64, piece: &[u8], at: u64)
        requires room { length piece.now ≤ MOST_HELD }
        requires short { first + length piece.now ≤ MOST_BYTES }
        requires from { 8 * first ≤ at }
        requires to { at ≤ 8 * (first + length piece.now) }
        ensures { self.new ≡ record {
          bytes = piece.now;
          first = first;
          at = at;
          ended = false;
          looked = self.old.looked;
        } }
    {
        let length = piece.len();
        self.bytes[..length].copy_from_slice(piece);
        self.length = length;
        self.first = first;
        self.here = at - 8 * first;
        self.ended = false;
    }

    // Goes to a bit that is held, or to the one after them, and answers whether it is one of these.
    fn go_within(&mut self, at: u64) -> bool
        ensures there { IsTrue result → self.new ≡ record self.old { at = at } }
        ensures still { result ≡ false → self.new ≡ self.old }
    {
        let from = 8 * self.first;
        if at < from || at - from > 8 * self.length as u64 {
            return false;
        }
        self.here = at - from;
        true
    }

    /// Goes to a bit of the file, forwards or back, or to the end of its bits, and answers whether it has so many. If
    /// that bit is not held, one piece is read, which begins with the byte of the bit before: the file has this byte
    /// exactly if it has so many bits. If it has not, what is held stays as it is.
    pub fn go_to<D: Depot>(&mut self, depot: &mut D, name: &str, at: u64) -> Result<bool, LoadError>
        ensures moves { Moves D.told name.now (D.files depot.old) (D.files depot.new) (D.counts depot.old)
            (D.counts depot.new) self.old self.new }
        ensures cause { IfErr result (HasCause D.told name.now (D.files depot.old) (D.counts depot.old)
            (D.counts depot.new) self.old) }
        ensures there { IfOk result (λ there. IsTrue there → self.new.at ≡ at) }
        ensures past { IsTrue D.told → (file : List ℕ) → map.get (D.files depot.old) name.now ≡ Some file
            → IfOk result (λ there. there ≡ false → 8 * length file < at) }
    {
        if self.go_within(at) {
            return Ok(true);
        }
        if at == 0 {
            self.hold(0, &[], 0);
            return Ok(true);
        }
        let first = (at - 1) / 8;
        let mut room = [0u8; MOST_HELD];
        let count = depot.read(name, first, &mut room)?;
        if count == 0 {
            return Ok(false);
        }
        if first + count as u64 > MOST_BYTES {
            return Err(LoadError::TooLong);
        }
        self.hold(first, &room[..count], at);
        Ok(true)
    }

    /// Reads what stands in the bits that are held, and moves over a whole word.
    pub(crate) fn read(&mut self, code: Code) -> Read
        requires { IsCode code }
        ensures found { Reads (word code) (top code) (ahead self.old) result }
        ensures moved { self.new ≡ record self.old { at = self.new.at } }
        ensures stops { StopsAt code self.old.at result self.new.at }
        ensures still { result ≡ Cut → self.new ≡ self.old }
        ensures onward { self.old.at ≤ self.new.at }
        ensures inside { IsInside self.old }
    {
        let mut cursor = self.cursor();
        let read = wg_codes::read(code, &mut cursor);
        let here = cursor.at();
        self.here = here;
        read
    }

    /// The value of the word that comes next, which it moves over: if it is told by 64 bits, and so many bytes are held
    /// as any word has, so that no load needs a test.
    #[inline(always)]
    pub(crate) fn near_word(&mut self, code: Code) -> Option<u64>
        requires { IsCode code }
        ensures found { IfSome result (λ v. Reads (word code) (top code) (ahead self.old) (Value v)) }
        ensures stops { IfSome result (λ v. self.new.at ≡ self.old.at + length (word code v)) }
        ensures moved { self.new ≡ record self.old { at = self.new.at } }
        ensures still { IfNone result (self.new ≡ self.old) }
        ensures onward { self.old.at ≤ self.new.at }
        ensures inside { IsInside self.old }
    {
        let from = (self.here / 8) as usize;
        if from + WORD > self.length {
            return None;
        }
        let near = Cursor::new(Bits::of(&self.bytes[from..from + WORD]), self.here % 8);
        let found = wg_codes::word_in(code, near.glance())?;
        if found.bits > GLANCE_BITS as u64 {
            return None;
        }
        self.here += found.bits;
        Some(found.value)
    }

    /// Moves over the zero bits that come next and are held, but at most `limit` of them, and counts them.
    pub(crate) fn zeros(&mut self, limit: u64) -> u64
        ensures zeros { ahead self.old ≡ replicate result false ++ ahead self.new }
        ensures moved { self.new ≡ record self.old { at = self.old.at + result } }
        ensures within { result ≤ limit }
        ensures stops { result < limit → BeginsWithNoZero (ahead self.new) }
        ensures inside { IsInside self.new }
    {
        let mut cursor = self.cursor();
        let zeros = cursor.zeros(limit);
        let end = cursor.at();
        self.advance(zeros);
        zeros
    }

    /// Whether a bit is held.
    pub(crate) fn holds_bit(&self) -> bool
        ensures some { IsTrue result → 0 < length (ahead self.now) }
        ensures room { IsTrue result → self.now.at + 1 ≤ 8 * (self.now.first + length self.now.bytes) }
        ensures none { result ≡ false → ahead self.now ≡ [] }
    {
        let cursor = self.cursor();
        cursor.remaining() > 0
    }

    /// The first bit from the next one on that no tail has, by what is held: a one, or one bit too many.
    pub(crate) fn tail_fault(&self) -> Option<u64>
        ensures none { IfNone result (IsTail (bits_of self.now.bytes) (self.now.at - 8 * self.now.first)) }
        ensures some { IfSome result (λ at. (8 * self.now.first ≤ at)
            × IsTailFault (bits_of self.now.bytes) (self.now.at - 8 * self.now.first) (at - 8 * self.now.first)) }
        ensures inside { IsInside self.now }
    {
        let mut cursor = self.cursor();
        match wg_grammar::tail_fault(&mut cursor) {
            Some(at) => Some(8 * self.first + at),
            None => None,
        }
    }
}
