// An offset that moves over bits.
ghost use Rattle.std.specs.Prelude.{◌≡◌, ℕ, ◌+◌, ◌-◌, ◌*◌, ◌^◌, ◌<◌, ◌≤◌, false, [], ◌∷◌, ◌++◌, length, get_or, replicate, IfSome, IfNone};
ghost use Rattle.wg_outside.specs.declared.limits.TheConstants.{MOST_BYTES};
ghost use Rattle.wg_bits.specs.Bits.{bits_of, low_bits, front, Position, rest, moved, BeginsWithNoZero};
ghost use Rattle.wg_bits.specs.declared.window.TheConstants.{GLANCE_BITS};

use crate::Bits;
use crate::window::{glance, window};
use std::marker::Model;

/// An offset in some bits, counted in bits from the first.
///
/// A call that answers `None` leaves it where it was. The readers of codes look ahead with [`peek`](Cursor::peek), know
/// by [`remaining`](Cursor::remaining) whether what they saw is there, and then move once, with
/// [`advance`](Cursor::advance); if a word turns out to be cut they go [`seek_back`](Cursor::seek_back).
#[derive(Clone, Debug, Drop)]
pub struct Cursor<'a> {
    bytes: &'a [u8],
    // at most 8 times the number of bytes
    at: u64,
}

impl<'a> Model for Cursor<'a> {
    ghost Value = { Position };

    ghost view = { λ c. record { bits = bits_of c.bytes.now; at = c.at } };

    ghost invariant = { λ c. (length c.bytes.now ≤ MOST_BYTES) × (c.at ≤ 8 * length c.bytes.now) };
}

impl<'a> Cursor<'a> {
    /// A cursor at the offset `at`, which may be the end.
    #[inline(always)]
    pub fn new(bits: Bits<'a>, at: u64) -> Cursor<'a>
        requires { at ≤ length bits }
        ensures { result ≡ record { bits = bits.entry; at = at } }
    {
        Cursor {
            bytes: bits.bytes,
            at,
        }
    }

    /// Another cursor at the same offset of the same bits.
    pub fn again(&self) -> Cursor<'a>
        ensures { result ≡ self.now }
    {
        Cursor {
            bytes: self.bytes,
            at: self.at,
        }
    }

    /// The offset.
    #[inline(always)]
    pub fn at(&self) -> u64
        ensures offset { result ≡ self.now.at }
        ensures within { result ≤ length self.now.bits }
        ensures short { length self.now.bits ≤ 8 * MOST_BYTES }
    {
        self.at
    }

    /// How many bits stand from the offset on.
    #[inline(always)]
    pub fn remaining(&self) -> u64
        ensures { result ≡ length (rest self.now) }
    {
        8 * self.bytes.len() as u64 - self.at
    }

    /// Goes back to an offset that was passed.
    #[inline(always)]
    pub fn seek_back(&mut self, at: u64)
        requires { at ≤ self.old.at }
        ensures { self.new ≡ record { bits = self.old.bits; at = at } }
    {
        self.at = at;
    }

    /// The next 64 bits as a number, the first of them its highest; zero bits stand for what is past the end.
    #[inline(always)]
    pub fn peek(&self) -> u64
        ensures { low_bits 64 result ≡ front 64 (rest self.now) }
    {
        window(self.bytes, self.at)
    }

    /// The next [`GLANCE_BITS`](crate::GLANCE_BITS) bits as the highest of a number, the first of them its highest.
    /// What stands behind them is not told, so that it takes less than to [`peek`](Cursor::peek).
    #[inline(always)]
    pub fn glance(&self) -> u64
        ensures { (i : ℕ) → i < GLANCE_BITS → get_or (low_bits 64 result) i false ≡ get_or (rest self.now) i false }
    {
        glance(self.bytes, self.at)
    }

    /// Moves over bits that are there.
    #[inline(always)]
    pub fn advance(&mut self, by: u64)
        requires { by ≤ length (rest self.old) }
        ensures { self.new ≡ moved self.old by }
    {
        self.at += by;
    }

    /// The next bit, true for a one.
    pub fn bit(&mut self) -> Option<bool>
        ensures none { IfNone result ((rest self.old ≡ []) × (self.new ≡ self.old)) }
        ensures some { IfSome result (λ b. (rest self.old ≡ b ∷ rest self.new) × (self.new ≡ moved self.old 1)) }
    {
        if self.remaining() == 0 {
            return None;
        }
        let next = self.peek() >> 63 == 1;
        self.advance(1);
        Some(next)
    }

    /// The number that the next `count` bits spell, the first of them its highest.
    pub fn take(&mut self, count: u32) -> Option<u64>
        requires { count ≤ 64 }
        ensures none { IfNone result ((length (rest self.old) < count) × (self.new ≡ self.old)) }
        ensures some { IfSome result (λ v. (v < 2 ^ count) × (rest self.old ≡ low_bits count v ++ rest self.new)
            × (self.new ≡ moved self.old count)) }
    {
        if self.remaining() < count as u64 {
            return None;
        }
        if count == 0 {
            return Some(0);
        }
        let value = self.peek() >> (64 - count);
        self.advance(count as u64);
        Some(value)
    }

    /// Moves over the zero bits that come next, but at most `limit` of them, and counts them.
    pub fn zeros(&mut self, limit: u64) -> u64
        ensures zeros { rest self.old ≡ replicate result false ++ rest self.new }
        ensures offset { self.new ≡ moved self.old result }
        ensures within { result ≤ limit }
        ensures stops { result < limit → BeginsWithNoZero (rest self.new) }
    {
        let most = limit.min(self.remaining());
        let mut passed = 0;
        while passed < most {
            let run = self.peek().leading_zeros() as u64;
            if run < 64 {
                let step = run.min(most - passed);
                self.advance(step);
                return passed + step;
            }
            let step = (most - passed).min(64);
            self.advance(step);
            passed += step;
        }
        passed
    }
}
