// Quotients by a number that is known only when the program runs.
ghost use Rattle.std.specs.Prelude.{◌≡◌, ◌+◌, ◌*◌, ◌<◌, ◌/◌, ◌^◌};
ghost use Rattle.std.specs.Int.{div_ceil};

use crate::dividing::{whole_quotient, whole_quotient_up};
use std::marker::Model;

// A number is cut above so many bits, so that what is above, and a rest below 2^11 with what is below, are small enough
// for a product.
const CUT_BITS: u32 = 40;

const CUT: u128 = 1 << CUT_BITS;

// A number to divide by, and its inverse in units of 2^-63, rounded down, and 1 more. The quotient of a small number is
// then a product. One of 128 bits takes two of them if it is below 2^92 and the divisor at most 2^11, and else a
// division.
#[derive(Drop)]
pub(crate) struct Divisor {
    by: u64,
    inverse: u64,
    ghost some: { 0 < by },
    ghost inverted: { inverse ≡ 2 ^ 63 / by + 1 },
}

impl Divisor {
    #[inline(always)]
    pub(crate) fn new(by: u64) -> Divisor
        requires { 0 < by }
        ensures { result.by ≡ by }
    {
        Divisor {
            by,
            inverse: (1 << 63) / by + 1,
        }
    }

    // The quotient of a small number.
    #[inline(always)]
    fn exact(&self, value: u64) -> u64
        requires { value * self.now.by < 2 ^ 63 }
        ensures { result ≡ value / self.now.by }
    {
        (value as u128 * self.inverse as u128 / (1 << 63)) as u64
    }

    // The quotient.
    #[inline(always)]
    pub(crate) fn quotient(&self, value: u128) -> u128
        ensures { result ≡ value / self.now.by }
    {
        if value >= 1 << 92 || self.by > 1 << 11 {
            return whole_quotient(value, self.by);
        }
        let top = (value / CUT) as u64;
        let high = self.exact(top);
        let rest = top - high * self.by;
        let low = self.exact(rest * (1 << CUT_BITS) + (value % CUT) as u64);
        high as u128 * CUT + low as u128
    }

    // The quotient, rounded up.
    #[inline(always)]
    pub(crate) fn quotient_up(&self, value: u128) -> u128
        ensures { result ≡ div_ceil value self.now.by }
    {
        if value >= 1 << 91 {
            return whole_quotient_up(value, self.by);
        }
        self.quotient(value + (self.by - 1) as u128)
    }
}

// How many inverses are kept: those of the numbers below this.
const KEPT: usize = 256;

// Divisors, of which the small ones are inverted once.
#[derive(Drop)]
pub(crate) struct Divisors {
    inverses: [u64; KEPT],
}

impl Model for Divisors {
    ghost use Rattle.std.specs.Prelude.{◌≡◌, ℕ, List, ◌+◌, ◌/◌, ◌^◌, ◌<◌, length, slice_index};

    ghost Value = { List ℕ };

    ghost view = { λ d. d.inverses };

    ghost invariant = { λ d. (by : ℕ) → 0 < by → by < length d.inverses
        → slice_index d.inverses by ≡ 2 ^ 63 / by + 1 };
}

impl Divisors {
    pub(crate) fn new() -> Divisors {
        let mut inverses = [0; KEPT];
        for by in 1..KEPT {
            inverses[by] = Divisor::new(by as u64).inverse;
        }
        Divisors { inverses }
    }

    #[inline(always)]
    pub(crate) fn get(&self, by: u64) -> Divisor
        requires { 0 < by }
        ensures { result.by ≡ by }
    {
        if by >= KEPT as u64 {
            return Divisor::new(by);
        }
        Divisor {
            by,
            inverse: self.inverses[by as usize],
        }
    }
}
