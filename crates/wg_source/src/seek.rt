//! Words that are read from any offset.
ghost use Rattle.std.specs.Prelude.{◌≡◌, ◌<◌, false, Bool, List, length, IsTrue, IfOk, IfErr};
ghost use Rattle.std.proofs.Common.{◌∙◌};

use std::convert::Infallible;
use wg_bits::Cursor;
use wg_grammar::Source;

/// A source that goes to any offset of its bits. So records are read one by one, in any order.
pub trait Seek: Source {
    /// The second comes of the first by reading on and going to offsets.
    ghost reached: { Self → Self → Type 0 };

    /// Goes to an offset, which may be that of the end, and answers whether there are so many bits.
    fn go_to(&mut self, at: u64) -> Result<bool, Self::Refusal>
        ensures reached { reached self.old self.new }
        ensures there { IfOk result (λ there. IsTrue there → Self.offset self.new ≡ at) }
        ensures past { (bits : List Bool) → Self.reads_from self.old bits
            → IfOk result (λ there. there ≡ false → length bits < at) }
        ensures refused { IfErr result (Self.caused self.old self.new) };

    ghost by_reading: { (a b : Self) → Self.later a b → reached a b };

    ghost on_from: { (a b c : Self) → reached a b → reached b c → reached a c };

    ghost bits_stay: { (a b : Self) (bits : List Bool)
        → reached a b → Self.reads_from a bits → Self.reads_from b bits };

    ghost cause_stays: { (a b c : Self) (r : Self.Refusal) → reached a b → Self.caused b c r → Self.caused a c r };
}

impl<'a> Seek for Cursor<'a> {
    ghost reached = { λ a b. b.bits ≡ a.bits };

    fn go_to(&mut self, at: u64) -> Result<bool, Infallible> {
        let here = self.at();
        if at <= here {
            self.seek_back(at);
            return Ok(true);
        }
        if at - here > self.remaining() {
            return Ok(false);
        }
        self.advance(at - here);
        Ok(true)
    }

    ghost by_reading = { λ a b l. l.bits };

    ghost on_from = { λ a b c l m. m ∙ l };

    ghost bits_stay = { λ a b bits l r. l ∙ r };

    ghost cause_stays = { λ a b c r l x. x };
}
