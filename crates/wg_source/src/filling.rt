//! Words of a file that is read in pieces, and its tail.
ghost use Rattle.std.specs.Prelude.{◌≡◌, ◌≢◌, ℕ, ◌+◌, List, Some, IsTrue, OnOk, IfOk, IfErr};
ghost use Rattle.std.specs.FinMap as map;
ghost use Rattle.wg_bits.specs.Bits.{bits_of};
ghost use Rattle.wg_params.specs.Codes.{IsCode};
ghost use Rattle.wg_params.specs.declared.code.Code.TheVariants as codes;
ghost use Rattle.wg_grammar.specs.Standing.{IsReadAt, IsTailAt};
ghost use Rattle.wg_source.specs.Held.{HoldsNext, IsHeldOf, IsInside};
ghost use Rattle.wg_source.specs.Stepping.{Steps, HasCause};
ghost use Rattle.wg_source.specs.declared.stretch.TheConstants.{WORD};

use crate::Stretch;
use wg_codes::{MOST_ZEROS, Read};
use wg_outside::{Depot, LoadError};
use wg_params::Code;

// Reads on until the bytes of a word are held from the next bit on, or the file ends.
fn fill<D: Depot>(held: &mut Stretch, depot: &mut D, name: &str) -> Result<(), LoadError>
    ensures steps { Steps D.told name.now (D.files depot.old) (D.files depot.new) (D.counts depot.old)
        (D.counts depot.new) held.old held.new }
    ensures cause { IfErr result (HasCause D.told name.now (D.files depot.old) (D.counts depot.old) (D.counts depot.new)
        held.old) }
    ensures next { OnOk result (HoldsNext WORD held.new) }
    ensures at { held.new.at ≡ held.old.at }
    ensures inside { OnOk result (IsInside held.new) }
{
    if held.is_ready() {
        return Ok(());
    }
    held.drop_passed();
    while !held.is_ready() {
        held.read_piece(depot, name)?;
    }
    Ok(())
}

/// What stands at the next bit, for which maybe more of the file has to be read. What it calls hands its result back in
/// memory, which is cleared where this begins, so that it is inlined and they are not.
#[inline(always)]
pub fn word_in_pieces<D: Depot>(
    held: &mut Stretch,
    depot: &mut D,
    name: &str,
    code: Code,
) -> Result<Read, LoadError>
    requires code { IsCode code }
    ensures steps { Steps D.told name.now (D.files depot.old) (D.files depot.new) (D.counts depot.old)
        (D.counts depot.new) held.old held.new }
    ensures cause { IfErr result (HasCause D.told name.now (D.files depot.old) (D.counts depot.old) (D.counts depot.new)
        held.old) }
    ensures found { IsTrue D.told → (file : List ℕ) → map.get (D.files depot.old) name.now ≡ Some file
        → IsHeldOf file held.old → IfOk result (λ r. IsReadAt code (bits_of file) held.old.at r held.new.at) }
{
    match code {
        Code::Unary => unary(held, depot, name),
        _ => short(held, depot, name, code),
    }
}

// A word of a code other than unary.
#[cold]
#[inline(never)]
fn short<D: Depot>(
    held: &mut Stretch,
    depot: &mut D,
    name: &str,
    code: Code,
) -> Result<Read, LoadError>
    requires code { IsCode code }
    requires other { code ≢ codes.Unary }
    ensures steps { Steps D.told name.now (D.files depot.old) (D.files depot.new) (D.counts depot.old)
        (D.counts depot.new) held.old held.new }
    ensures cause { IfErr result (HasCause D.told name.now (D.files depot.old) (D.counts depot.old) (D.counts depot.new)
        held.old) }
    ensures found { IsTrue D.told → (file : List ℕ) → map.get (D.files depot.old) name.now ≡ Some file
        → IsHeldOf file held.old → IfOk result (λ r. IsReadAt code (bits_of file) held.old.at r held.new.at) }
{
    fill(held, depot, name)?;
    Ok(held.read(code))
}

// A unary word. Its zeros may go through many pieces, and none of them is kept.
#[cold]
#[inline(never)]
fn unary<D: Depot>(held: &mut Stretch, depot: &mut D, name: &str) -> Result<Read, LoadError>
    ensures steps { Steps D.told name.now (D.files depot.old) (D.files depot.new) (D.counts depot.old)
        (D.counts depot.new) held.old held.new }
    ensures cause { IfErr result (HasCause D.told name.now (D.files depot.old) (D.counts depot.old) (D.counts depot.new)
        held.old) }
    ensures found { IsTrue D.told → (file : List ℕ) → map.get (D.files depot.old) name.now ≡ Some file
        → IsHeldOf file held.old → IfOk result (λ r. IsReadAt codes.Unary (bits_of file) held.old.at r held.new.at) }
{
    let mut zeros = 0;
    loop {
        fill(held, depot, name)?;
        zeros += held.zeros(MOST_ZEROS + 1 - zeros);
        if zeros > MOST_ZEROS {
            return Ok(Read::NoWord);
        }
        if held.holds_bit() {
            held.advance(1);
            return Ok(Read::Value(zeros));
        }
        if held.ended() {
            return Ok(Read::Cut);
        }
    }
}

/// The first bit from the next one on that no tail has. It moves over no bit.
pub fn next_tail_fault<D: Depot>(
    held: &mut Stretch,
    depot: &mut D,
    name: &str,
) -> Result<Option<u64>, LoadError>
    ensures steps { Steps D.told name.now (D.files depot.old) (D.files depot.new) (D.counts depot.old)
        (D.counts depot.new) held.old held.new }
    ensures cause { IfErr result (HasCause D.told name.now (D.files depot.old) (D.counts depot.old) (D.counts depot.new)
        held.old) }
    ensures tail { IsTrue D.told → (file : List ℕ) → map.get (D.files depot.old) name.now ≡ Some file
        → IsHeldOf file held.old → IfOk result (IsTailAt (bits_of file) held.old.at) }
{
    fill(held, depot, name)?;
    Ok(held.tail_fault())
}
