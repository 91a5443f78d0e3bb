//! The offsets of the records.
ghost use Rattle.std.specs.Prelude.{◌≡◌, ◌+◌, ◌≤◌, true, Ok, Err, length, IfErr, OnOk};
ghost use Rattle.wg_params.specs.declared.limits.TheConstants.{MOST_PAGES};
ghost use Rattle.wg_params.specs.Codes.{is_gamma_or_delta};
ghost use Rattle.wg_outside.specs.declared.limits.TheConstants.{MOST_BYTES};
ghost use Rattle.wg_bits.specs.Bits.{bits_of};
ghost use Rattle.wg_grammar.specs.Errors.{OnFault, WantsNoMemory};
ghost use Rattle.wg_offsets.specs.Words.{ReadsOffsets};

use crate::arrays::put_one;
use std::convert::Infallible;
use wg_bits::{Bits, Cursor};
use wg_grammar::{OffsetWord, ReadError};
use wg_offsets::OffsetWords;
use wg_params::Code;

// Reads the words one after the other, from bits that refuse none.
fn read_into(
    bytes: &[u8],
    n: u64,
    code: Code,
    places: &mut [u64],
) -> Result<(), ReadError<OffsetWord, Infallible>>
    requires bytes { length bytes.now ≤ MOST_BYTES }
    requires pages { n ≤ MOST_PAGES }
    requires code { is_gamma_or_delta code ≡ true }
    requires many { length places.old ≡ n + 1 }
    ensures places { OnOk result (ReadsOffsets code n (bits_of bytes.now) (Ok places.new)) }
    ensures refused { OnFault result (λ w. ReadsOffsets code n (bits_of bytes.now) (Err w)) }
    ensures no_memory { WantsNoMemory result }
{
    let mut source = Cursor::new(Bits::of(bytes), 0);
    let mut words = OffsetWords::new(n, code);
    for word in 0..n + 1 {
        let place = words.next(&mut source)?;
        put_one(places, word as usize, place);
    }
    words.finish(&mut source)
}

/// Reads an offsets file of `n` records into an array of `n + 1` places: where each record begins, and last the bit
/// after them. If the file has a fault, it is the answer, and what stands in the array has no meaning. It takes one
/// pass, and no memory.
pub fn read_offsets(bytes: &[u8], n: u64, code: Code, places: &mut [u64]) -> Result<(), OffsetWord>
    requires bytes { length bytes.now ≤ MOST_BYTES }
    requires pages { n ≤ MOST_PAGES }
    requires code { is_gamma_or_delta code ≡ true }
    requires many { length places.old ≡ n + 1 }
    ensures places { OnOk result (ReadsOffsets code n (bits_of bytes.now) (Ok places.new)) }
    ensures refused { IfErr result (λ w. ReadsOffsets code n (bits_of bytes.now) (Err w)) }
{
    match read_into(bytes, n, code, places) {
        Ok(()) => Ok(()),
        Err(ReadError::Fault(word)) => Err(word),
        Err(ReadError::Memory) => unreachable!(),
        Err(ReadError::Refused(never)) => match never {},
    }
}
