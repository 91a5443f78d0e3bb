//! All words of an offsets file.
ghost use Rattle.std.specs.Prelude.{◌≡◌, ◌+◌, ◌≤◌, true, Bool, List, length, Ok, Err, IfOk, IfErr};
ghost use Rattle.wg_params.specs.declared.limits.TheConstants.{MOST_PAGES};
ghost use Rattle.wg_params.specs.Codes.{is_gamma_or_delta};
ghost use Rattle.wg_outside.specs.declared.limits.TheConstants.{MOST_BYTES};
ghost use Rattle.wg_bits.specs.Bits.{bits_of};
ghost use Rattle.wg_grammar.specs.Errors.{OnFault, OnRefusal};
ghost use Rattle.wg_offsets.specs.Errors.{known_error};
ghost use Rattle.wg_offsets.specs.Words.{ReadsOffsets};
ghost use Rattle.wg_offsets.specs.Stages.{IfWord};

use crate::{OffsetWords, Offsets, OffsetsError};
use std::alloc::Global;
use std::convert::Infallible;
use wg_bits::{Bits, Cursor};
use wg_grammar::{OffsetWord, ReadError, Source};
use wg_params::Code;

/// Reads the places of `n` records, whose offsets file these bytes are. It takes one pass, and 8 bytes of memory for
/// each word that it has read.
pub fn read(alloc: Global, bytes: &[u8], n: u64, code: Code) -> Result<Offsets, OffsetsError>
    requires bytes { length bytes.now ≤ MOST_BYTES }
    requires pages { n ≤ MOST_PAGES }
    requires code { is_gamma_or_delta code ≡ true }
    ensures count { IfOk result (λ places. length places ≡ n + 1) }
    ensures places { IfOk result (λ places. ReadsOffsets code n (bits_of bytes.now) (Ok places)) }
    ensures refused { IfErr result (λ e. IfWord e (λ w. ReadsOffsets code n (bits_of bytes.now) (Err w))) }
{
    let mut cursor = Cursor::new(Bits::of(bytes), 0);
    match read_from(alloc, &mut cursor, n, code) {
        Ok(offsets) => Ok(offsets),
        Err(error) => Err(error_of(error)),
    }
}

// Why bits in memory were not read. They refuse no word.
fn error_of(error: ReadError<OffsetWord, Infallible>) -> OffsetsError
    ensures { result ≡ known_error error }
{
    match error {
        ReadError::Fault(word) => OffsetsError::Word(word),
        ReadError::Memory => OffsetsError::Memory,
        ReadError::Refused(never) => match never {},
    }
}

// Reads the offsets from any source of words, which stands at its first bit.
pub(crate) fn read_from<S: Source>(
    alloc: Global,
    source: &mut S,
    n: u64,
    code: Code,
) -> Result<Offsets, ReadError<OffsetWord, S::Refusal>>
    requires start { S.offset source.old ≡ 0 }
    requires pages { n ≤ MOST_PAGES }
    requires code { is_gamma_or_delta code ≡ true }
    ensures count { IfOk result (λ places. length places ≡ n + 1) }
    ensures later { S.later source.old source.new }
    ensures refused { OnRefusal result (S.caused source.old source.new) }
    ensures reads { (bits : List Bool) → S.reads_from source.old bits
        → IfOk result (λ places. ReadsOffsets code n bits (Ok places)) }
    ensures fault { (bits : List Bool) → S.reads_from source.old bits
        → OnFault result (λ w. ReadsOffsets code n bits (Err w)) }
{
    let mut words = OffsetWords::new(n, code);
    let mut offsets = Offsets::new(alloc);
    for _word in 0..n + 1 {
        let offset = words.next(source)?;
        offsets.push(offset)?;
    }
    words.finish(source)?;
    Ok(offsets)
}
