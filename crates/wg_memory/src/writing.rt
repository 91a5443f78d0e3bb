//! The offsets file of places.
ghost use Rattle.std.specs.Prelude.{◌≡◌, ◌≢◌, ◌⊎◌, ℕ, ◌+◌, ◌<◌, true, length, get_or, IfErr, IfOk, IfSome, OnOk};
ghost use Rattle.wg_params.specs.Codes.{is_gamma_or_delta};
ghost use Rattle.wg_params.specs.declared.code.Code.{Code as AnyCode};
ghost use Rattle.wg_memory.specs.declared.writing.Unwritten.TheVariants as errors;
ghost use Rattle.wg_memory.specs.Writing.{Climbs, HoldsOffsets, IsUnwritten, Puts, nothing, offsets_bits, words_from};

use crate::words::{Held, fill_byte, put_word};
use thiserror::Error;
use wg_offsets::MOST_PLACE;
use wg_params::Code;

/// Why no offsets file is written.
#[derive(Clone, Copy, Debug, Drop, PartialEq, Eq, Error)]
pub enum Unwritten {
    /// The first place is not 0.
    #[error("the first place is not 0")]
    First,
    /// A place is past the last bit that a graph file may have.
    #[error("a place is too far")]
    TooFar,
    /// The record of this page would end before it begins.
    #[error("the record of page {0} ends before it begins")]
    Falls(u64),
    /// The file is longer than the array.
    #[error("no room")]
    NoRoom,
}

// Whether an offsets file can store the places.
fn sound(places: &[u64]) -> Result<(), Unwritten>
    requires some { 0 < length places.now }
    ensures first { OnOk result (get_or places.now 0 0 ≡ 0) }
    ensures climbs { OnOk result (Climbs 0 places.now) }
    ensures why { (c : AnyCode) (room : ℕ) → IfErr result (IsUnwritten c places.now room) }
    ensures fits { IfErr result (λ e. e ≢ errors.NoRoom) }
{
    if places[0] > 0 {
        return Err(Unwritten::First);
    }
    for page in 0..places.len() - 1 {
        if places[page + 1] < places[page] {
            return Err(Unwritten::Falls(page as u64));
        }
        if places[page + 1] > MOST_PLACE {
            return Err(Unwritten::TooFar);
        }
    }
    Ok(())
}

// Puts the words of the places, and zero bits up to a whole byte.
fn put_words(file: &mut [u8], code: Code, places: &[u64]) -> Option<Held>
    requires code { is_gamma_or_delta code ≡ true }
    requires climbs { Climbs 0 places.now }
    ensures puts { Puts file.old file.new nothing (words_from code 0 places.now) result }
{
    let mut held = Held {
        bytes: 0,
        part: 0,
        fill: 0,
    };
    let mut before = 0;
    for index in 0..places.len() {
        let place = places[index];
        held = put_word(file, held, code, place - before)?;
        before = place;
    }
    Some(held)
}

// Puts the words, and zero bits up to a whole byte.
fn put_all(file: &mut [u8], code: Code, places: &[u64]) -> Option<Held>
    requires code { is_gamma_or_delta code ≡ true }
    requires climbs { Climbs 0 places.now }
    ensures puts { Puts file.old file.new nothing (offsets_bits code places.now) result }
    ensures whole { IfSome result (λ h. h.fill ≡ 0) }
{
    let held = put_words(file, code, places)?;
    fill_byte(file, held)
}

/// Writes the offsets file of `n` records to the front of an array, and answers its length: of the places where each
/// record begins, and last the bit after them. If they are not those of any file, the array stays as it is; if there is
/// too little room, what stands in it has no meaning. It takes two passes, and no memory.
pub fn write_offsets(
    code: Code,
    n: u64,
    places: &[u64],
    file: &mut [u8],
) -> Result<usize, Unwritten>
    requires code { is_gamma_or_delta code ≡ true }
    requires many { length places.now ≡ n + 1 }
    ensures written { IfOk result (HoldsOffsets code n places.now file.old file.new) }
    ensures why { IfErr result (IsUnwritten code places.now (length file.old)) }
    ensures kept { IfErr result (λ e. (e ≡ errors.NoRoom) ⊎ (file.new ≡ file.old)) }
{
    sound(places)?;
    match put_all(file, code, places) {
        Some(held) => Ok(held.bytes),
        None => Err(Unwritten::NoRoom),
    }
}
