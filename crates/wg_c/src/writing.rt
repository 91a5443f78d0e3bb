//! The offsets file of places.
ghost use Rattle.std.specs.Prelude.{◌≡◌, ◌≢◌, ◌⊎◌, ℕ, ◌+◌, ◌*◌, ◌<◌, [], ◌∷◌, length, get_or};
ghost use Rattle.wg_offsets.specs.declared.places.TheConstants.{MOST_PLACE};
ghost use Rattle.wg_memory.specs.Answers.{Falls};
ghost use Rattle.wg_memory.specs.Writing.{HoldsOffsets, offsets_bits};
ghost use Rattle.wg_c.specs.Answers.{IsMisused, OneOf};
ghost use Rattle.wg_c.specs.Numbers.{params_in};

use crate::WgParams;
use crate::params::params_for;
use crate::status::{BAD_PLACES, DONE, NO_ROOM, USAGE};
use wg_memory::{Unwritten, write_offsets};

/// Writes the offsets file of places to the front of an array, and tells its length: there is one place for each page
/// and one more, the first is 0, and none is past the last bit that a graph file may have. If there is too little room,
/// what stands in the array has no meaning. It takes no memory.
#[unsafe(no_mangle)]
pub extern "C" fn wg_write_offsets(
    params: &WgParams,
    places: &[u64],
    file: &mut [u8],
    written: &mut u64,
) -> u32
    ensures done { result ≡ 0 → HoldsOffsets (params_in params.now).offsets params.now.nodes places.now file.old file.new
        written.new }
    ensures no_room { result ≡ 17
        → 8 * length file.old < length (offsets_bits (params_in params.now).offsets places.now) }
    ensures falls { result ≡ 18 → (page : ℕ) × Falls places.now page }
    ensures misused { result ≡ 2 → IsMisused params.now file.old ⊎ (length places.now ≢ params.now.nodes + 1)
        ⊎ (get_or places.now 0 0 ≢ 0) ⊎ ((i : ℕ) × (MOST_PLACE < get_or places.now i 0)) }
    ensures only { OneOf (0 ∷ 2 ∷ 17 ∷ 18 ∷ []) result }
    ensures untold { (result ≡ 0) ⊎ (written.new ≡ written.old) }
    ensures untouched { (result ≡ 0) ⊎ ((result ≡ 17) ⊎ (file.new ≡ file.old)) }
{
    let read = match params_for(params, file) {
        Some(read) => read,
        None => return USAGE,
    };
    if places.len() as u64 != read.nodes() + 1 {
        return USAGE;
    }
    match write_offsets(read.offsets(), read.nodes(), places, file) {
        Ok(count) => {
            *written = count as u64;
            DONE
        }
        Err(Unwritten::First) => USAGE,
        Err(Unwritten::TooFar) => USAGE,
        Err(Unwritten::Falls(_)) => BAD_PLACES,
        Err(Unwritten::NoRoom) => NO_ROOM,
    }
}
