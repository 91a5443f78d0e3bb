//! The offsets of the records.
ghost use Rattle.std.specs.Prelude.{◌≡◌, ◌≢◌, ◌⊎◌, ◌+◌, [], ◌∷◌, Ok, Err, length};
ghost use Rattle.wg_bits.specs.Bits.{bits_of};
ghost use Rattle.wg_grammar.specs.declared.fault.OffsetWord.{OffsetWord};
ghost use Rattle.wg_offsets.specs.Words.{ReadsOffsets};
ghost use Rattle.wg_c.specs.Answers.{IsMisused, OneOf};
ghost use Rattle.wg_c.specs.Faults.{of_word};
ghost use Rattle.wg_c.specs.Numbers.{params_in};

use crate::fault::word_in;
use crate::params::params_for;
use crate::status::{BAD_ARCHIVE, DONE, USAGE};
use crate::{WgFault, WgParams};
use wg_memory::read_offsets;

/// Reads an offsets file into an array, which has one place for each page and one more. The first fault of the file is
/// told; what stands in the array has no meaning then. It takes no memory.
#[unsafe(no_mangle)]
pub extern "C" fn wg_read_offsets(
    params: &WgParams,
    file: &[u8],
    places: &mut [u64],
    fault: &mut WgFault,
) -> u32
    ensures done { result ≡ 0 → ReadsOffsets (params_in params.now).offsets params.now.nodes (bits_of file.now)
        (Ok places.new) }
    ensures fault { result ≡ 9 → (w : OffsetWord)
        × ReadsOffsets (params_in params.now).offsets params.now.nodes (bits_of file.now) (Err w)
        × (fault.new ≡ of_word w) }
    ensures misused { result ≡ 2 → IsMisused params.now file.now ⊎ (length places.old ≢ params.now.nodes + 1) }
    ensures only { OneOf (0 ∷ 2 ∷ 9 ∷ []) result }
    ensures untold { (result ≡ 9) ⊎ (fault.new ≡ fault.old) }
    ensures untouched { result ≡ 2 → places.new ≡ places.old }
{
    let read = match params_for(params, file) {
        Some(read) => read,
        None => return USAGE,
    };
    if places.len() as u64 != read.nodes() + 1 {
        return USAGE;
    }
    match read_offsets(file, read.nodes(), read.offsets(), places) {
        Ok(()) => DONE,
        Err(word) => {
            *fault = word_in(word);
            BAD_ARCHIVE
        }
    }
}
