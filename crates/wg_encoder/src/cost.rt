// The bits of fields, counted without writing them.
ghost use Rattle.std.specs.Prelude.{◌≡◌, ◌≤◌, ◌↔◌, [], ◌∷◌, IsTrue};
ghost use Rattle.wg_params.specs.Codes.{IsCode};
ghost use Rattle.wg_codes.specs.Words.{top};
ghost use Rattle.wg_grammar.specs.declared.fault.Field.{Field};
ghost use Rattle.wg_greedy.specs.Fields.{written};
ghost use Rattle.wg_encoder.specs.Cost.{room_after};

use wg_codes::{holds, length};
use wg_params::Code;

// Whether the code holds the value. Each code holds what is below 2 ^ 32, as nearly all values are.
#[inline(always)]
fn has_word(code: Code, value: u64) -> bool
    requires { IsCode code }
    ensures { IsTrue result ↔ (value ≤ top code) }
{
    if value < 1 << 32 {
        return true;
    }
    holds(code, value)
}

/// How much of a room of so many bits is left by one field: nothing, if it fills the room or its value has no word.
/// So no sum of bits can overflow, and whoever finds nothing left need not go on.
#[inline(always)]
pub(crate) fn room_after(room: u64, code: Code, value: u64) -> u64
    requires { IsCode code }
    ensures { (f : Field) → result ≡ room_after room (written f code value ∷ []) }
{
    if has_word(code, value) {
        room.saturating_sub(length(code, value))
    } else {
        0
    }
}
