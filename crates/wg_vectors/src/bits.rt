// Bits that are spelled as a text.
ghost use Rattle.std.specs.Prelude.{◌≡◌, ℕ, ◌^◌, ◌<◌, [], ◌∷◌, ◌++◌, false, replicate, IfOk, OnOk};
ghost use Rattle.wg_bits.specs.Bits.{bits_of, low_bits};
ghost use Rattle.wg_vectors.specs.Spelled.{bits_in};

use std::alloc::{AllocError, Global};

// Adds a bit to whole bytes and the `fill` bits of a part behind them.
fn add(bytes: &mut Vec<u8>, part: &mut u8, fill: &mut u32, bit: bool) -> Result<(), AllocError>
    requires fill { fill.old < 8 }
    requires part { part.old < 2 ^ fill.old }
    ensures fill { OnOk result (fill.new < 8) }
    ensures part { OnOk result (part.new < 2 ^ fill.new) }
    ensures bits { OnOk result (bits_of bytes.new.items ++ low_bits fill.new part.new
        ≡ bits_of bytes.old.items ++ low_bits fill.old part.old ++ bit ∷ []) }
{
    let more = 2 * *part + bit as u8;
    if *fill == 7 {
        bytes.push(more)?;
        *part = 0;
        *fill = 0;
    } else {
        *part = more;
        *fill += 1;
    }
    Ok(())
}

/// The bytes whose bits a text spells: a one for each `1` and a zero for each other letter but blanks, in order, and
/// then zeros to a whole byte.
pub fn bytes_of(alloc: Global, text: &str) -> Result<Vec<u8>, AllocError>
    ensures { IfOk result (λ bytes. (k : ℕ) × (k < 8) × (bits_of bytes.items ≡ bits_in text.now ++ replicate k false)) }
{
    let mut bytes = Vec::new(alloc);
    let mut part = 0;
    let mut fill = 0;
    for letter in text.as_bytes() {
        if *letter != b' ' {
            add(&mut bytes, &mut part, &mut fill, *letter == b'1')?;
        }
    }
    if fill > 0 {
        bytes.push(part << (8 - fill))?;
    }
    Ok(bytes)
}
