//! Words of gamma and delta, put into an array of the caller one after the other.
ghost use Rattle.std.specs.Prelude.{◌≡◌, ◌+◌, ◌^◌, ◌<◌, ◌≤◌, true, [], ◌∷◌, ◌++◌, length, take, drop, IfSome};
ghost use Rattle.wg_params.specs.Codes.{is_gamma_or_delta};
ghost use Rattle.wg_bits.specs.Bits.{low_bits};
ghost use Rattle.wg_codes.specs.Words.{delta, gamma, highest, word};
ghost use Rattle.wg_offsets.specs.declared.places.TheConstants.{MOST_PLACE};
ghost use Rattle.wg_memory.specs.Writing.{Puts, filling, held_bits};

use wg_params::Code;

/// What an array holds: whole bytes, and the bits behind them, which are no byte yet.
#[derive(Clone, Copy, Drop)]
pub struct Held {
    pub bytes: usize,
    // those bits are its low `fill`, fewer than 8; what stands above them says nothing
    pub part: u64,
    pub fill: u32,
}

// Puts a byte into its place.
#[inline(always)]
fn put_byte(file: &mut [u8], at: usize, byte: u8)
    requires { at < length file.old }
    ensures put { take (at + 1) file.new ≡ take at file.old ++ byte ∷ [] }
    ensures rest { drop (at + 1) file.new ≡ drop (at + 1) file.old }
    ensures long { length file.new ≡ length file.old }
{
    file[at] = byte;
}

// Puts the low `count` bits of a number, the highest of them first.
#[inline(always)]
fn put_bits(file: &mut [u8], held: Held, value: u64, count: u32) -> Option<Held>
    requires within { held.bytes ≤ length file.old }
    requires few { held.fill < 8 }
    requires count { count ≤ 56 }
    requires value { value < 2 ^ count }
    ensures { Puts file.old file.new held (low_bits count value) result }
{
    let part = (held.part << count) + value;
    let mut fill = held.fill + count;
    let mut bytes = held.bytes;
    while fill >= 8 {
        if bytes == file.len() {
            return None;
        }
        fill -= 8;
        put_byte(file, bytes, ((part >> fill) % 256) as u8);
        bytes += 1;
    }
    Some(Held { bytes, part, fill })
}

// The index of the highest one of the number after a value: a word of gamma has as many bits before this one as behind.
#[inline(always)]
fn index_of(v: u64) -> u32
    requires { v ≤ MOST_PLACE }
    ensures index { result ≡ highest (v + 1) }
    ensures low { result ≤ 49 }
{
    (wg_codes::length(Code::Gamma, v) / 2) as u32
}

#[inline(always)]
fn put_gamma(file: &mut [u8], held: Held, v: u64) -> Option<Held>
    requires within { held.bytes ≤ length file.old }
    requires few { held.fill < 8 }
    requires value { v ≤ MOST_PLACE }
    ensures { Puts file.old file.new held (gamma v) result }
{
    let index = index_of(v);
    let head = put_bits(file, held, 0, index)?;
    put_bits(file, head, v + 1, index + 1)
}

#[inline(always)]
fn put_delta(file: &mut [u8], held: Held, v: u64) -> Option<Held>
    requires within { held.bytes ≤ length file.old }
    requires few { held.fill < 8 }
    requires value { v ≤ MOST_PLACE }
    ensures { Puts file.old file.new held (delta v) result }
{
    let index = index_of(v);
    let head = put_gamma(file, held, index as u64)?;
    put_bits(file, head, v + 1 - (1 << index), index)
}

/// Puts the word of a value behind what the array holds, unless there is no room for it.
#[inline(always)]
pub fn put_word(file: &mut [u8], held: Held, code: Code, v: u64) -> Option<Held>
    requires within { held.bytes ≤ length file.old }
    requires few { held.fill < 8 }
    requires code { is_gamma_or_delta code ≡ true }
    requires value { v ≤ MOST_PLACE }
    ensures { Puts file.old file.new held (word code v) result }
{
    match code {
        Code::Gamma => put_gamma(file, held, v),
        Code::Delta => put_delta(file, held, v),
        _ => unreachable!(),
    }
}

/// Puts zero bits up to a whole byte, unless there is no room for it.
pub fn fill_byte(file: &mut [u8], held: Held) -> Option<Held>
    requires within { held.bytes ≤ length file.old }
    requires few { held.fill < 8 }
    ensures puts { Puts file.old file.new held (filling (held_bits file.old held)) result }
    ensures whole { IfSome result (λ h. h.fill ≡ 0) }
{
    put_bits(file, held, 0, (8 - held.fill) % 8)
}
