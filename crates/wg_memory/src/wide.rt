//! Numbers of 128 bits in arrays of the caller, two words each.
ghost use Rattle.std.specs.Prelude.{◌≡◌, ◌+◌, ◌*◌, ◌<◌, ℕ, length, IfOk};
ghost use Rattle.wg_memory.specs.Ranking.{AreWide, wide_at};

use std::alloc::{AllocError, Global};

/// The two words of a number, the lower one first.
#[inline(always)]
fn put_pair(words: &mut [u64], v: usize, number: u128)
    requires { 2 * v + 1 < length words.old }
    ensures long { length words.new ≡ length words.old }
    ensures here { wide_at words.new v ≡ number }
    ensures before { (u : ℕ) → u < v → wide_at words.new u ≡ wide_at words.old u }
{
    words[2 * v] = (number % (1 << 64)) as u64;
    words[2 * v + 1] = (number / (1 << 64)) as u64;
}

/// Puts numbers into an array of twice as many words, the lower word of each first.
pub fn put_wide(numbers: &[u128], words: &mut [u64])
    requires { length words.old ≡ 2 * length numbers.now }
    ensures { AreWide words.new numbers.now }
{
    for v in 0..numbers.len() {
        put_pair(words, v, numbers[v]);
    }
}

/// The numbers of an array, 16 bytes each.
pub fn wide_of(alloc: Global, words: &[u64], count: usize) -> Result<Vec<u128>, AllocError>
    requires { length words.now ≡ 2 * count }
    ensures { IfOk result (λ n. AreWide words.now n.items) }
{
    let mut numbers = Vec::new(alloc);
    for v in 0..count {
        numbers.push(words[2 * v] as u128 + words[2 * v + 1] as u128 * (1 << 64))?;
    }
    Ok(numbers)
}
