//! Arrays of the caller that are filled from the front.
ghost use Rattle.std.specs.Prelude.{◌≡◌, ◌+◌, ◌<◌, ◌≤◌, ◌++◌, ◌∷◌, [], length, take, get_or};

/// Puts numbers into an array, behind the first so many, and answers how many there are then.
#[inline(always)]
pub fn put(all: &mut [u64], before: usize, list: &[u64]) -> usize
    requires { before + length list.now ≤ length all.old }
    ensures count { result ≡ before + length list.now }
    ensures put { take result all.new ≡ take before all.old ++ list.now }
    ensures long { length all.new ≡ length all.old }
{
    let after = before + list.len();
    all[before..after].copy_from_slice(list);
    after
}

/// Puts one number into an array, behind the first so many.
#[inline(always)]
pub fn put_one(array: &mut [u64], before: usize, number: u64)
    requires { before < length array.old }
    ensures put { take (before + 1) array.new ≡ take before array.old ++ number ∷ [] }
    ensures here { get_or array.new before 0 ≡ number }
    ensures long { length array.new ≡ length array.old }
{
    array[before] = number;
}
