//! Numbers that are written in whole pieces, past the last of them, where what stands behind has no meaning.
ghost use Rattle.std.specs.Prelude.{◌≡◌, ℕ, List, ◌+◌, ◌-◌, ◌^◌, ◌<◌, ◌≤◌, ◌∷◌, ◌++◌, length, take, drop};
ghost use Rattle.std.specs.List.{range_with_len};
ghost use Rattle.wg_graph.specs.Ascending.{Ascends, Below};
ghost use Rattle.wg_graph.specs.declared.pieces.TheConstants.{PIECE};

// How many numbers are written at a time.
pub(crate) const PIECE: usize = 8;

// Copies a piece to this place.
#[inline(always)]
pub(crate) fn copy_piece(to: &mut [u64], at: usize, from: &[u64])
    requires to { at + PIECE ≤ length to.old }
    requires from { PIECE ≤ length from.now }
    ensures length { length to.new ≡ length to.old }
    ensures copied { take (at + PIECE) to.new ≡ take at to.old ++ take PIECE from.now }
    ensures kept { drop (at + PIECE) to.new ≡ drop (at + PIECE) to.old }
{
    to[at..at + PIECE].copy_from_slice(&from[..PIECE]);
}

// Copies the first numbers, so many, to this place and on: up to a piece without a call, if there is a piece.
#[inline(always)]
pub(crate) fn copy(to: &mut [u64], at: usize, from: &[u64], count: usize)
    requires to { at + count + PIECE ≤ length to.old }
    requires from { count ≤ length from.now }
    ensures length { length to.new ≡ length to.old }
    ensures copied { take (at + count) to.new ≡ take at to.old ++ take count from.now }
    ensures kept { drop (at + count + PIECE) to.new ≡ drop (at + count + PIECE) to.old }
{
    if count <= PIECE && PIECE <= from.len() {
        copy_piece(to, at, from);
        return;
    }
    to[at..at + count].copy_from_slice(&from[..count]);
}

// Writes a piece of numbers that follow one another.
#[inline(always)]
fn write_piece(to: &mut [u64], at: usize, first: u64)
    requires to { at + PIECE ≤ length to.old }
    requires short { first < 2 ^ 64 - PIECE }
    ensures length { length to.new ≡ length to.old }
    ensures written { take (at + PIECE) to.new ≡ take at to.old ++ range_with_len first PIECE }
    ensures kept { drop (at + PIECE) to.new ≡ drop (at + PIECE) to.old }
{
    'piece: for index in 0..PIECE {
        to[at + index] = first + index as u64;
    }
}

// Writes so many numbers that follow one another, to this place and on.
#[inline(always)]
pub(crate) fn write_run(to: &mut [u64], at: usize, first: u64, count: usize)
    requires to { at + count + PIECE ≤ length to.old }
    requires short { first + count ≤ 2 ^ 63 }
    ensures length { length to.new ≡ length to.old }
    ensures written { take (at + count) to.new ≡ take at to.old ++ range_with_len first count }
    ensures kept { drop (at + count + PIECE) to.new ≡ drop (at + count + PIECE) to.old }
{
    let mut done = 0;
    'pieces: while done < count {
        write_piece(to, at + done, first + done as u64);
        done += PIECE;
    }
}

// Copies numbers from one place to another before it, up to one that is not below the bound, and tells how many.
#[inline(always)]
pub(crate) fn copy_below(numbers: &mut [u64], to: usize, from: usize, bound: u64) -> usize
    requires order { to < from }
    requires from { from ≤ length numbers.old }
    ensures length { length numbers.new ≡ length numbers.old }
    ensures within { from + result ≤ length numbers.old }
    ensures below { Below bound (take result (drop from numbers.old)) }
    ensures last { (x : ℕ) (others : List ℕ) → drop (from + result) numbers.old ≡ x ∷ others → bound ≤ x }
    ensures copied { take (to + result) numbers.new ≡ take to numbers.old ++ take result (drop from numbers.old) }
    ensures kept { drop (from + result) numbers.new ≡ drop (from + result) numbers.old }
{
    let mut done = 0;
    'below: while from + done < numbers.len() && numbers[from + done] < bound {
        numbers[to + done] = numbers[from + done];
        done += 1;
    }
    done
}

// Copies numbers before one place to before another, from the last down to one that is below the bound, and tells how
// many.
#[inline(always)]
pub(crate) fn copy_above(numbers: &mut [u64], from: usize, to: usize, bound: u64) -> usize
    requires order { from < to }
    requires to { to ≤ length numbers.old }
    requires ascends { Ascends 0 (take from numbers.old) }
    ensures length { length numbers.new ≡ length numbers.old }
    ensures within { result ≤ from }
    ensures below { Below bound (take (from - result) numbers.old) }
    ensures above { Ascends bound (drop (from - result) (take from numbers.old)) }
    ensures kept { take (from - result) numbers.new ≡ take (from - result) numbers.old }
    ensures copied { drop (to - result) numbers.new
        ≡ drop (from - result) (take from numbers.old) ++ drop to numbers.old }
{
    let mut done = 0;
    'above: while done < from && numbers[from - 1 - done] >= bound {
        numbers[to - 1 - done] = numbers[from - 1 - done];
        done += 1;
    }
    done
}
