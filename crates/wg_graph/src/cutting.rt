// Lists that stand one after the other in one array, with the end of each: what a graph and its builder hold.

ghost use Rattle.std.specs.Prelude.{◌≡◌, ◌+◌, ◌<◌, ◌≤◌, ◌^◌, [], ◌∷◌, ◌++◌, length, take, get_or, OnOk, OnErr};
ghost use Rattle.wg_graph.specs.Growing.{padded, with_arc};
ghost use Rattle.wg_graph.specs.Pieces.{pieces, EndsAt};

use std::alloc::AllocError;

// Where list number x begins, and where it ends.
#[inline(always)]
fn span(ends: &[u64], all: &[u64], x: usize) -> (usize, usize)
    requires there { x < length ends.now }
    requires whole { EndsAt 0 ends.now (length all.now) }
    ensures from { result.0 ≡ get_or (0 ∷ ends.now) x 0 }
    ensures to { result.1 ≡ get_or ends.now x 0 }
    ensures ordered { result.0 ≤ result.1 }
    ensures within { result.1 ≤ length all.now }
{
    let to = ends[x] as usize;
    if x == 0 {
        return (0, to);
    }
    (ends[x - 1] as usize, to)
}

// List number x.
#[inline(always)]
pub fn piece<'a>(ends: &[u64], all: &'a [u64], x: usize) -> &'a [u64]
    requires there { x < length ends.now }
    requires whole { EndsAt 0 ends.now (length all.now) }
    ensures { result.now ≡ get_or (pieces 0 ends.now all.now) x [] }
{
    let (from, to) = span(ends, all, x);
    &all[from..to]
}

// Lets empty lists follow, up to n lists.
#[inline(always)]
pub fn pad(ends: &mut Vec<u64>, all: &[u64], n: usize) -> Result<(), AllocError>
    requires more { length ends.old.items ≤ n }
    requires whole { EndsAt 0 ends.old.items (length all.now) }
    ensures whole { OnOk result (EndsAt 0 ends.new.items (length all.now)) }
    ensures ok { OnOk result (pieces 0 ends.new.items all.now ≡ padded n (pieces 0 ends.old.items all.now)) }
    ensures prefix { OnOk result (take (length ends.old.items) ends.new.items ≡ ends.old.items) }
    ensures count { OnOk result (length ends.new.items ≡ n) }
    ensures err { OnErr result (ends.new.items ≡ ends.old.items) }
{
    ends.resize(n, all.len() as u64)?;
    Ok(())
}

// Adds v at the end of list x, and before it the empty lists up to x.
#[inline(always)]
pub fn add(ends: &mut Vec<u64>, all: &mut Vec<u64>, x: usize, v: u64) -> Result<(), AllocError>
    requires last { length ends.old.items ≤ x + 1 }
    requires few { x < 2 ^ 60 }
    requires whole { EndsAt 0 ends.old.items (length all.old.items) }
    ensures whole { OnOk result (EndsAt 0 ends.new.items (length all.new.items)) }
    ensures ok { OnOk result (pieces 0 ends.new.items all.new.items
        ≡ with_arc (pieces 0 ends.old.items all.old.items) x v) }
    ensures err_ends { OnErr result (ends.new.items ≡ ends.old.items) }
    ensures err_all { OnErr result (all.new.items ≡ all.old.items) }
{
    let begun = ends.len();
    pad(ends, all.as_slice(), x + 1)?;
    match all.push(v) {
        Ok(()) => {
            ends[x] += 1;
            Ok(())
        }
        Err(_) => {
            ends.truncate(begun);
            Err(AllocError)
        }
    }
}

// Adds a list.
pub fn append(ends: &mut Vec<u64>, all: &mut Vec<u64>, list: &[u64]) -> Result<(), AllocError>
    requires whole { EndsAt 0 ends.old.items (length all.old.items) }
    ensures whole { OnOk result (EndsAt 0 ends.new.items (length all.new.items)) }
    ensures ok { OnOk result (pieces 0 ends.new.items all.new.items ≡ pieces 0 ends.old.items all.old.items
        ++ list.now ∷ []) }
    ensures err_ends { OnErr result (ends.new.items ≡ ends.old.items) }
    ensures err_all { OnErr result (all.new.items ≡ all.old.items) }
{
    let before = all.len();
    all.extend_from_slice(list)?;
    match ends.push(all.len() as u64) {
        Ok(()) => Ok(()),
        Err(_) => {
            all.truncate(before);
            Err(AllocError)
        }
    }
}
