// Where a list stands in an array of lists that stand one after the other.

ghost use Rattle.std.specs.Prelude.{◌≡◌, ◌∷◌, ◌<◌, length, get_or};

// Where list `v` begins and ends, of lists that end at these places: it begins where the one before it ends.
#[inline(always)]
pub(crate) fn span(ends: &[u64], v: u64) -> (usize, usize)
    requires { v < length ends.now }
    ensures begin { result.0 ≡ get_or (0 ∷ ends.now) v 0 }
    ensures end { result.1 ≡ get_or ends.now v 0 }
{
    let end = ends[v as usize] as usize;
    if v == 0 {
        return (0, end);
    }
    (ends[v as usize - 1] as usize, end)
}
