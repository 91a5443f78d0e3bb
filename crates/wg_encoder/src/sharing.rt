//! Whether two lists have a common member.
ghost use Rattle.std.specs.Prelude.{◌≡◌};
ghost use Rattle.wg_graph.specs.Ascending.{Ascends};
ghost use Rattle.wg_encoder.specs.Sharing.{shares};

/// Whether some number stands in both lists. It takes no memory, and one pass over both, which ends at the first such
/// number, or if one of the lists ends.
#[inline(always)]
pub(crate) fn shares(list: &[u64], referenced: &[u64]) -> bool
    requires list { Ascends 0 list.now }
    requires referenced { Ascends 0 referenced.now }
    ensures { result ≡ shares list.now referenced.now }
{
    let mut i = 0;
    let mut j = 0;
    'merge: while i < list.len() && j < referenced.len() {
        let y = list[i];
        let x = referenced[j];
        if y == x {
            return true;
        }
        if y < x {
            i += 1;
        } else {
            j += 1;
        }
    }
    false
}
