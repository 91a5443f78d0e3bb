//! A number joined to an ascending list.
ghost use Rattle.std.specs.Prelude.{◌≡◌, ℕ, suc, ◌≤◌, List as ListOf, [], ◌∷◌, ◌++◌, length, IfOk, OnErr};
ghost use Rattle.wg_graph.specs.Joined.{Joined};

use crate::List;
use std::alloc::AllocError;

/// Adds to `out` the members from index `from` on that are below the number, and the number; answers how many members
/// are not above it. So numbers that come one after the other, ascending, are joined to an ascending list; the members
/// above the last are still to be added. All numbers together take one pass over the members. An error leaves `out` as
/// it was.
#[inline(always)]
pub fn join(out: &mut List, members: &[u64], from: usize, number: u64) -> Result<usize, AllocError>
    requires { from ≤ length members.now }
    ensures within { IfOk result (λ to. to ≤ length members.now) }
    ensures joined { IfOk result (λ to. (numbers : ListOf ℕ) (m : ℕ) → m ≤ number
        → Joined members.now numbers from out.old m
        → Joined members.now (numbers ++ number ∷ []) to out.new (suc number)) }
    ensures err { OnErr result (out.new ≡ out.old) }
{
    out.join(members, from, number)
}
