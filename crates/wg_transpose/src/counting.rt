// How many arcs lead to each page.

ghost use Rattle.std.specs.Prelude.{◌≡◌, ℕ, ◌+◌, ◌<◌, ◌≤◌, length, slice_index, cond, All};
ghost use Rattle.wg_params.specs.declared.limits.TheConstants.{MOST_PAGES};
ghost use Rattle.wg_graph.specs.Ascending.{Ascends, Below};
ghost use Rattle.wg_graph.specs.Numbers.{is_in};
ghost use Rattle.wg_graph.specs.Digraph.{IsGraph};
ghost use Rattle.wg_transpose.specs.Transposed.{predecessors};
ghost use Rattle.wg_transpose.specs.SoFar.{AreCounts};

use wg_graph::Lists;

/// Counts one arc more to each page of a list, which is that of one page.
#[tactic(auto, using(crate::proofs::Seen::member_below, crate::proofs::Steps::count_step))]
pub fn count_arcs(list: &[u64], counts: &mut [u64])
    requires ascends { Ascends 0 list.now }
    requires below { Below (length counts.old) list.now }
    requires room { All (λ count. count < MOST_PAGES) counts.old }
    ensures each { (v : ℕ) → v < length counts.old
        → slice_index counts.new v ≡ slice_index counts.old v + cond (is_in v list.now) 1 0 }
{
    for target in list {
        counts[*target as usize] += 1;
    }
}

// Counts all arcs, each at its target, in one pass over the lists.
pub(crate) fn count<L: Lists>(lists: &mut L, counts: &mut [u64])
    requires few { (L.graph lists.old).nodes ≤ MOST_PAGES }
    requires pages { length counts.old ≡ (L.graph lists.old).nodes }
    requires none { All (λ count. count ≡ 0) counts.old }
    ensures graph { L.graph lists.new ≡ L.graph lists.old }
    ensures proper { IsGraph (L.graph lists.old) }
    ensures counted { AreCounts (L.graph lists.old).nodes (predecessors (L.graph lists.old)) counts.new }
{
    let pages = lists.nodes();
    lists.begin();
    for _page in 0..pages {
        if let Some(list) = lists.next_list() {
            count_arcs(list, counts);
        }
    }
}
