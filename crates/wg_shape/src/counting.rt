// How many arcs leave the pages of each class.

ghost use Rattle.std.specs.Prelude.{◌≡◌, ◌≤◌, length, All};
ghost use Rattle.wg_params.specs.declared.limits.TheConstants.{MOST_ARCS};
ghost use Rattle.wg_graph.specs.Ascending.{Below};
ghost use Rattle.wg_graph.specs.Digraph.{IsGraph, arc_count};
ghost use Rattle.wg_transpose.specs.SoFar.{AreCounts};
ghost use Rattle.wg_shape.specs.Classes.{reached_by};

use wg_graph::Lists;

// Counts the arcs of each page at its class.
#[tactic(auto, using(wg_transpose::proofs::Seen::member_below))]
pub(crate) fn count<L: Lists>(lists: &mut L, classes: &[u64], counts: &mut [u64])
    requires few { arc_count (L.graph lists.old) ≤ MOST_ARCS }
    requires each { length classes.now ≡ (L.graph lists.old).nodes }
    requires below { Below (length counts.old) classes.now }
    requires none { All (λ count. count ≡ 0) counts.old }
    ensures graph { L.graph lists.new ≡ L.graph lists.old }
    ensures proper { IsGraph (L.graph lists.old) }
    ensures counted { AreCounts (length counts.old) (reached_by (L.graph lists.old) classes.now) counts.new }
{
    let pages = lists.nodes();
    lists.begin();
    for page in 0..pages {
        if let Some(list) = lists.next_list() {
            counts[classes[page as usize] as usize] += list.len() as u64;
        }
    }
}
