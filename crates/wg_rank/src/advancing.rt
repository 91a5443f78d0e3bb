// One round, over the bounds as slices.

ghost use Rattle.std.specs.Prelude.{◌≡◌, ◌*◌, ◌≤◌, ◌<◌, length, All};
ghost use Rattle.wg_params.specs.declared.limits.TheConstants.{MOST_PAGES, MOST_DAMPING};
ghost use Rattle.wg_graph.specs.Digraph.{IsGraph};
ghost use Rattle.wg_rank.specs.Sum.{sum_below};
ghost use Rattle.wg_rank.specs.Rank.{lower, clipped};
ghost use Rattle.wg_rank.specs.Intervals.{IsTable, by_page};
ghost use Rattle.wg_rank.specs.Weights.{AreWeights, weights_or_ones};
ghost use Rattle.wg_rank.specs.declared.limits.TheConstants.{UNITS};

use crate::UNITS;
use crate::gathering::Gather;
use crate::settling::{cut, settle, total};

// Puts the new bounds in place of the old ones. If no weights are given, each page has the weight 1.
pub(crate) fn advance<G: Gather>(
    source: &mut G,
    damping: u64,
    low: &mut [u128],
    high: &mut [u128],
    inflows: &mut [u128],
    weights: &[u64],
)
    requires pages { (G.graph source.old).nodes ≡ length low.old }
    requires few { length low.old ≤ MOST_PAGES }
    requires damped { damping ≤ MOST_DAMPING }
    requires high_pages { length high.old ≡ length low.old }
    requires inflow_pages { length inflows.old ≡ 2 * length low.old }
    requires weights { AreWeights (length low.old) (weights_or_ones (length low.old) weights.now) }
    requires low_total { sum_below (length low.old) (by_page low.old) ≤ UNITS }
    requires high_units { All (λ x. x ≤ UNITS) high.old }
    ensures graph { G.graph source.new ≡ G.graph source.old }
    ensures proper { IsGraph (G.graph source.old) }
    ensures low { IsTable low.new (G.graph source.old).nodes
        (lower (G.graph source.old) damping (by_page (weights_or_ones (length low.old) weights.now)) (by_page low.old)) }
    ensures high { IsTable high.new (G.graph source.old).nodes
        (clipped (G.graph source.old) damping (by_page (weights_or_ones (length low.old) weights.now)) (by_page low.old)
        (by_page high.old)) }
    ensures low_total { sum_below (length low.old) (by_page low.new) ≤ UNITS }
    ensures high_units { All (λ x. x ≤ UNITS) high.new }
{
    let dangling = source.share(low, high, inflows);
    settle(source, inflows, low, high, damping, dangling, weights);
    cut(high, low, UNITS - total(low));
}
