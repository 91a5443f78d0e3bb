ghost use Rattle.std.specs.Prelude.{◌≡◌, ◌≤◌};
ghost use Rattle.wg_params.specs.Parameters.{IsWithinLimits, params_of};
ghost use Rattle.wg_params.specs.declared.limits.TheConstants.{MOST_ARCS, MOST_PAGES};

use wg_params::{Layout, Params};

/// The parameters of an archive of so many pages and arcs in this layout.
pub fn params_of(layout: &Layout, nodes: u64, arcs: u64) -> Params
    requires layout { IsWithinLimits (params_of layout.now 0 0) }
    requires nodes { nodes ≤ MOST_PAGES }
    requires arcs { arcs ≤ MOST_ARCS }
    ensures { result ≡ params_of layout.now nodes arcs }
{
    match Params::with_layout(nodes, arcs, *layout) {
        Ok(params) => params,
        Err(_) => unreachable!(),
    }
}
