// Parameters in the default codes.
ghost use Rattle.std.specs.Prelude.{◌≡◌, IfOk};
ghost use Rattle.wg_vectors.specs.Usual.{usual_parameters};

use wg_params::{BadParam, Codes, Layout, Params};

/// The parameters of an archive in the default codes, with k = 3.
pub fn usual(
    nodes: u64,
    arcs: u64,
    window: u64,
    chain: u64,
    interval: u64,
) -> Result<Params, BadParam>
    ensures { IfOk result (λ p. p ≡ usual_parameters nodes arcs window chain interval) }
{
    let layout = Layout {
        window,
        chain: Some(chain),
        interval,
        zeta: 3,
        codes: Codes::defaults(3),
    };
    Params::with_layout(nodes, arcs, layout)
}
