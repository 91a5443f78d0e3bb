ghost use Rattle.std.specs.Prelude.{◌≡◌, [], Some};
ghost use Rattle.wg_params.specs.Parameters.{IsWithinLimits, params_of};
ghost use Rattle.wg_words.specs.Layouts.{default_layout, layout_in};

use crate::defaults::{DEFAULT_CHAIN, DEFAULT_INTERVAL, DEFAULT_WINDOW, DEFAULT_ZETA};
use wg_params::{Codes, Layout};

/// The layout if no option says otherwise.
pub fn default_layout() -> Layout
    ensures value { result ≡ default_layout }
    ensures given { layout_in [] ≡ Some result }
    ensures within { IsWithinLimits (params_of result 0 0) }
{
    Layout {
        window: DEFAULT_WINDOW,
        chain: Some(DEFAULT_CHAIN),
        interval: DEFAULT_INTERVAL,
        zeta: DEFAULT_ZETA,
        codes: Codes::defaults(DEFAULT_ZETA),
    }
}
