ghost use Rattle.std.specs.Prelude.{◌≡◌, option_map};
ghost use Rattle.wg_outside.specs.declared.suffixes.TheConstants.{PROPERTIES, GRAPH, OFFSETS};
ghost use Rattle.wg_outcomes.specs.Names.{suffix_of};

use crate::Input;
use wg_outside::{GRAPH, OFFSETS, PROPERTIES};

/// What the name of one of an archive's files ends in; other inputs are no such file.
pub fn suffix(input: Input) -> Option<&'static str>
    ensures { option_map (λ s. s.now) result ≡ suffix_of input }
{
    match input {
        Input::Properties => Some(PROPERTIES),
        Input::Graph => Some(GRAPH),
        Input::Offsets => Some(OFFSETS),
        Input::SecondProperties | Input::SecondGraph | Input::SecondOffsets => None,
        Input::ArcList | Input::Weights | Input::Certificate | Input::Text | Input::Map => None,
    }
}
