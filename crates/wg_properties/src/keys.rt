ghost use Rattle.std.specs.Prelude.{◌≡◌};
ghost use Rattle.wg_properties.specs.Pairs.{key_of};

use wg_params::{Key, key_name};

/// All keys, in the order in which their values are validated.
pub const KEYS: [Key; 10] = [
    Key::GraphClass,
    Key::Version,
    Key::Endianness,
    Key::Nodes,
    Key::Arcs,
    Key::WindowSize,
    Key::MaxRefCount,
    Key::MinIntervalLength,
    Key::ZetaK,
    Key::CompressionFlags,
];

/// The key that a name belongs to.
#[tactic(auto, unfolding(crate::specs::Pairs::key_of))]
pub fn key_of(name: &[u8]) -> Option<Key>
    ensures { result ≡ key_of name.now }
{
    KEYS.iter()
        .copied()
        .find(|key| name == key_name(*key).as_bytes())
}
