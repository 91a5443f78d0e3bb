ghost use Rattle.std.specs.Prelude.{◌≡◌};
ghost use Rattle.wg_params.specs.Keys.{name_of};

use thiserror::Error;

/// A key of the properties of an archive.
#[derive(Clone, Copy, Debug, PartialEq, Eq)]
pub enum Key {
    /// Which format it is.
    GraphClass,
    /// The version of the format.
    Version,
    /// The order of the bytes of a word.
    Endianness,
    /// How many pages there are.
    Nodes,
    /// How many arcs there are.
    Arcs,
    /// How many pages back a reference may reach.
    WindowSize,
    /// How many references may follow one another.
    MaxRefCount,
    /// The least length of an interval.
    MinIntervalLength,
    /// The parameter k of zeta codes.
    ZetaK,
    /// The codes that are not the default ones.
    CompressionFlags,
}

/// The name of a key, as a properties text has it.
#[tactic(auto, unfolding(crate::specs::Keys::name_of))]
pub fn key_name(key: Key) -> &'static str
    ensures { result.now ≡ name_of key }
{
    match key {
        Key::GraphClass => "graphclass",
        Key::Version => "version",
        Key::Endianness => "endianness",
        Key::Nodes => "nodes",
        Key::Arcs => "arcs",
        Key::WindowSize => "windowsize",
        Key::MaxRefCount => "maxrefcount",
        Key::MinIntervalLength => "minintervallength",
        Key::ZetaK => "zetak",
        Key::CompressionFlags => "compressionflags",
    }
}

/// The first key whose value is out of its limits, in the order in which the keys are declared.
#[derive(Clone, Copy, Debug, PartialEq, Eq, Error)]
#[error("{name} is out of its limits", name = key_name(*.key))]
pub struct BadParam {
    /// The key of that value.
    pub key: Key,
}
