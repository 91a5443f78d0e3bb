ghost use Rattle.std.specs.Prelude.{◌≡◌, ◌++◌};

use std::marker::Model;
use wg_words::Name;

/// The name of a file, in two parts: a line that names it takes no memory.
///
/// It is seen as the whole name.
#[derive(Drop)]
pub(crate) struct FileName<'a> {
    pub(crate) stem: &'a str,
    pub(crate) suffix: &'a str,
}

impl<'a> Model for FileName<'a> {
    ghost use Rattle.std.specs.Prelude.{List, ℕ, ◌++◌};

    ghost Value = { List ℕ };

    ghost view = { λ name. name.stem.now ++ name.suffix.now };
}

impl<'a> FileName<'a> {
    pub(crate) fn of(name: &'a Name) -> FileName<'a>
        ensures { result ≡ name.now }
    {
        FileName::with_suffix(name, "")
    }

    /// The name of one of an archive's files.
    pub(crate) fn with_suffix(base: &'a Name, suffix: &'static str) -> FileName<'a>
        ensures { result ≡ base.now ++ suffix.now }
    {
        FileName {
            stem: base.as_str(),
            suffix,
        }
    }
}
