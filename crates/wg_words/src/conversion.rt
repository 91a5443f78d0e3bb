ghost use Rattle.std.specs.Prelude.{◌≡◌, IfOk, option_map};
ghost use Rattle.clap.specs.Words.{rows_of, found_of};
ghost use Rattle.wg_words.specs.Jobs.{conversion_in};
ghost use Rattle.wg_words.specs.Pairs.{converted};

use crate::Name;
use crate::options::layout_at;
use crate::values::name_at;
use clap::ArgMatches;
use std::alloc::{AllocError, Global};
use wg_params::Layout;

/// What a command is given that reads one archive and writes another.
#[derive(Drop)]
pub struct Conversion {
    /// The archive that is read.
    pub input: Name,
    /// The archive that is written.
    pub output: Name,
    /// How it is written.
    pub layout: Layout,
}

/// A conversion as the words give it, before its names are copied.
#[derive(Clone, Copy)]
pub struct Pair<'a> {
    pub input: &'a str,
    pub output: &'a str,
    pub layout: Layout,
}

/// The conversion that the words ask for: none if the two archives have the same name.
pub fn pair_at<'a>(found: &ArgMatches<'a>) -> Option<Pair<'a>>
    ensures { option_map converted result ≡ conversion_in (rows_of (found_of found.now)) }
{
    let input = name_at(found, "in")?;
    let output = name_at(found, "out")?;
    if input == output {
        return None;
    }
    let layout = layout_at(found)?;
    Some(Pair {
        input,
        output,
        layout,
    })
}

/// The conversion with names of its own.
pub fn copied(alloc: Global, pair: Pair<'_>) -> Result<Conversion, AllocError>
    ensures { IfOk result (λ c. c ≡ converted pair.entry) }
{
    let (input, output) = two_names(alloc, pair.input, pair.output)?;
    Ok(Conversion {
        input,
        output,
        layout: pair.layout,
    })
}

/// Copies of two names.
pub fn two_names(alloc: Global, first: &str, second: &str) -> Result<(Name, Name), AllocError>
    ensures { IfOk result (λ names. names ≡ (first.now, second.now)) }
{
    let first = Name::new(alloc, first)?;
    let second = Name::new(alloc, second)?;
    Ok((first, second))
}
