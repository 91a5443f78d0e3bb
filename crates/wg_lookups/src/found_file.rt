//! Files of an archive that are read in pieces, from any place.
ghost use Rattle.std.specs.Prelude.{◌≡◌, IfOk, IfErr, Err, Some, IsSome, IsTrue};
ghost use Rattle.std.specs.FinMap as map;
ghost use Rattle.wg_outside.specs.Outside.{NonDecreasing};
ghost use Rattle.wg_outcomes.specs.Names.{file_of, suffix_of};
ghost use Rattle.wg_readings.specs.Finding.{IsOpenOn};
ghost use Rattle.wg_readings.specs.Loading.{LoadsBy};

use std::alloc::Global;
use wg_outcomes::{Ending, Input, suffix};
use wg_outside::Depot;
use wg_readings::unread;
use wg_source::Stretch;
use wg_words::Name;

/// The name of a file that was found, and the piece of the file that is held.
#[derive(Debug, Drop)]
pub struct FoundFile {
    pub name: Name,
    pub held: Stretch,
}

/// Looks for one of an archive's files: it has to be there, and not too long. Nothing of it is read.
pub fn find_file<D: Depot>(
    alloc: Global,
    depot: &mut D,
    base: &Name,
    input: Input,
) -> Result<FoundFile, Ending>
    requires { IsSome (suffix_of input) }
    ensures same { D.files depot.new ≡ D.files depot.old }
    ensures later { NonDecreasing (D.counts depot.old) (D.counts depot.new) }
    ensures name { IfOk result (λ f. file_of base.now input ≡ Some f.name) }
    ensures start { IfOk result (λ f. f.held.at ≡ 0) }
    ensures found { IsTrue D.told → IfOk result (λ f. IsOpenOn (map.get (D.files depot.old) f.name) f.held) }
    ensures ends { IfErr result (λ e. LoadsBy ⟦<D as Depot>⟧ (file_of base.now) input depot.old depot.new (Err e)) }
{
    let Some(suffix) = suffix(input) else {
        unreachable!()
    };
    let name = base.with_suffix(alloc, suffix)?;
    let mut held = Stretch::new();
    match held.look(depot, name.as_str()) {
        Ok(()) => Ok(FoundFile { name, held }),
        Err(error) => Err(unread(error, input)),
    }
}
