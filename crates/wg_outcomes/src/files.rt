//! One file that a job writes.
ghost use Rattle.std.specs.Prelude.{◌≡◌, [], IsTrue, OnOk, IfErr, Some};
ghost use Rattle.std.specs.FinMap as map;
ghost use Rattle.wg_greedy.specs.Held.{HoldsLess};
ghost use Rattle.wg_outcomes.specs.Written.{TouchesBy};

use crate::Ending;
use crate::outputs::writing_ending;
use wg_outside::{Depot, Output, append_all};
use wg_words::Name;

/// Leaves an empty file of this name, which is an output of a job. After an error it is as it was.
pub fn create_file<D: Depot>(depot: &mut D, name: &Name, output: Output) -> Result<(), Ending>
    ensures ok { IsTrue D.told → OnOk result (map.get (D.files depot.new) name.now ≡ Some []) }
    ensures err { IfErr result (λ e. D.files depot.new ≡ D.files depot.old) }
    ensures touches { TouchesBy ⟦<D as Depot>⟧ output name.now depot.old depot.new result }
{
    match depot.create(name.as_str()) {
        Ok(()) => Ok(()),
        Err(error) => Err(writing_ending(output, error)),
    }
}

/// Fills a file of this name, which is there and empty, with these bytes. After an error it has a prefix of them, and
/// never all.
pub fn fill_file<D: Depot>(
    depot: &mut D,
    name: &Name,
    bytes: &[u8],
    output: Output,
) -> Result<(), Ending>
    ensures ok { IsTrue D.told → map.get (D.files depot.old) name.now ≡ Some []
        → OnOk result (map.get (D.files depot.new) name.now ≡ Some bytes.now) }
    ensures err { IsTrue D.told → map.get (D.files depot.old) name.now ≡ Some []
        → IfErr result (λ e. HoldsLess (map.get (D.files depot.new) name.now) bytes.now) }
    ensures touches { TouchesBy ⟦<D as Depot>⟧ output name.now depot.old depot.new result }
{
    match append_all(depot, name.as_str(), bytes) {
        Ok(()) => Ok(()),
        Err(error) => Err(writing_ending(output, error)),
    }
}
