//! A certificate on its way into its file.
ghost use Rattle.std.specs.Prelude.{◌≡◌, ◌⊎◌, [], IsTrue, OnOk, IfErr, Some};
ghost use Rattle.std.specs.FinMap as map;
ghost use Rattle.wg_greedy.specs.Held.{HoldsLess};
ghost use Rattle.wg_outcomes.specs.Ranked.{certificate_text};
ghost use Rattle.wg_outcomes.specs.Written.{TouchesBy};

use wg_outcomes::{Ending, create_file, writing_ending};
use wg_outside::{Depot, Output};
use wg_rank::{Bounds, write_certificate};
use wg_words::Name;

// Appends the text of the certificate to its empty file.
fn append<D: Depot>(bounds: &Bounds, name: &Name, depot: &mut D) -> Result<(), Ending>
    ensures ok { IsTrue D.told → map.get (D.files depot.old) name.now ≡ Some []
        → OnOk result (map.get (D.files depot.new) name.now ≡ Some (certificate_text bounds.now)) }
    ensures err { IsTrue D.told → map.get (D.files depot.old) name.now ≡ Some []
        → IfErr result (λ e. HoldsLess (map.get (D.files depot.new) name.now) (certificate_text bounds.now)) }
    ensures touches { TouchesBy ⟦<D as Depot>⟧ Output.Certificate name.now depot.old depot.new result }
{
    match write_certificate(bounds, depot, name.as_str()) {
        Ok(()) => Ok(()),
        Err(error) => Err(writing_ending(Output::Certificate, error)),
    }
}

/// Writes the certificate of these bounds: creates its file, and appends its text. It takes no memory. After an error
/// the file is as before or holds a prefix of the text, and never all of it. No other file changes.
pub fn write_file<D: Depot>(bounds: &Bounds, name: &Name, depot: &mut D) -> Result<(), Ending>
    ensures ok { IsTrue D.told
        → OnOk result (map.get (D.files depot.new) name.now ≡ Some (certificate_text bounds.now)) }
    ensures err { IsTrue D.told
        → IfErr result (λ e. (map.get (D.files depot.new) name.now ≡ map.get (D.files depot.old) name.now)
        ⊎ HoldsLess (map.get (D.files depot.new) name.now) (certificate_text bounds.now)) }
    ensures touches { TouchesBy ⟦<D as Depot>⟧ Output.Certificate name.now depot.old depot.new result }
{
    create_file(depot, name, Output::Certificate)?;
    append(bounds, name, depot)
}
