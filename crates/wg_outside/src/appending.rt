// Bytes to the end of a file.
ghost use Rattle.std.specs.Prelude.{◌≡◌, ◌<◌, ℕ, [], length, take, IsTrue, OnOk, OnErr};
ghost use Rattle.wg_outside.specs.Outside.{appended};
ghost use Rattle.wg_outside.specs.Refusals.{FileRefusals};

use crate::{Depot, WriteError};

/// Adds the whole piece to the end of a file. After an error a prefix of it may have been added, and never all of it.
pub fn append_all<D: Depot>(depot: &mut D, name: &str, piece: &[u8]) -> Result<(), WriteError>
    ensures ok { IsTrue D.told → OnOk result (D.files depot.new ≡ appended (D.files depot.old) name.now piece.now) }
    ensures err { IsTrue D.told → OnErr result ((k : ℕ) × (k < length piece.now)
        × (D.files depot.new ≡ appended (D.files depot.old) name.now (take k piece.now))) }
    ensures refusals { FileRefusals (D.counts depot.old) (D.counts depot.new) name.now result }
    ensures no_call { piece.now ≡ [] → depot.new ≡ depot.old }
{
    let mut at = 0;
    while at < piece.len() {
        at += depot.append(name, &piece[at..])?;
    }
    Ok(())
}
