// A file as a sink.
ghost use Rattle.std.specs.Prelude.{◌≡◌};
ghost use Rattle.wg_outside.specs.Outside.{content};
ghost use Rattle.wg_outside.specs.Later.{IsWrittenOn, as_it_was, written_twice, of_its_name};
ghost use Rattle.std.proofs.Common.{refl, ◌∙◌};

use crate::{Depot, Sink, WriteError};

/// A file of a depot, to the end of which bytes go. It tells its bytes if the depot does, and counts what the depot
/// counts for its name. Nothing else in the depot changes.
///
/// Each write is handed on at once, so small pieces are best gathered before.
#[derive(Debug, Drop)]
pub struct FileSink<'a, D: Depot> {
    pub depot: &'a mut D,
    pub name: &'a str,
}

impl<'a, D: Depot> FileSink<'a, D> {
    /// The file of this name in the depot, which need not be there yet. It makes no call.
    pub fn new(depot: &'a mut D, name: &'a str) -> FileSink<'a, D>
        ensures depot { result.depot ≡ depot.entry }
        ensures name { result.name.now ≡ name.now }
    {
        FileSink { depot, name }
    }
}

impl<'a, D: Depot> Sink for FileSink<'a, D> {
    ghost told = { D.told };

    ghost taken = { λ s. content (D.files s.depot.now) s.name.now };

    ghost faults = { λ s. (D.counts s.depot.now s.name.now).write_faults };

    ghost wants = { λ s. (D.counts s.depot.now s.name.now).wants };

    ghost later = { λ a b. (b.depot.ghost_name ≡ a.depot.ghost_name) × (b.name.now ≡ a.name.now)
        × IsWrittenOn D.told a.name.now (D.files a.depot.now) (D.files b.depot.now) (D.counts a.depot.now) (D.counts b.depot.now) };

    fn write(&mut self, piece: &[u8]) -> Result<usize, WriteError> {
        self.depot.append(self.name, piece)
    }

    ghost stays = { λ a. (refl, refl, as_it_was _ _ _ _) };

    ghost goes_on = { λ a b c l m. (m.0 ∙ l.0, m.1 ∙ l.1, written_twice _ _ _ _ _ _ _ _ _ l.1 l.2 m.2) };

    ghost onward = { λ a b l. of_its_name _ _ _ _ l.1 l.2.counts };
}
