//! A file of a depot as a source of words.
ghost use Rattle.std.specs.Prelude.{◌≡◌, List, ℕ, Some, IsTrue};
ghost use Rattle.std.specs.FinMap as map;
ghost use Rattle.wg_bits.specs.Bits.{bits_of};
ghost use Rattle.wg_source.specs.Held.{IsHeldOf};
ghost use Rattle.wg_source.specs.Stepping.{Steps, Moves, HasCause};
ghost use Rattle.wg_source.specs.StepLaws.{no_step, two_steps, later_cause, still_there};
ghost use Rattle.wg_source.specs.StepLaws.{step_moves, two_moves, cause_after, there_after};
ghost use Rattle.std.proofs.Common.{refl, ◌∙◌};

use crate::filling::{next_tail_fault, word_in_pieces};
use crate::{Seek, Stretch};
use wg_codes::Read;
use wg_grammar::Source;
use wg_outside::{Depot, LoadError};
use wg_params::Code;

/// A file of a depot, of which a stretch is held. It reads on in pieces of at most 4096 bytes, from any place.
///
/// A word that a piece cuts waits for the next piece, and only the end of the file cuts a word for good. What is held
/// is to be of the same file at each call. [`Stretch::look`] tells before the first word whether the file is too long.
#[derive(Debug, Drop)]
pub struct FileSource<'a, D: Depot> {
    /// Where the file is.
    pub depot: &'a mut D,
    /// The name of the file.
    pub name: &'a str,
    /// What is held of it.
    pub held: &'a mut Stretch,
}

impl<'a, D: Depot> FileSource<'a, D> {
    /// The file of this name, from the next bit on.
    #[inline(always)]
    pub fn new(depot: &'a mut D, name: &'a str, held: &'a mut Stretch) -> FileSource<'a, D>
        ensures depot { result.depot ≡ depot.entry }
        ensures held { result.held ≡ held.entry }
        ensures name { result.name.now ≡ name.now }
    {
        FileSource { depot, name, held }
    }
}

impl<'a, D: Depot> Source for FileSource<'a, D> {
    type Refusal = LoadError;

    ghost reads_from = { λ s bits. IsTrue D.told × ((file : List ℕ) × (map.get (D.files s.depot.now) s.name.now ≡ Some file) × IsHeldOf file s.held.now × (bits_of file ≡ bits)) };

    ghost offset = { λ s. s.held.now.at };

    ghost later = { λ a b. (b.depot.ghost_name ≡ a.depot.ghost_name) × (b.held.ghost_name ≡ a.held.ghost_name) × (b.name.now ≡ a.name.now)
        × Steps D.told a.name.now (D.files a.depot.now) (D.files b.depot.now) (D.counts a.depot.now) (D.counts b.depot.now) a.held.now b.held.now };

    ghost caused = { λ a b e. HasCause D.told a.name.now (D.files a.depot.now) (D.counts a.depot.now) (D.counts b.depot.now) a.held.now e };

    #[inline(always)]
    fn at(&self) -> u64 {
        self.held.at()
    }

    /// By far the most words are read from what is held, for which the depot and the name are not looked at.
    #[inline(always)]
    fn read(&mut self, code: Code) -> Result<Read, LoadError> {
        match self.held.near_word(code) {
            Some(value) => Ok(Read::Value(value)),
            None => word_in_pieces(self.held, self.depot, self.name, code),
        }
    }

    fn tail_fault(&mut self) -> Result<Option<u64>, LoadError> {
        next_tail_fault(self.held, self.depot, self.name)
    }

    ghost stays = { λ a. (refl, refl, refl, no_step _ _ _ _ _) };

    ghost goes_on = { λ a b c l m. (m.0 ∙ l.0, m.1 ∙ l.1, m.2 ∙ l.2, two_steps _ _ _ _ _ _ _ _ _ _ _ _ l.2 l.3 m.3) };

    ghost onward = { λ a b l. l.3.onward };

    ghost same_bits = { λ a b bits l r. (r.0, (r.1.0, still_there _ _ _ _ _ _ _ _ _ r.1.0 l.2 l.3 r.1.1, l.3.in_step r.0 r.1.0 r.1.1 r.1.2, r.1.3)) };

    ghost still_caused = { λ a b c r l x. later_cause _ _ _ _ _ _ _ _ _ _ r l.2 l.3 x };
}

impl<'a, D: Depot> Seek for FileSource<'a, D> {
    ghost reached = { λ a b. (b.depot.ghost_name ≡ a.depot.ghost_name) × (b.held.ghost_name ≡ a.held.ghost_name) × (b.name.now ≡ a.name.now)
        × Moves D.told a.name.now (D.files a.depot.now) (D.files b.depot.now) (D.counts a.depot.now) (D.counts b.depot.now) a.held.now b.held.now };

    fn go_to(&mut self, at: u64) -> Result<bool, LoadError> {
        self.held.go_to(self.depot, self.name, at)
    }

    ghost by_reading = { λ a b l. (l.0, l.1, l.2, step_moves _ _ _ _ _ _ _ _ l.3) };

    ghost on_from = { λ a b c l m. (m.0 ∙ l.0, m.1 ∙ l.1, m.2 ∙ l.2, two_moves _ _ _ _ _ _ _ _ _ _ _ _ l.2 l.3 m.3) };

    ghost bits_stay = { λ a b bits l r. (r.0, (r.1.0, there_after _ _ _ _ _ _ _ _ _ r.1.0 l.2 l.3 r.1.1, l.3.in_step r.0 r.1.0 r.1.1 r.1.2, r.1.3)) };

    ghost cause_stays = { λ a b c r l x. cause_after _ _ _ _ _ _ _ _ _ _ r l.2 l.3 x };
}
