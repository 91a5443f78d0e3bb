//! Records that are found by their pages.
ghost use Rattle.std.specs.Prelude.{◌≡◌, ℕ, ◌+◌, ◌-◌, ◌<◌, ◌≤◌, List, length, IfOk, IfErr};
ghost use Rattle.std.proofs.Common.{refl, ap, ◌∙◌};
ghost use Rattle.wg_decoder.specs.Chains.{start_of};

use wg_codes::Read;
use wg_grammar::Source;
use wg_offsets::{Extent, Offsets};
use wg_params::Code;
use wg_source::Seek;

/// A source of records that tells where the record of each page lies.
pub trait Located: Seek {
    /// How many records there are.
    ghost records: { Self → ℕ };

    /// The records lie by these offsets. Of a source that cannot tell them there are none.
    ghost lies_by: { Self → List ℕ → Type 0 };

    /// Where the record of a page lies. The source may then stand anywhere.
    fn extent(&mut self, page: u64) -> Result<Extent, Self::Refusal>
        requires { page < records self.old }
        ensures reached { Self.reached self.old self.new }
        ensures onward { IfOk result (λ e. e.start ≤ e.end) }
        ensures lies { (offsets : List ℕ) → lies_by self.old offsets
            → IfOk result (λ e. (e.start ≡ start_of offsets page) × (e.end ≡ start_of offsets (page + 1))) }
        ensures refused { IfErr result (Self.caused self.old self.new) };

    ghost as_many: { (a b : Self) → Self.reached a b → records b ≡ records a };

    ghost lies_still: { (a b : Self) (offsets : List ℕ) → Self.reached a b → lies_by a offsets → lies_by b offsets };
}

/// A source of records whose offsets are all held: one for each record, and last the offset after them.
#[derive(Debug, Drop)]
pub(crate) struct Indexed<'a, S: Seek> {
    pub(crate) source: S,
    pub(crate) offsets: &'a Offsets,
}

impl<'a, S: Seek> Source for Indexed<'a, S> {
    type Refusal = S::Refusal;

    ghost reads_from = { λ a bits. S.reads_from a.source bits };

    ghost offset = { λ a. S.offset a.source };

    ghost later = { λ a b. S.later a.source b.source × (b.offsets.now ≡ a.offsets.now) };

    ghost caused = { λ a b r. S.caused a.source b.source r };

    fn at(&self) -> u64 {
        self.source.at()
    }

    fn read(&mut self, code: Code) -> Result<Read, S::Refusal> {
        self.source.read(code)
    }

    fn tail_fault(&mut self) -> Result<Option<u64>, S::Refusal> {
        self.source.tail_fault()
    }

    ghost stays = { λ a. (S.stays a.source, refl) };

    ghost goes_on = { λ a b c l m. (S.goes_on a.source b.source c.source l.0 m.0, m.1 ∙ l.1) };

    ghost onward = { λ a b l. S.onward a.source b.source l.0 };

    ghost same_bits = { λ a b bits l r. S.same_bits a.source b.source bits l.0 r };

    ghost still_caused = { λ a b c r l x. S.still_caused a.source b.source c.source r l.0 x };
}

impl<'a, S: Seek> Seek for Indexed<'a, S> {
    ghost reached = { λ a b. S.reached a.source b.source × (b.offsets.now ≡ a.offsets.now) };

    fn go_to(&mut self, at: u64) -> Result<bool, S::Refusal> {
        self.source.go_to(at)
    }

    ghost by_reading = { λ a b l. (S.by_reading a.source b.source l.0, l.1) };

    ghost on_from = { λ a b c l m. (S.on_from a.source b.source c.source l.0 m.0, m.1 ∙ l.1) };

    ghost bits_stay = { λ a b bits l r. S.bits_stay a.source b.source bits l.0 r };

    ghost cause_stays = { λ a b c r l x. S.cause_stays a.source b.source c.source r l.0 x };
}

impl<'a, S: Seek> Located for Indexed<'a, S> {
    ghost records = { λ a. length a.offsets.now - 1 };

    ghost lies_by = { λ a offsets. a.offsets.now ≡ offsets };

    fn extent(&mut self, page: u64) -> Result<Extent, S::Refusal> {
        // tells that they never fall
        self.offsets.len();
        Ok(Extent {
            start: self.offsets.place(page),
            end: self.offsets.place(page + 1),
        })
    }

    ghost as_many = { λ a b l. ap (λ (o : List ℕ). length o - 1) l.1 };

    ghost lies_still = { λ a b offsets l h. l.1 ∙ h };
}
