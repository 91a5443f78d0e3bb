//! Records in memory, whose offsets lie in an array.
ghost use Rattle.std.specs.Prelude.{◌≡◌, ℕ, ◌-◌, List, length};
ghost use Rattle.std.proofs.Common.{refl, ap, ◌∙◌};
ghost use Rattle.wg_grammar.specs.Moving.{MovedOn, stays, goes_on, onward, same_bits};
ghost use Rattle.wg_memory.specs.Answers.{Falls, still_falls};

use thiserror::Error;
use wg_bits::Cursor;
use wg_codes::Read;
use wg_grammar::Source;
use wg_offsets::Extent;
use wg_params::Code;
use wg_random::Located;
use wg_source::Seek;

/// The record of this page would end before it begins.
#[derive(Clone, Copy, Debug, Drop, PartialEq, Eq, Error)]
#[error("the record of page {page} ends before it begins")]
pub struct Fall {
    pub page: u64,
}

/// The records of a graph file in memory. An array, which nobody has validated, tells where each begins, and last where
/// the last one ends.
#[derive(Debug, Drop)]
pub struct Placed<'a> {
    pub source: Cursor<'a>,
    pub places: &'a [u64],
}

impl<'a> Source for Placed<'a> {
    type Refusal = Fall;

    ghost reads_from = { λ a bits. a.source.bits ≡ bits };

    ghost offset = { λ a. a.source.at };

    ghost later = { λ a b. MovedOn a.source b.source × (b.places.now ≡ a.places.now) };

    ghost caused = { λ a b r. Falls a.places.now r.page };

    #[inline(always)]
    fn at(&self) -> u64 {
        self.source.at()
    }

    #[inline(always)]
    fn read(&mut self, code: Code) -> Result<Read, Fall> {
        match self.source.read(code) {
            Ok(read) => Ok(read),
            Err(never) => match never {},
        }
    }

    fn tail_fault(&mut self) -> Result<Option<u64>, Fall> {
        match self.source.tail_fault() {
            Ok(fault) => Ok(fault),
            Err(never) => match never {},
        }
    }

    ghost stays = { λ a. (stays a.source, refl) };

    ghost goes_on = { λ a b c l m. (goes_on a.source b.source c.source l.0 m.0, m.1 ∙ l.1) };

    ghost onward = { λ a b l. onward a.source b.source l.0 };

    ghost same_bits = { λ a b bits l r. same_bits a.source b.source bits l.0 r };

    ghost still_caused = { λ a b c r l x. still_falls _ _ r.page l.1 x };
}

impl<'a> Seek for Placed<'a> {
    ghost reached = { λ a b. (b.source.bits ≡ a.source.bits) × (b.places.now ≡ a.places.now) };

    fn go_to(&mut self, at: u64) -> Result<bool, Fall> {
        match self.source.go_to(at) {
            Ok(there) => Ok(there),
            Err(never) => match never {},
        }
    }

    ghost by_reading = { λ a b l. (l.0.bits, l.1) };

    ghost on_from = { λ a b c l m. (m.0 ∙ l.0, m.1 ∙ l.1) };

    ghost bits_stay = { λ a b bits l r. l.0 ∙ r };

    ghost cause_stays = { λ a b c r l x. still_falls _ _ r.page l.1 x };
}

impl<'a> Located for Placed<'a> {
    ghost records = { λ a. length a.places.now - 1 };

    ghost lies_by = { λ a offsets. a.places.now ≡ offsets };

    fn extent(&mut self, page: u64) -> Result<Extent, Fall> {
        let start = self.places[page as usize];
        let end = self.places[page as usize + 1];
        if end < start {
            return Err(Fall { page });
        }
        Ok(Extent { start, end })
    }

    ghost as_many = { λ a b l. ap (λ (o : List ℕ). length o - 1) l.1 };

    ghost lies_still = { λ a b offsets l h. l.1 ∙ h };
}
