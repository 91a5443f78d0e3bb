//! The words of an offsets file, one after the other.
ghost use Rattle.std.specs.Prelude.{◌≡◌, ℕ, ◌+◌, ◌≤◌, true, Bool, List, [], ◌∷◌, ◌++◌, Ok, Err, Some, None, OnOk, OnErr, IfOk, IfErr};
ghost use Rattle.wg_params.specs.declared.limits.TheConstants.{MOST_PAGES};
ghost use Rattle.wg_params.specs.Codes.{IsCode, is_gamma_or_delta};
ghost use Rattle.wg_codes.specs.declared.outcome.Read.TheVariants as reads;
ghost use Rattle.wg_offsets.specs.declared.places.TheConstants.{MOST_PLACE};
ghost use Rattle.wg_grammar.specs.Errors.{OnFault, OnRefusal, WantsNoMemory};
ghost use Rattle.wg_offsets.specs.Words.{refusal, ReadsOffsets};
ghost use Rattle.wg_offsets.specs.Stages.{AreRead, LeadsBy};

use crate::MOST_PLACE;
use std::marker::Model;
use wg_codes::Read;
use wg_grammar::{OffsetWord, ReadError, Source};
use wg_params::Code;

/// Reads the words of an offsets file, one for each record and one more: each leads from the offset of a record to that
/// of the next. It keeps the last offset only.
///
/// It is seen as the code, the number of records, and how many words were read and the offset that they lead to. Hand
/// in the same source at each call: the clauses on bits are of one that was.
#[derive(Debug, Drop)]
pub struct OffsetWords {
    code: Code,
    pages: u64,
    count: u64,
    offset: u64,
}

impl Model for OffsetWords {
    ghost use Rattle.std.specs.Prelude.{ℕ, ◌+◌, ◌≤◌};
    ghost use Rattle.wg_params.specs.declared.limits.TheConstants.{MOST_PAGES};
    ghost use Rattle.wg_params.specs.Codes.{IsCode};
    ghost use Rattle.wg_offsets.specs.declared.places.TheConstants.{MOST_PLACE};
    ghost use Rattle.wg_offsets.specs.Stages.{WordsRead};

    ghost Value = { WordsRead };

    ghost view = { λ w. record { code = w.code; pages = w.pages; count = w.count; offset = w.offset } };

    ghost invariant = { λ w. IsCode w.code × (w.pages ≤ MOST_PAGES)
        × (w.count ≤ w.pages + 1) × (w.offset ≤ MOST_PLACE) };
}

// The offset that a word leads to from another, if so many words stand before it. All of it is inlined, so that no
// error takes room in memory that each word would clear.
#[inline(always)]
fn lead(count: u64, offset: u64, read: Read) -> Result<u64, OffsetWord>
    requires { offset ≤ MOST_PLACE }
    ensures leads { IfOk result (λ next. LeadsBy count offset read next) }
    ensures refused { IfErr result (λ e. refusal count offset read ≡ Some e) }
{
    match read {
        Read::Cut => Err(OffsetWord::Cut(count)),
        Read::NoWord => Err(OffsetWord::NoWord(count)),
        Read::Value(value) => {
            if count == 0 && value > 0 {
                return Err(OffsetWord::First);
            }
            if value > MOST_PLACE - offset {
                return Err(OffsetWord::TooFar(count));
            }
            Ok(offset + value)
        }
    }
}

impl OffsetWords {
    /// Before the first word of the offsets of so many records.
    pub fn new(pages: u64, code: Code) -> OffsetWords
        requires pages { pages ≤ MOST_PAGES }
        requires code { is_gamma_or_delta code ≡ true }
        ensures none { result ≡ record { code = code; pages = pages; count = 0; offset = 0 } }
        ensures read { (bits : List Bool) → AreRead bits result 0 [] }
    {
        OffsetWords {
            code,
            pages,
            count: 0,
            offset: 0,
        }
    }

    /// After so many words of the offsets of so many records, which lead to this offset.
    pub fn after(pages: u64, code: Code, count: u64, offset: u64) -> OffsetWords
        requires pages { pages ≤ MOST_PAGES }
        requires code { IsCode code }
        requires count { count ≤ pages + 1 }
        requires within { offset ≤ MOST_PLACE }
        ensures { result ≡ record { code = code; pages = pages; count = count; offset = offset } }
    {
        OffsetWords {
            code,
            pages,
            count,
            offset,
        }
    }

    /// The offset that the words that were read lead to.
    pub fn offset(&self) -> u64
        ensures { result ≡ self.now.offset }
    {
        self.offset
    }

    /// Reads the word that comes next, and answers the offset that it leads to. If it is refused, it stays before this
    /// word.
    #[inline(always)]
    pub fn next<S: Source>(
        &mut self,
        source: &mut S,
    ) -> Result<u64, ReadError<OffsetWord, S::Refusal>>
        requires more { self.old.count ≤ self.old.pages }
        ensures code { self.new.code ≡ self.old.code }
        ensures pages { self.new.pages ≡ self.old.pages }
        ensures count { OnOk result (self.new.count ≡ self.old.count + 1) }
        ensures value { IfOk result (λ offset. offset ≡ self.new.offset) }
        ensures first { OnOk result (self.old.count ≡ 0 → self.old.offset ≡ 0 → self.new.offset ≡ 0) }
        ensures within { self.new.offset ≤ MOST_PLACE }
        ensures onward { self.old.offset ≤ self.new.offset }
        ensures err { OnErr result (self.new ≡ self.old) }
        ensures later { S.later source.old source.new }
        ensures no_memory { WantsNoMemory result }
        ensures refused { OnRefusal result (S.caused source.old source.new) }
        ensures reads { (bits : List Bool) (places : List ℕ) → S.reads_from source.old bits
            → AreRead bits self.old (S.offset source.old) places
            → OnOk result (AreRead bits self.new (S.offset source.new) (places ++ self.new.offset ∷ [])) }
        ensures fault { (bits : List Bool) (places : List ℕ) → S.reads_from source.old bits
            → AreRead bits self.old (S.offset source.old) places
            → OnFault result (λ w. ReadsOffsets self.old.code self.old.pages bits (Err w)) }
    {
        let read = match source.read(self.code) {
            Ok(read) => read,
            Err(refusal) => return Err(ReadError::Refused(refusal)),
        };
        let offset = lead(self.count, self.offset, read)?;
        self.count += 1;
        self.offset = offset;
        Ok(offset)
    }

    /// Validates the tail that follows the words.
    pub fn finish<S: Source>(&self, source: &mut S) -> Result<(), ReadError<OffsetWord, S::Refusal>>
        requires done { self.now.count ≡ self.now.pages + 1 }
        ensures later { S.later source.old source.new }
        ensures no_memory { WantsNoMemory result }
        ensures refused { OnRefusal result (S.caused source.old source.new) }
        ensures reads { (bits : List Bool) (places : List ℕ) → S.reads_from source.old bits
            → AreRead bits self.now (S.offset source.old) places
            → OnOk result (ReadsOffsets self.now.code self.now.pages bits (Ok places)) }
        ensures fault { (bits : List Bool) (places : List ℕ) → S.reads_from source.old bits
            → AreRead bits self.now (S.offset source.old) places
            → OnFault result (λ w. ReadsOffsets self.now.code self.now.pages bits (Err w)) }
    {
        match source.tail_fault() {
            Ok(None) => Ok(()),
            Ok(Some(at)) => Err(ReadError::Fault(OffsetWord::Tail(at))),
            Err(refusal) => Err(ReadError::Refused(refusal)),
        }
    }
}
