//! The places of some pages, from which those of all others are found.
ghost use Rattle.std.specs.Prelude.{◌≡◌, ℕ, ◌+◌, ◌-◌, ◌*◌, ◌/◌, ◌<◌, ◌≤◌, true, All, Bool, List, length, get_or, Err, OnOk, IfOk};
ghost use Rattle.wg_params.specs.declared.limits.TheConstants.{MOST_PAGES};
ghost use Rattle.wg_params.specs.declared.code.Code.{Code};
ghost use Rattle.wg_params.specs.Codes.{IsCode, is_gamma_or_delta};
ghost use Rattle.wg_offsets.specs.declared.places.TheConstants.{MOST_PLACE};
ghost use Rattle.wg_offsets.specs.declared.samples.TheConstants.{SAMPLED};
ghost use Rattle.wg_grammar.specs.Errors.{OnFault, OnRefusal, WantsNoMemory};
ghost use Rattle.wg_offsets.specs.Words.{ReadsOffsets};
ghost use Rattle.wg_offsets.specs.Stages.{WordsStand, AreRead};
ghost use Rattle.wg_offsets.specs.Sampling.{AreSamples, IsSampleOf, bit_before};

use crate::OffsetWords;
use std::alloc::{AllocError, Global};
use std::marker::Model;
use wg_grammar::{OffsetWord, ReadError, Source};
use wg_params::Code;

/// One page of so many has its place kept.
pub const SAMPLED: u64 = 1024;

/// Where the record of a page lies.
#[derive(Clone, Copy, Debug, PartialEq, Eq)]
pub struct Extent {
    /// The bit of the graph file where it begins.
    pub start: u64,
    /// The bit after it.
    pub end: u64,
}

/// The places of one page in [`SAMPLED`], and after which bit of the offsets file the words of the pages behind it
/// come. The place of any page is found by these words, which are read again.
///
/// It is seen as the code, the number of records, and the places and bits that are kept. It holds 16 bytes for each of
/// them.
#[derive(Debug)]
pub struct Samples {
    code: Code,
    pages: u64,
    places: Vec<u64>,
    bits: Vec<u64>,
}

impl Drop for Samples {
    fn drop(self) {
        let Samples {
            code,
            pages,
            places,
            bits,
        } = self;
    }
}

impl Model for Samples {
    ghost use Rattle.std.specs.Prelude.{◌≡◌, ◌+◌, ◌/◌, ◌≤◌, All, length};
    ghost use Rattle.wg_params.specs.declared.limits.TheConstants.{MOST_PAGES};
    ghost use Rattle.wg_params.specs.Codes.{IsCode};
    ghost use Rattle.wg_offsets.specs.declared.places.TheConstants.{MOST_PLACE};
    ghost use Rattle.wg_offsets.specs.declared.samples.TheConstants.{SAMPLED};
    ghost use Rattle.wg_offsets.specs.Sampling.{Sampled};

    ghost Value = { Sampled };

    ghost view = { λ s. record { code = s.code; pages = s.pages; places = s.places.items; bits = s.bits.items } };

    ghost invariant = { λ s. IsCode s.code × (s.pages ≤ MOST_PAGES)
        × (length s.places.items ≡ s.pages / SAMPLED + 1) × (length s.bits.items ≡ s.pages / SAMPLED + 1)
        × All (λ p. p ≤ MOST_PLACE) s.places.items };
}

// Keeps the place of a page, and the bit after its word, if the page is one of those.
fn keep_sample(
    places: &mut Vec<u64>,
    bits: &mut Vec<u64>,
    page: u64,
    place: u64,
    bit: u64,
) -> Result<(), AllocError>
    requires places { length places.old.items ≡ (page + SAMPLED - 1) / SAMPLED }
    requires bits { length bits.old.items ≡ length places.old.items }
    requires within { All (λ p. p ≤ MOST_PLACE) places.old.items }
    requires place { place ≤ MOST_PLACE }
    requires page { page ≤ MOST_PAGES }
    ensures places { OnOk result (length places.new.items ≡ (page + SAMPLED) / SAMPLED) }
    ensures bits { OnOk result (length bits.new.items ≡ length places.new.items) }
    ensures within { OnOk result (All (λ p. p ≤ MOST_PLACE) places.new.items) }
    ensures each { (c : Code) (file : List Bool) (before : List ℕ)
        → AreSamples c file places.old.items bits.old.items → WordsStand c file (page + 1) bit place before
        → OnOk result (AreSamples c file places.new.items bits.new.items) }
{
    if page % SAMPLED == 0 {
        places.push(place)?;
        bits.push(bit)?;
    }
    Ok(())
}

// Reads so many words more.
fn read_more<S: Source>(
    words: &mut OffsetWords,
    more: u64,
    source: &mut S,
) -> Result<(), ReadError<OffsetWord, S::Refusal>>
    requires { words.old.count + more ≤ words.old.pages + 1 }
    ensures code { words.new.code ≡ words.old.code }
    ensures pages { words.new.pages ≡ words.old.pages }
    ensures count { OnOk result (words.new.count ≡ words.old.count + more) }
    ensures later { S.later source.old source.new }
    ensures no_memory { WantsNoMemory result }
    ensures refused { OnRefusal result (S.caused source.old source.new) }
    ensures reads { (bits : List Bool) (before : List ℕ) → S.reads_from source.old bits
        → AreRead bits words.old (S.offset source.old) before
        → OnOk result ((all : List ℕ) × AreRead bits words.new (S.offset source.new) all) }
    ensures fault { (bits : List Bool) (before : List ℕ) → S.reads_from source.old bits
        → AreRead bits words.old (S.offset source.old) before
        → OnFault result (λ w. ReadsOffsets words.old.code words.old.pages bits (Err w)) }
{
    for _word in 0..more {
        words.next(source)?;
    }
    Ok(())
}

impl Samples {
    /// Reads all words of an offsets file of so many records, from a source that stands at its first bit, and names
    /// the first fault. It takes one pass.
    pub fn read<S: Source>(
        alloc: Global,
        source: &mut S,
        pages: u64,
        code: Code,
    ) -> Result<Samples, ReadError<OffsetWord, S::Refusal>>
        requires start { S.offset source.old ≡ 0 }
        requires pages { pages ≤ MOST_PAGES }
        requires code { is_gamma_or_delta code ≡ true }
        ensures pages { IfOk result (λ s. s.pages ≡ pages) }
        ensures code { IfOk result (λ s. s.code ≡ code) }
        ensures later { S.later source.old source.new }
        ensures refused { OnRefusal result (S.caused source.old source.new) }
        ensures reads { (bits : List Bool) → S.reads_from source.old bits
            → IfOk result (λ s. (places : List ℕ) × IsSampleOf bits s places) }
        ensures fault { (bits : List Bool) → S.reads_from source.old bits
            → OnFault result (λ w. ReadsOffsets code pages bits (Err w)) }
    {
        let mut words = OffsetWords::new(pages, code);
        let mut places = Vec::new(alloc);
        let mut bits = Vec::new(alloc);
        for page in 0..pages + 1 {
            let place = words.next(source)?;
            keep_sample(&mut places, &mut bits, page, place, source.at())?;
        }
        words.finish(source)?;
        Ok(Samples {
            code,
            pages,
            places,
            bits,
        })
    }

    /// The bit of the offsets file from which on a page is looked for. At most [`SAMPLED`] words are read from there.
    pub fn bit(&self, page: u64) -> u64
        requires { page < self.now.pages }
        ensures value { result ≡ bit_before self.now page }
        ensures kept { page / SAMPLED < length self.now.places }
    {
        self.bits[(page / SAMPLED) as usize]
    }

    /// The number of the first word that is read from there.
    pub fn first_word(&self, page: u64) -> u64
        requires { page < self.now.pages }
        ensures { result ≡ SAMPLED * (page / SAMPLED) + 1 }
    {
        SAMPLED * (page / SAMPLED) + 1
    }

    // The words from that one on.
    fn words(&self, page: u64) -> OffsetWords
        requires { page < self.now.pages }
        ensures words { result ≡ record {
          code = self.now.code;
          pages = self.now.pages;
          count = SAMPLED * (page / SAMPLED) + 1;
          offset = get_or self.now.places (page / SAMPLED) 0;
        } }
        ensures kept { page / SAMPLED < length self.now.places }
        ensures coded { IsCode self.now.code }
    {
        let place = self.places[(page / SAMPLED) as usize];
        OffsetWords::after(self.pages, self.code, self.first_word(page), place)
    }

    /// Where the record of a page lies. The words that tell it are read from the source, which stands at the bit from
    /// which on the page is looked for. Those of the file that was sampled are not refused.
    pub fn extent<S: Source>(
        &self,
        page: u64,
        source: &mut S,
    ) -> Result<Extent, ReadError<OffsetWord, S::Refusal>>
        requires page { page < self.now.pages }
        requires at { S.offset source.old ≡ bit_before self.now page }
        ensures onward { IfOk result (λ e. e.start ≤ e.end) }
        ensures later { S.later source.old source.new }
        ensures no_memory { WantsNoMemory result }
        ensures refused { OnRefusal result (S.caused source.old source.new) }
        ensures lies { (file : List Bool) (places : List ℕ) → S.reads_from source.old file
            → IsSampleOf file self.now places
            → IfOk result (λ e. (e.start ≡ get_or places page 0) × (e.end ≡ get_or places (page + 1) 0)) }
        ensures right { (file : List Bool) (places : List ℕ) → S.reads_from source.old file
            → IsSampleOf file self.now places → OnFault result (λ w. ⊥) }
    {
        let mut reading = self.words(page);
        read_more(&mut reading, page % SAMPLED, source)?;
        let start = reading.offset();
        let end = reading.next(source)?;
        Ok(Extent { start, end })
    }
}
