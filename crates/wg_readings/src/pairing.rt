//! The words of an offsets file, read in pieces beside the records of its graph.
ghost use Rattle.std.specs.Prelude.{◌≡◌, ◌+◌, ◌<◌, ◌≤◌, ℕ, true, List, [], ◌∷◌, ◌++◌, Some, Ok, Err, OnOk};
ghost use Rattle.std.specs.Prelude.{IfOk, IfErr, IsTrue};
ghost use Rattle.std.specs.FinMap as map;
ghost use Rattle.wg_outside.specs.Outside.{Files, Counts, NonDecreasing};
ghost use Rattle.wg_bits.specs.Bits.{bits_of};
ghost use Rattle.wg_params.specs.Parameters.{IsWithinLimits};
ghost use Rattle.wg_source.specs.Held.{IsHeldOf};
ghost use Rattle.wg_source.specs.Stepping.{Steps as StepsOn};
ghost use Rattle.wg_offsets.specs.Stages.{AreRead};
ghost use Rattle.wg_offsets.specs.Words.{ReadsOffsets};
ghost use Rattle.wg_offsets.specs.Comparing.{AreCompared};
ghost use Rattle.wg_outcomes.specs.Answers.{Steps};
ghost use Rattle.wg_outcomes.specs.Judged.{with_lengths};
ghost use Rattle.wg_outcomes.specs.Promised.{IsBadFile};
ghost use Rattle.wg_readings.specs.Pairing.{ComesWith, EndsPairing, HasCome, IsPaired, IsStopped};
ghost use Rattle.wg_readings.specs.Pairing.{IsUnread, word_ending};

use crate::lines::unread;
use std::alloc::Global;
use wg_grammar::{ArchiveFault, OffsetWord, ReadError};
use wg_offsets::{Comparison, OffsetWords};
use wg_outcomes::{Ending, Input, Status};
use wg_outside::{Depot, LoadError, OFFSETS};
use wg_params::Params;
use wg_source::{FileSource, Stretch};
use wg_words::Name;

/// An offsets file as far as it was read, and the lengths of the records as the graph file and this file tell them. The
/// first error of the offsets file stays, and after it no more of that file is read.
#[derive(Drop)]
pub struct Pairing {
    pub name: Name,
    pub held: Stretch,
    pub words: OffsetWords,
    pub lengths: Comparison,
    pub so_far: Result<(), Ending>,
}

/// How a job ends whose offsets file is not read on, at a word or at its input. It is inlined: an ending takes room in
/// memory only if there is one.
#[inline(always)]
pub fn word_ending(error: ReadError<OffsetWord, LoadError>, params: &Params) -> Ending
    ensures { result ≡ word_ending params.now.arcs error }
{
    match error {
        ReadError::Fault(word) => Ending {
            status: Status::BadArchive(ArchiveFault::Offsets(word)),
            promised: params.arcs(),
        },
        ReadError::Memory => Ending::of(Status::Memory),
        ReadError::Refused(error) => unread(error, Input::Offsets),
    }
}

/// Begins to read the offsets file of an archive.
pub fn open_offsets(alloc: Global, params: &Params, base: &Name) -> Result<Pairing, Ending>
    ensures name { IfOk result (λ b. b.name ≡ base.now ++ OFFSETS.now) }
    ensures unread { IfOk result (IsUnread params.now) }
    ensures only { IfErr result (λ e. e.status ≡ Status.Memory) }
{
    let name = base.with_suffix(alloc, OFFSETS)?;
    Ok(Pairing {
        name,
        held: Stretch::new(),
        words: OffsetWords::new(params.nodes(), params.offsets()),
        lengths: Comparison::new(),
        so_far: Ok(()),
    })
}

// Looks whether the file is there, and not too long.
fn look<D: Depot>(pairing: &mut Pairing, depot: &mut D, params: &Params) -> Result<(), Ending>
    requires { IsUnread params.now pairing.old }
    ensures kept { (pairing.new.name ≡ pairing.old.name) × (pairing.new.words ≡ pairing.old.words)
        × (pairing.new.lengths ≡ pairing.old.lengths) × (pairing.new.so_far ≡ pairing.old.so_far) }
    ensures looked { OnOk result (pairing.new.held ≡ record pairing.old.held { looked = true }) }
    ensures steps { StepsOn D.told pairing.old.name (D.files depot.old) (D.files depot.new) (D.counts depot.old)
        (D.counts depot.new) pairing.old.held pairing.new.held }
    ensures there { IsTrue D.told → OnOk result ((file : List ℕ) × (map.get
        (D.files depot.old) pairing.old.name ≡ Some file)) }
    ensures stopped { (IsTrue D.told → (file : List ℕ) → map.get (D.files depot.old) pairing.old.name ≡ Some file
        → IsHeldOf file pairing.old.held)
        → IfErr result (IsStopped D.told (D.files depot.old) (D.counts depot.old)
        (D.counts depot.new) params.now pairing.old.name) }
{
    match pairing.held.look(depot, pairing.name.as_str()) {
        Ok(()) => Ok(()),
        Err(error) => Err(unread(error, Input::Offsets)),
    }
}

// Reads the word that comes next.
#[inline(always)]
fn next_word<D: Depot>(pairing: &mut Pairing, depot: &mut D, params: &Params) -> Result<u64, Ending>
    requires code { pairing.old.words.code ≡ params.now.offsets }
    requires pages { pairing.old.words.pages ≡ params.now.nodes }
    requires more { pairing.old.words.count ≤ params.now.nodes }
    ensures kept { (pairing.new.name ≡ pairing.old.name) × (pairing.new.lengths ≡ pairing.old.lengths)
        × (pairing.new.so_far ≡ pairing.old.so_far) }
    ensures words { (pairing.new.words.code ≡ pairing.old.words.code)
        × (pairing.new.words.pages ≡ pairing.old.words.pages)
        × (pairing.old.words.offset ≤ pairing.new.words.offset) }
    ensures value { IfOk result (λ offset. (offset ≡ pairing.new.words.offset)
        × (pairing.new.words.count ≡ pairing.old.words.count + 1)) }
    ensures first { OnOk result (pairing.old.words.count ≡ 0 → pairing.old.words.offset ≡ 0
        → pairing.new.words.offset ≡ 0) }
    ensures steps { StepsOn D.told pairing.old.name (D.files depot.old) (D.files depot.new) (D.counts depot.old)
        (D.counts depot.new) pairing.old.held pairing.new.held }
    ensures reads { IsTrue D.told → (file : List ℕ) → map.get (D.files depot.old) pairing.old.name ≡ Some file
        → IsHeldOf file pairing.old.held
        → (places : List ℕ) → AreRead (bits_of file) pairing.old.words pairing.old.held.at places
        → OnOk result (AreRead (bits_of file) pairing.new.words pairing.new.held.at
        (places ++ pairing.new.words.offset ∷ [])) }
    ensures stopped { pairing.old.held.looked ≡ true
        → (IsTrue D.told → (file : List ℕ) × (map.get (D.files depot.old) pairing.old.name ≡ Some file))
        → (IsTrue D.told → (file : List ℕ) → map.get (D.files depot.old) pairing.old.name ≡ Some file
        → IsHeldOf file pairing.old.held × ((places : List ℕ) × AreRead
        (bits_of file) pairing.old.words pairing.old.held.at places))
        → IfErr result (IsStopped D.told (D.files depot.old) (D.counts depot.old)
        (D.counts depot.new) params.now pairing.old.name) }
{
    let mut source = FileSource::new(depot, pairing.name.as_str(), &mut pairing.held);
    match pairing.words.next(&mut source) {
        Ok(offset) => Ok(offset),
        Err(error) => Err(word_ending(error, params)),
    }
}

// Checks what follows the words.
fn end_words<D: Depot>(pairing: &mut Pairing, depot: &mut D, params: &Params) -> Result<(), Ending>
    requires code { pairing.old.words.code ≡ params.now.offsets }
    requires pages { pairing.old.words.pages ≡ params.now.nodes }
    requires done { pairing.old.words.count ≡ params.now.nodes + 1 }
    ensures kept { (pairing.new.name ≡ pairing.old.name) × (pairing.new.lengths ≡ pairing.old.lengths) }
    ensures steps { StepsOn D.told pairing.old.name (D.files depot.old) (D.files depot.new) (D.counts depot.old)
        (D.counts depot.new) pairing.old.held pairing.new.held }
    ensures reads { IsTrue D.told → (file : List ℕ) → map.get (D.files depot.old) pairing.old.name ≡ Some file
        → IsHeldOf file pairing.old.held
        → (places : List ℕ) → AreRead (bits_of file) pairing.old.words pairing.old.held.at places
        → OnOk result (ReadsOffsets params.now.offsets params.now.nodes (bits_of file) (Ok places)) }
    ensures stopped { pairing.old.held.looked ≡ true
        → (IsTrue D.told → (file : List ℕ) × (map.get (D.files depot.old) pairing.old.name ≡ Some file))
        → (IsTrue D.told → (file : List ℕ) → map.get (D.files depot.old) pairing.old.name ≡ Some file
        → IsHeldOf file pairing.old.held × ((places : List ℕ) × AreRead
        (bits_of file) pairing.old.words pairing.old.held.at places))
        → IfErr result (IsStopped D.told (D.files depot.old) (D.counts depot.old)
        (D.counts depot.new) params.now pairing.old.name) }
{
    let mut source = FileSource::new(depot, pairing.name.as_str(), &mut pairing.held);
    match pairing.words.finish(&mut source) {
        Ok(()) => Ok(()),
        Err(error) => Err(word_ending(error, params)),
    }
}

/// Reads the first word, which is 0.
pub fn begin_pairing<D: Depot>(pairing: &mut Pairing, depot: &mut D, params: &Params)
    requires { IsUnread params.now pairing.old }
    ensures name { pairing.new.name ≡ pairing.old.name }
    ensures same { D.files depot.new ≡ D.files depot.old }
    ensures later { NonDecreasing (D.counts depot.old) (D.counts depot.new) }
    ensures come { HasCome D.told (D.files depot.old) (D.counts depot.old)
        (D.counts depot.new) params.now pairing.old.name 0 0 pairing.new }
    ensures reads { IsTrue D.told → (file : List ℕ) → map.get (D.files depot.old) pairing.old.name ≡ Some file
        → ComesWith file pairing.new (0 ∷ []) }
{
    match look(pairing, depot, params) {
        Ok(()) => match next_word(pairing, depot, params) {
            Ok(_first) => {}
            Err(ending) => pairing.so_far = Err(ending),
        },
        Err(ending) => pairing.so_far = Err(ending),
    }
}

/// Reads the word of one record more, if no error came before, and compares the length that it tells.
#[inline(always)]
pub fn pair_next<D: Depot>(pairing: &mut Pairing, depot: &mut D, params: &Params, here: u64)
    requires limits { IsWithinLimits params.now }
    requires paired { OnOk pairing.old.so_far (IsPaired params.now pairing.old) }
    requires more { OnOk pairing.old.so_far (pairing.old.lengths.page < params.now.nodes) }
    requires here { OnOk pairing.old.so_far (pairing.old.lengths.here ≤ here) }
    ensures name { pairing.new.name ≡ pairing.old.name }
    ensures same { D.files depot.new ≡ D.files depot.old }
    ensures later { NonDecreasing (D.counts depot.old) (D.counts depot.new) }
    ensures come { (files : Files) → D.files depot.old ≡ files → (counts : List ℕ → Counts)
        → NonDecreasing counts (D.counts depot.old) → (name : List ℕ) → pairing.old.name ≡ name
        → (n at : ℕ) → HasCome D.told files counts (D.counts depot.old) params.now name n at pairing.old
        → (IsTrue D.told → (file : List ℕ) → map.get files name ≡ Some file → (places : List ℕ)
        × ComesWith file pairing.old places)
        → HasCome D.told files counts (D.counts depot.new) params.now name (n + 1) here pairing.new }
    ensures reads { IsTrue D.told → (files : Files) → D.files depot.old ≡ files → (name : List ℕ)
        → pairing.old.name ≡ name → (file : List ℕ) → map.get files name ≡ Some file
        → (places : List ℕ) → ComesWith file pairing.old places
        → ComesWith file pairing.new (places ++ here ∷ []) }
{
    match pairing.so_far {
        Ok(()) => match next_word(pairing, depot, params) {
            Ok(there) => pairing.lengths.push(here, there),
            Err(ending) => pairing.so_far = Err(ending),
        },
        Err(_stopped) => {}
    }
}

// Holds the lengths of all records against those that the file tells.
fn same_lengths(pairing: &Pairing, params: &Params) -> Result<(), Ending>
    ensures only { IfErr result (IsBadFile Input.Offsets params.now.arcs) }
    ensures steps { (here there : List ℕ) → AreCompared pairing.now.lengths here there
        → Steps (with_lengths here there) result }
{
    match pairing.lengths.first_mismatch() {
        None => Ok(()),
        Some((page, found, stored)) => Err(Ending {
            status: Status::BadArchive(ArchiveFault::Length {
                page,
                found,
                stored,
            }),
            promised: params.arcs(),
        }),
    }
}

/// Checks what follows the words, and the lengths that they tell, if no error came before.
pub fn end_pairing<D: Depot>(
    pairing: &mut Pairing,
    depot: &mut D,
    params: &Params,
) -> Result<(), Ending>
    requires paired { OnOk pairing.old.so_far (IsPaired params.now pairing.old) }
    requires done { OnOk pairing.old.so_far (pairing.old.lengths.page ≡ params.now.nodes) }
    ensures same { D.files depot.new ≡ D.files depot.old }
    ensures later { NonDecreasing (D.counts depot.old) (D.counts depot.new) }
    ensures ends { (files : Files) → D.files depot.old ≡ files → (counts : List ℕ → Counts)
        → NonDecreasing counts (D.counts depot.old) → (name : List ℕ) → pairing.old.name ≡ name
        → (n at : ℕ) → HasCome D.told files counts (D.counts depot.old) params.now name n at pairing.old
        → (IsTrue D.told → (file : List ℕ) → map.get files name ≡ Some file → (places : List ℕ)
        × ComesWith file pairing.old places)
        → EndsPairing D.told files counts (D.counts depot.new) params.now name pairing.old result }
{
    pairing.so_far?;
    end_words(pairing, depot, params)?;
    same_lengths(pairing, params)
}
