//! The offsets file of an archive, of which samples are kept.
ghost use Rattle.std.specs.Prelude.{◌≡◌, ◌+◌, ◌<◌, ◌≤◌, ℕ, List, get_or, Some, IsTrue, IfOk, IfErr};
ghost use Rattle.std.specs.FinMap as map;
ghost use Rattle.wg_params.specs.Parameters.{IsWithinLimits};
ghost use Rattle.wg_source.specs.Held.{IsHeldOf};
ghost use Rattle.wg_source.specs.Stepping.{Steps as StepsOn, Moves};
ghost use Rattle.wg_readings.specs.Finding.{IsOpenOn};
ghost use Rattle.wg_readings.specs.Pairing.{IsStopped};
ghost use Rattle.wg_lookups.specs.Sampling.{HasWordCause, IsSampledBy, IsSampledOn, SamplesOffsetsBy};

use crate::found_file::{FoundFile, find_file};
use std::alloc::Global;
use wg_grammar::{OffsetWord, ReadError};
use wg_offsets::{Extent, Samples};
use wg_outcomes::{Ending, Input};
use wg_outside::{Depot, LoadError};
use wg_params::Params;
use wg_readings::word_ending;
use wg_source::{FileSource, Seek};
use wg_words::Name;

/// An offsets file that was read to its end, and the samples of its places.
#[derive(Debug, Drop)]
pub struct SampledFile {
    pub file: FoundFile,
    pub samples: Samples,
}

// Validates all words of the file.
fn samples_of_file<D: Depot>(
    alloc: Global,
    params: &Params,
    depot: &mut D,
    file: &mut FoundFile,
) -> Result<Samples, Ending>
    requires { file.old.held.at ≡ 0 }
    ensures name { file.new.name ≡ file.old.name }
    ensures steps { StepsOn D.told file.old.name (D.files depot.old) (D.files depot.new) (D.counts depot.old)
        (D.counts depot.new) file.old.held file.new.held }
    ensures limits { IsWithinLimits params.now }
    ensures pages { IfOk result (λ s. s.pages ≡ params.now.nodes) }
    ensures samples { IsTrue D.told → (bytes : List ℕ) → map.get (D.files depot.old) file.old.name ≡ Some bytes
        → IsHeldOf bytes file.old.held → IfOk result (IsSampledBy params.now bytes) }
    ensures stopped { (IsTrue D.told → IsOpenOn (map.get (D.files depot.old) file.old.name) file.old.held)
        → IfErr result (IsStopped D.told (D.files depot.old) (D.counts depot.old) (D.counts depot.new) params.now
        file.old.name) }
{
    let mut source = FileSource::new(depot, file.name.as_str(), &mut file.held);
    match Samples::read(alloc, &mut source, params.nodes(), params.offsets()) {
        Ok(samples) => Ok(samples),
        Err(error) => Err(word_ending(error, params)),
    }
}

/// Validates the offsets file of an archive, which is held against no graph, and keeps samples of its places: 16 bytes
/// for each 1024 of them. It goes through the file once, and holds a piece of it.
pub fn sample_offsets<D: Depot>(
    alloc: Global,
    params: &Params,
    depot: &mut D,
    base: &Name,
) -> Result<SampledFile, Ending>
    ensures { SamplesOffsetsBy ⟦<D as Depot>⟧ base.now params.now depot.old depot.new result }
{
    let mut file = find_file(alloc, depot, base, Input::Offsets)?;
    let samples = samples_of_file(alloc, params, depot, &mut file)?;
    Ok(SampledFile { file, samples })
}

/// Where the record of a page lies, by at most 1024 words of the file, which are read again. If the file has not
/// changed, none of them is refused.
pub fn extent_of<D: Depot>(
    sampled: &mut SampledFile,
    depot: &mut D,
    page: u64,
) -> Result<Extent, ReadError<OffsetWord, LoadError>>
    requires { page < sampled.old.samples.pages }
    ensures name { sampled.new.file.name ≡ sampled.old.file.name }
    ensures samples { sampled.new.samples ≡ sampled.old.samples }
    ensures moves { Moves D.told sampled.old.file.name (D.files depot.old) (D.files depot.new) (D.counts depot.old)
        (D.counts depot.new) sampled.old.file.held sampled.new.file.held }
    ensures onward { IfOk result (λ e. e.start ≤ e.end) }
    ensures lies { IsTrue D.told → (places : List ℕ)
        → IsSampledOn (map.get (D.files depot.old) sampled.old.file.name) sampled.old places
        → IfOk result (λ e. (e.start ≡ get_or places page 0) × (e.end ≡ get_or places (page + 1) 0)) }
    ensures cause { IfErr result (HasWordCause D.told (D.files depot.old) (D.counts depot.old) (D.counts depot.new)
        sampled.old) }
{
    let bit = sampled.samples.bit(page);
    let mut source = FileSource::new(depot, sampled.file.name.as_str(), &mut sampled.file.held);
    match source.go_to(bit) {
        Ok(true) => sampled.samples.extent(page, &mut source),
        Ok(false) => Err(ReadError::Fault(OffsetWord::Cut(sampled.samples.first_word(page)))),
        Err(error) => Err(ReadError::Refused(error)),
    }
}
