//! Texts that are read line by line.
ghost use Rattle.std.specs.Prelude.{◌≡◌, ◌+◌, ◌<◌, ℕ, List, Option, Some, true, false, [], ◌++◌, Ok, Err, length, IsTrue, OnOk, IfOk, IfErr};
ghost use Rattle.std.specs.FinMap as map;
ghost use Rattle.wg_outside.specs.Outside.{NonDecreasing};
ghost use Rattle.wg_num.specs.Lines.{lines_of};
ghost use Rattle.wg_lines.specs.Reading.{lines_after, IsReadable};
ghost use Rattle.wg_readings.specs.Loading.{LoadsBy};
ghost use Rattle.wg_readings.specs.Pairing.{status_at};
ghost use Rattle.wg_outcomes.specs.declared.status.Input.{Input};

use std::alloc::Global;
use wg_lines::LineReader;
use wg_outcomes::{Ending, Input, Status};
use wg_outside::{Depot, LoadError};

/// How a job ends at an error of an input.
#[cold]
#[inline(never)]
pub fn unread(error: LoadError, input: Input) -> Ending
    ensures status { result.status ≡ status_at input error }
    ensures promised { result.promised ≡ 0 }
{
    Ending::of(match error {
        LoadError::Absent => Status::Missing(input),
        LoadError::Failed => Status::ReadFault(input),
        LoadError::TooLong => Status::OverLimit(input),
        LoadError::Memory => Status::Memory,
    })
}

/// Begins to read a file of this name line by line, which is an input of a job.
pub fn open_lines<D: Depot>(
    alloc: Global,
    depot: &mut D,
    name: &str,
    input: Input,
) -> Result<LineReader, Ending>
    ensures all { IfOk result (λ r. (file : List ℕ) → lines_after file r ≡ lines_of file) }
    ensures none { IfOk result (λ r. r.lines ≡ []) }
    ensures first { IfOk result (λ r. r.first ≡ 0) }
    ensures readable { IsTrue D.told → OnOk result (IsReadable (map.get (D.files depot.old) name.now)) }
    ensures same { D.files depot.new ≡ D.files depot.old }
    ensures later { NonDecreasing (D.counts depot.old) (D.counts depot.new) }
    ensures ends { (names : Input → Option (List ℕ)) → names input ≡ Some name.now
        → IfErr result (λ e. LoadsBy ⟦<D as Depot>⟧ names input depot.old depot.new (Err e)) }
{
    match LineReader::open(alloc, depot, name) {
        Ok(reader) => Ok(reader),
        Err(error) => Err(unread(error, input)),
    }
}

/// Lends the lines that come next, if there are any.
pub fn next_lines<D: Depot>(
    reader: &mut LineReader,
    depot: &mut D,
    name: &str,
    input: Input,
) -> Result<bool, Ending>
    ensures lines { IsTrue D.told → (file : List ℕ) → map.get (D.files depot.old) name.now ≡ Some file
        → lines_after file reader.old ≡ lines_of reader.new.lines ++ lines_after file reader.new }
    ensures end { IsTrue D.told → (file : List ℕ) → map.get (D.files depot.old) name.now ≡ Some file
        → result ≡ Ok false → lines_after file reader.old ≡ [] }
    ensures some { result ≡ Ok true → 0 < length reader.new.lines }
    ensures first { reader.new.first ≡ reader.old.first + length reader.old.lines }
    ensures same { D.files depot.new ≡ D.files depot.old }
    ensures later { NonDecreasing (D.counts depot.old) (D.counts depot.new) }
    ensures ends { (names : Input → Option (List ℕ)) → names input ≡ Some name.now
        → IfErr result (λ e. LoadsBy ⟦<D as Depot>⟧ names input depot.old depot.new (Err e)) }
{
    match reader.advance(depot, name) {
        Ok(more) => Ok(more),
        Err(error) => Err(unread(error, input)),
    }
}
