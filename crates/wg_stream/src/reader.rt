//! A graph file, read list after list.
ghost use Rattle.std.specs.Prelude.{◌≡◌, ◌+◌, ◌*◌, ◌/◌, ◌<◌, ◌≤◌, ℕ, true, false, List as ListOf, [], Some, None, Ok, Err, length, string_bytes, IsTrue, IfOk, IfErr, IfSome, OnOk, MatchOption};
ghost use Rattle.std.specs.FinMap as map;
ghost use Rattle.wg_outside.specs.declared.limits.TheConstants.{MOST_BYTES};
ghost use Rattle.wg_outside.specs.Outside.{NonDecreasing};
ghost use Rattle.wg_params.specs.Parameters.{IsWithinLimits};
ghost use Rattle.wg_graph.specs.Ascending.{Ascends, Below};
ghost use Rattle.wg_grammar.specs.Record.{Whole};
ghost use Rattle.wg_stream.specs.declared.first.First.{First};
ghost use Rattle.wg_stream.specs.declared.state.State.TheVariants.{Open, Done, Closed};
ghost use Rattle.wg_stream.specs.declared.stream_error.StreamError.TheVariants as errors;
ghost use Rattle.wg_stream.specs.FirstError.{of_first, OfOutside, Says};
ghost use Rattle.wg_stream.specs.Reading.{AgreesIn, Goes, IsInStep, StaysInStep};
ghost use Rattle.wg_source.specs.Stepping.{HasCause};
ghost use Rattle.wg_decoder.specs.Spare.{all_empty};
ghost use Rattle.wg_grammar.specs.Errors.{OfFault};
ghost use Rattle.wg_stream.specs.Errors.{IsOfGraph};
ghost use Rattle.wg_stream.specs.Prefix.{HoldsFew};
ghost use Rattle.wg_source.specs.declared.stretch.TheConstants.{MOST_HELD};

use crate::state::State;
use crate::{First, Pages, StreamError};
use std::alloc::{AllocError, Global};
use std::marker::Model;
use wg_grammar::{ArchiveFault, ReadError};
use wg_outside::{Depot, LoadError};
use wg_params::Params;
use wg_source::{FileSource, Stretch};

/// A graph file that is read list after list, in pieces of at most 4096 bytes.
///
/// It keeps no more lists of the pages before than the window of the parameters has, the list that it lends, and five
/// lists more, whose memory is used again, so that few records take any of their own. None of them is ever longer than
/// there are pages. Of the file it holds at most [`MOST_HELD`](wg_source::MOST_HELD) bytes, however long a record is:
/// behind the record of a list that it has lent it has read no further than that. All this holds after each call, after
/// an error too, and whatever the depot answers.
#[derive(Debug)]
pub struct Reader {
    pages: Pages,
    name: String,
    at: u64,
    held: Stretch,
    state: State,
}

impl Drop for Reader {
    fn drop(self) {
        let Reader {
            pages,
            name,
            at,
            held,
            state,
        } = self;
    }
}

impl Model for Reader {
    ghost use Rattle.std.specs.Prelude.{string_bytes};
    ghost use Rattle.wg_stream.specs.Reading.{Reading, IsSteady};

    ghost Value = { Reading };

    ghost view = { λ r. record { pages = r.pages; name = string_bytes r.name; at = r.at; held = r.held; state = r.state } };

    ghost invariant = { λ r. IsSteady (record { pages = r.pages; name = string_bytes r.name; at = r.at; held = r.held; state = r.state }) };
}

// The first error of a reading, as its later calls name it. The records and the tail have no fault of the offsets.
#[cold]
#[inline(never)]
fn first_of(error: ReadError<ArchiveFault, LoadError>) -> First
    requires { OfFault error IsOfGraph }
    ensures { Says error result }
{
    match error {
        ReadError::Memory => First::Memory,
        ReadError::Refused(error) => First::from(error),
        ReadError::Fault(ArchiveFault::Record(fault)) => First::Fault(fault),
        ReadError::Fault(ArchiveFault::Tail(at)) => First::Tail(at),
        ReadError::Fault(ArchiveFault::ArcsShort(total)) => First::ArcsShort(total),
        ReadError::Fault(ArchiveFault::Offsets(_word)) => unreachable!(),
        ReadError::Fault(ArchiveFault::Length { .. }) => unreachable!(),
    }
}

// A reading after its first error.
fn closed_by(error: ReadError<ArchiveFault, LoadError>) -> State
    requires { OfFault error IsOfGraph }
    ensures { (f : First) × Says error f × (result ≡ Closed f) }
{
    State::Closed(first_of(error))
}

impl Reader {
    ghost use Rattle.std.specs.Borrow.{sem};
    ghost use Rattle.wg_stream.specs.Lending.{RestsSo, KeepsOn, IsDone, HasLent, HasRead, IsClosed};

    /// A reading of the file of this name, before its first page. It reads nothing yet, and keeps and holds nothing.
    pub fn new(alloc: Global, params: Params, name: &str) -> Result<Reader, AllocError>
        ensures limits { IsWithinLimits params }
        ensures params { IfOk result (λ r. r.pages.params ≡ params) }
        ensures name { IfOk result (λ r. r.name ≡ name.now) }
        ensures open { IfOk result (λ r. r.state ≡ Open) }
        ensures none { IfOk result (λ r. (r.pages.page ≡ 0) × (r.pages.arcs ≡ 0) × (r.at ≡ 0)) }
        ensures unlooked { IfOk result (λ r. r.held.looked ≡ false) }
        ensures in_step { IfOk result (λ r. (file : ListOf ℕ) → IsInStep file r []) }
        ensures kept { IfOk result (λ r. (r.pages.kept ≡ []) × (r.pages.spares ≡ all_empty) × (r.pages.past ≡ 0)) }
        ensures held { IfOk result (λ r. r.held.bytes ≡ []) }
    {
        let name = String::from_str(alloc, name)?;
        Ok(Reader {
            pages: Pages::new(alloc, params),
            name,
            at: 0,
            held: Stretch::new(),
            state: State::Open,
        })
    }

    /// The offset after the last record that was read.
    pub fn at(&self) -> u64
        ensures value { result ≡ self.now.at }
        ensures within { result ≤ 8 * MOST_BYTES }
    {
        self.at
    }

    /// The list of the record that was read last.
    pub fn list(&self) -> &[u64]
        ensures value { result.now ≡ self.now.pages.list }
        ensures ascends { Ascends 0 result.now }
        ensures below { Below self.now.pages.params.nodes result.now }
        ensures within { self.now.pages.arcs ≤ self.now.pages.params.arcs }
    {
        self.pages.list()
    }

    /// Reads the record of the page that comes next, whose list is then that of [`list`](Reader::list). An error is the
    /// first one, and after it no more is read.
    #[inline(always)]
    pub fn next_record<D: Depot>(
        &mut self,
        depot: &mut D,
    ) -> Result<(), ReadError<ArchiveFault, LoadError>>
        requires going { self.old.state ≡ Open }
        requires more { self.old.pages.page < self.old.pages.params.nodes }
        ensures goes { Goes D.told (D.files depot.old) (D.files depot.new) (D.counts depot.old) (D.counts depot.new)
            self.old self.new result }
        ensures going { OnOk result (self.new.state ≡ Open) }
        ensures page { OnOk result (self.new.pages.page ≡ self.old.pages.page + 1) }
        ensures arcs { OnOk result (self.new.pages.arcs ≡ self.old.pages.arcs + length self.new.pages.list) }
        ensures near { OnOk result (self.new.held.first + length self.new.held.bytes ≤ self.new.at / 8 + MOST_HELD) }
        ensures in_step { IsTrue D.told → (file : ListOf ℕ) → map.get (D.files depot.old) self.old.name ≡ Some file
            → (whole : ListOf Whole) → IsInStep file self.old whole
            → OnOk result (StaysInStep file self.new whole (Ok true)) }
    {
        if let Err(error) = self.held.look(depot, self.name.as_str()) {
            self.state = closed_by(ReadError::Refused(error));
            return Err(ReadError::Refused(error));
        }
        let mut source = FileSource::new(depot, self.name.as_str(), &mut self.held);
        match self.pages.next(&mut source) {
            Ok(()) => {
                self.at = self.held.at();
                Ok(())
            }
            Err(error) => {
                self.state = closed_by(error);
                Err(error)
            }
        }
    }

    /// Checks what follows the records: the tail, and the number of arcs. From then on, and after an error, no more is
    /// read.
    #[cold]
    #[inline(never)]
    pub fn finish<D: Depot>(
        &mut self,
        depot: &mut D,
    ) -> Result<(), ReadError<ArchiveFault, LoadError>>
        requires going { self.old.state ≡ Open }
        requires done { self.old.pages.page ≡ self.old.pages.params.nodes }
        ensures goes { Goes D.told (D.files depot.old) (D.files depot.new) (D.counts depot.old) (D.counts depot.new)
            self.old self.new result }
        ensures done { OnOk result ((self.new.state ≡ Done) × (self.new.pages ≡ self.old.pages)) }
        ensures total { OnOk result (self.old.pages.arcs ≡ self.old.pages.params.arcs) }
        ensures in_step { IsTrue D.told → (file : ListOf ℕ) → map.get (D.files depot.old) self.old.name ≡ Some file
            → (whole : ListOf Whole) → IsInStep file self.old whole → OnOk result (AgreesIn Done file self.new whole) }
    {
        if let Err(error) = self.held.look(depot, self.name.as_str()) {
            self.state = closed_by(ReadError::Refused(error));
            return Err(ReadError::Refused(error));
        }
        let mut source = FileSource::new(depot, self.name.as_str(), &mut self.held);
        match self.pages.finish(&mut source) {
            Ok(()) => {
                self.state = State::Done;
                Ok(())
            }
            Err(error) => {
                self.state = closed_by(error);
                Err(error)
            }
        }
    }

    /// Lends the list of the page that comes next, or none, once all lists were lent and the end is right.
    pub fn next<D: Depot>(&mut self, depot: &mut D) -> Result<Option<&[u64]>, StreamError>
        ensures ascends { IfOk result (λ o. IfSome o (λ s. Ascends 0 s.now)) }
        ensures below { IfOk result (λ o. IfSome o (λ s. Below self.old.pages.params.nodes s.now)) }
        ensures done { self.old.state ≡ Done → (result ≡ Ok None) × (depot.new ≡ depot.old) }
        ensures closed { (e : First) → self.old.state ≡ Closed e → (result ≡ Err (errors.Closed e))
            × (depot.new ≡ depot.old) }
        ensures absent { IsTrue D.told → map.get (D.files depot.old) self.old.name ≡ None → self.old.state ≡ Open
            → self.old.held.looked ≡ false → result ≡ Err errors.Absent }
        ensures cause { self.old.state ≡ Open → (f : First) → result ≡ Err (of_first f)
            → OfOutside f (HasCause D.told self.old.name (D.files depot.old) (D.counts depot.old) (D.counts depot.new)
            self.old.held) }
        ensures same { D.files depot.new ≡ D.files depot.old }
        ensures later { NonDecreasing (D.counts depot.old) (D.counts depot.new) }
        ensures* after { sem 𝓛 (RestsSo self.entry (λ after.
            KeepsOn self.old after
            × IfOk result (λ o. MatchOption o (IsDone self.old after) (λ s. HasLent self.old after s.now))
            × IfErr result (IsClosed self.old after)
            × (IsTrue D.told → (file : ListOf ℕ) → map.get (D.files depot.old) self.old.name ≡ Some file
            → (whole : ListOf Whole) → IsInStep file self.old whole →
            IfOk result (λ o. MatchOption o (IsInStep file after whole) (λ s. HasRead file after whole s.now))
            × IfErr result (λ e. IsInStep file after whole)))) }
    {
        match self.state {
            State::Closed(first) => return Err(StreamError::Closed(first)),
            State::Done => return Ok(None),
            State::Open => {}
        }
        if self.pages.is_done() {
            return match self.finish(depot) {
                Ok(()) => Ok(None),
                Err(error) => Err(StreamError::from(first_of(error))),
            };
        }
        match self.next_record(depot) {
            Ok(()) => Ok(Some(self.list())),
            Err(error) => Err(StreamError::from(first_of(error))),
        }
    }
}
