// A depot in memory with calls that are to fail.
ghost use Rattle.std.specs.Prelude.{◌≡◌, ◌≢◌, ◌-◌, ◌^◌, ◌<◌, ◌≤◌, ◌↔◌, min, length, take, IsTrue, IfOk, IfErr, OnOk, OnErr, IsErrOf};
ghost use Rattle.std.specs.FinMap as map;
ghost use Rattle.wg_io.specs.Memory.{failing_counts, FailingFiles, no_calls, one_more, IsNamed};
ghost use Rattle.wg_outside.specs.Outside.{NonDecreasing, appended, content, created, risen};
ghost use Rattle.wg_outside.specs.Reads.{Reads};

use crate::SteadyDepot;
use crate::calls::Counter;
use crate::tally::Tally;
use std::alloc::{AllocError, Global};
use std::marker::Model;
use wg_outside::{Depot, ReadError, WriteError};

/// Files in memory: a depot that tells its bytes, and in which the calls fail that were named to fail. Calls of each
/// kind are counted from 1 since `new`, failing ones too.
#[derive(Debug)]
pub struct MemoryDepot {
    steady: SteadyDepot,
    reads: Counter,
    creates: Counter,
    appends: Counter,
    tally: Tally,
}

impl Drop for MemoryDepot {
    fn drop(self) {
        let MemoryDepot {
            steady,
            reads,
            creates,
            appends,
            tally,
        } = self;
    }
}

impl Model for MemoryDepot {
    ghost use Rattle.wg_io.specs.Memory.{FailingFiles, failing_files_code};

    ghost Value = { FailingFiles };

    ghost coded = { failing_files_code };

    ghost view = { λ a. record {
      steady = a.steady;
      reads = a.reads;
      creates = a.creates;
      appends = a.appends;
      read_faults = a.tally.read_faults;
      write_faults = a.tally.write_faults;
    } };
}

impl MemoryDepot {
    /// A depot without files, of which one call moves at most `piece` bytes, and in which no call is to fail.
    pub fn new(alloc: Global, piece: u64) -> MemoryDepot
        requires { 0 < piece }
        ensures { result ≡ record {
          steady = record { files = map.empty; piece = piece; absences = 0; wants = 0 };
          reads = no_calls;
          creates = no_calls;
          appends = no_calls;
          read_faults = 0;
          write_faults = 0;
        } }
    {
        MemoryDepot {
            steady: SteadyDepot::new(alloc, piece),
            reads: Counter::new(),
            creates: Counter::new(),
            appends: Counter::new(),
            tally: Tally::new(),
        }
    }

    /// Gives the depot a file, in place of one of that name.
    pub fn put_file(&mut self, name: &str, bytes: &[u8]) -> Result<(), AllocError>
        ensures ok { OnOk result (self.new ≡ record self.old {
          steady = record self.old.steady {
            files = map.insert
                self.old.steady.files name.now bytes.now;
          };
        }) }
        ensures err { OnErr result (self.new ≡ self.old) }
    {
        self.steady.put_file(name, bytes)
    }

    /// Names the read that is to fail, counted from 1, in place of the one named before.
    pub fn fail_read(&mut self, k: u64)
        requires { (0 < k) × (k < 2 ^ 64 - 1) }
        ensures { self.new ≡ record self.old { reads = record self.old.reads { named = k } } }
    {
        self.reads.name(k);
    }

    /// Names the call of `create` that is to fail, counted from 1, in place of the one named before.
    pub fn fail_create(&mut self, k: u64)
        requires { (0 < k) × (k < 2 ^ 64 - 1) }
        ensures { self.new ≡ record self.old { creates = record self.old.creates { named = k } } }
    {
        self.creates.name(k);
    }

    /// Names the call of `append` that is to fail, counted from 1, in place of the one named before.
    pub fn fail_append(&mut self, k: u64)
        requires { (0 < k) × (k < 2 ^ 64 - 1) }
        ensures { self.new ≡ record self.old { appends = record self.old.appends { named = k } } }
    {
        self.appends.name(k);
    }
}

impl Depot for MemoryDepot {
    ghost use Rattle.std.specs.Prelude.{true};
    ghost use Rattle.wg_io.specs.Memory.{failing_counts};

    ghost told = { true };

    ghost files = { λ d. d.steady.files };

    ghost counts = { λ d _. failing_counts d };

    #[tactic(auto, using(wg_outside::proofs::FilesLemmas::none_falls_once))]
    fn read(&mut self, name: &str, at: u64, buf: &mut [u8]) -> Result<usize, ReadError>
        requires { 0 < length buf.old }
        ensures count { IfOk result (λ count. count ≤ length buf.new) }
        ensures bytes { Reads (map.get self.old.steady.files name.now) at buf.new result }
        ensures moved { IfOk result (λ count. count
            ≡ min self.old.steady.piece (min (length buf.new) (length (content self.old.steady.files name.now) - at))) }
        ensures named { IsNamed self.old.reads → IsTrue (map.contains_key self.old.steady.files name.now)
            → IsErrOf result ReadError.Failed }
        ensures only_named { IsErrOf result ReadError.Failed → IsNamed self.old.reads }
        ensures ok { OnOk result (self.new ≡ record self.old { reads = one_more self.old.reads }) }
        ensures failed { IsErrOf result ReadError.Failed
            → self.new ≡ record self.old { reads = one_more self.old.reads; read_faults = risen self.old.read_faults } }
        ensures absent { IsErrOf result ReadError.Absent
            → self.new ≡ record self.old {
              reads = one_more self.old.reads;
              steady = record self.old.steady { absences = risen self.old.steady.absences };
            } }
        ensures no_memory { IfErr result (λ error. error ≢ ReadError.Memory) }
        ensures later { NonDecreasing (λ _. failing_counts self.old) (λ _. failing_counts self.new) }
    {
        if self.reads.begin() && self.steady.holds(name) {
            self.tally.read_failed();
            return Err(ReadError::Failed);
        }
        self.steady.read(name, at, buf)
    }

    #[tactic(auto, using(wg_outside::proofs::FilesLemmas::none_falls_once))]
    fn create(&mut self, name: &str) -> Result<(), WriteError>
        ensures named { IsErrOf result WriteError.Failed ↔ IsNamed self.old.creates }
        ensures ok { OnOk result (self.new ≡ record self.old {
          creates = one_more self.old.creates;
          steady = record self.old.steady { files = created self.old.steady.files name.now };
        }) }
        ensures failed { IsErrOf result WriteError.Failed
            → self.new ≡ record self.old {
              creates = one_more self.old.creates;
              write_faults = risen self.old.write_faults;
            } }
        ensures wanted { IsErrOf result WriteError.Memory
            → self.new ≡ record self.old {
              creates = one_more self.old.creates;
              steady = record self.old.steady { wants = risen self.old.steady.wants };
            } }
        ensures later { NonDecreasing (λ _. failing_counts self.old) (λ _. failing_counts self.new) }
    {
        if self.creates.begin() {
            self.tally.write_failed();
            return Err(WriteError::Failed);
        }
        self.steady.create(name)
    }

    #[tactic(auto, using(wg_outside::proofs::FilesLemmas::none_falls_once))]
    fn append(&mut self, name: &str, piece: &[u8]) -> Result<usize, WriteError>
        requires { 0 < length piece.now }
        ensures count { IfOk result (λ count. (0 < count) × (count ≤ length piece.now)) }
        ensures named { IsErrOf result WriteError.Failed ↔ IsNamed self.old.appends }
        ensures moved { IfOk result (λ count. count ≡ min self.old.steady.piece (length piece.now)) }
        ensures ok { IfOk result (λ count. self.new ≡ record self.old {
          appends = one_more self.old.appends;
          steady = record self.old.steady {
            files = appended self.old.steady.files name.now
                (take count piece.now);
          };
        }) }
        ensures failed { IsErrOf result WriteError.Failed
            → self.new ≡ record self.old {
              appends = one_more self.old.appends;
              write_faults = risen self.old.write_faults;
            } }
        ensures wanted { IsErrOf result WriteError.Memory
            → self.new ≡ record self.old {
              appends = one_more self.old.appends;
              steady = record self.old.steady { wants = risen self.old.steady.wants };
            } }
        ensures later { NonDecreasing (λ _. failing_counts self.old) (λ _. failing_counts self.new) }
    {
        if self.appends.begin() {
            self.tally.write_failed();
            return Err(WriteError::Failed);
        }
        self.steady.append(name, piece)
    }
}
