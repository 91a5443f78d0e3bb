// A depot of one file of zeros.
ghost use Rattle.std.specs.Prelude.{◌≡◌, ◌-◌, ◌<◌, ◌≤◌, min, length, take, replicate, IfOk, IfErr, OnOk, OnErr, IsErrOf};
ghost use Rattle.std.specs.FinMap as map;
ghost use Rattle.wg_io.specs.Memory.{zero_counts, OneFile, files_of_zeros};
ghost use Rattle.wg_outside.specs.Outside.{NonDecreasing, Increased, appended, created, risen};
ghost use Rattle.wg_outside.specs.Reads.{IsPieceOf, Reads};

use crate::tally::Tally;
use std::marker::Model;
use wg_outside::{Depot, ReadError, WriteError};

/// One file of zero bytes, however long, which takes no memory: a depot that tells its bytes, and to which nothing can
/// be written.
#[derive(Debug, Drop)]
pub struct ZeroDepot<'a> {
    name: &'a str,
    length: u64,
    tally: Tally,
}

impl<'a> Model for ZeroDepot<'a> {
    ghost use Rattle.wg_io.specs.Memory.{OneFile};

    ghost Value = { OneFile };

    ghost view = { λ a. record { name = a.name.now; zeros = a.length; write_faults = a.tally.write_faults; absences = a.tally.absences } };
}

impl<'a> ZeroDepot<'a> {
    /// A depot of the file of this name, of `length` zero bytes, and of no other. It borrows the name.
    pub fn new(name: &'a str, length: u64) -> ZeroDepot<'a>
        ensures { result ≡ record { name = name.now; zeros = length; write_faults = 0; absences = 0 } }
    {
        ZeroDepot {
            name,
            length,
            tally: Tally::new(),
        }
    }
}

impl<'a> Depot for ZeroDepot<'a> {
    ghost use Rattle.std.specs.Prelude.{true};
    ghost use Rattle.wg_io.specs.Memory.{files_of_zeros, zero_counts};

    ghost told = { true };

    ghost files = { files_of_zeros };

    ghost counts = { λ d _. zero_counts d };

    #[tactic(auto, using(wg_outside::proofs::FilesLemmas::none_falls_once))]
    fn read(&mut self, name: &str, at: u64, buf: &mut [u8]) -> Result<usize, ReadError>
        requires { 0 < length buf.old }
        ensures count { IfOk result (λ count. count ≤ length buf.new) }
        ensures bytes { Reads (map.get (files_of_zeros self.old) name.now) at buf.new result }
        ensures same { files_of_zeros self.new ≡ files_of_zeros self.old }
        ensures moved { IfOk result (λ count. count ≡ min (length buf.new) (self.old.zeros - at)) }
        ensures ok { OnOk result (self.new ≡ self.old) }
        ensures absent { OnErr result (self.new ≡ record self.old { absences = risen self.old.absences }) }
        ensures only_absent { IfErr result (λ error. error ≡ ReadError.Absent) }
        ensures absences { IsErrOf result ReadError.Absent → Increased self.old.absences self.new.absences }
        ensures failed { IsErrOf result ReadError.Failed → Increased 0 0 }
        ensures memory { IsErrOf result ReadError.Memory → Increased 0 0 }
        ensures later { NonDecreasing (λ _. zero_counts self.old) (λ _. zero_counts self.new) }
    {
        if name == self.name {
            return Ok(fill_piece(self.length, at, buf));
        }
        self.tally.absent();
        Err(ReadError::Absent)
    }

    #[tactic(auto, using(wg_outside::proofs::FilesLemmas::none_falls_once))]
    fn create(&mut self, name: &str) -> Result<(), WriteError>
        ensures fails { result ≡ Err WriteError.Failed }
        ensures ok { OnOk result (files_of_zeros self.new ≡ created (files_of_zeros self.old) name.now) }
        ensures err { OnErr result (files_of_zeros self.new ≡ files_of_zeros self.old) }
        ensures failed { IsErrOf result WriteError.Failed → Increased self.old.write_faults self.new.write_faults }
        ensures memory { IsErrOf result WriteError.Memory → Increased 0 0 }
        ensures counted { self.new ≡ record self.old { write_faults = risen self.old.write_faults } }
        ensures later { NonDecreasing (λ _. zero_counts self.old) (λ _. zero_counts self.new) }
    {
        self.tally.write_failed();
        Err(WriteError::Failed)
    }

    #[tactic(auto, using(wg_outside::proofs::FilesLemmas::none_falls_once))]
    fn append(&mut self, name: &str, piece: &[u8]) -> Result<usize, WriteError>
        requires { 0 < length piece.now }
        ensures count { IfOk result (λ count. (0 < count) × (count ≤ length piece.now)) }
        ensures fails { result ≡ Err WriteError.Failed }
        ensures ok { IfOk result (λ count. files_of_zeros self.new
            ≡ appended (files_of_zeros self.old) name.now (take count piece.now)) }
        ensures err { OnErr result (files_of_zeros self.new ≡ files_of_zeros self.old) }
        ensures failed { IsErrOf result WriteError.Failed → Increased self.old.write_faults self.new.write_faults }
        ensures memory { IsErrOf result WriteError.Memory → Increased 0 0 }
        ensures counted { self.new ≡ record self.old { write_faults = risen self.old.write_faults } }
        ensures later { NonDecreasing (λ _. zero_counts self.old) (λ _. zero_counts self.new) }
    {
        self.tally.write_failed();
        Err(WriteError::Failed)
    }
}

// The zeros from an offset on, as far as the buffer goes.
fn fill_piece(zeros: u64, at: u64, buf: &mut [u8]) -> usize
    requires { 0 < length buf.old }
    ensures bytes { IsPieceOf (replicate zeros 0) at buf.new result }
    ensures count { result ≡ min (length buf.new) (zeros - at) }
{
    let count = buf.len().min(zeros.saturating_sub(at) as usize);
    buf[..count].fill(0);
    count
}
