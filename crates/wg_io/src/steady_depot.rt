// A depot in memory.
ghost use Rattle.std.specs.Prelude.{◌≡◌, ◌-◌, ◌<◌, ◌≤◌, min, length, take, IfOk, IfErr, OnOk, OnErr, option_map};
ghost use Rattle.std.specs.FinMap as map;
ghost use Rattle.wg_io.specs.Memory.{steady_counts, SteadyFiles};
ghost use Rattle.wg_outside.specs.Outside.{NonDecreasing, appended, content, created, risen};
ghost use Rattle.wg_outside.specs.Reads.{IsPieceOf, Reads};

use crate::held::HeldFiles;
use crate::tally::Tally;
use std::alloc::{AllocError, Global};
use std::marker::Model;
use wg_outside::{Depot, ReadError, WriteError};

/// Files in memory: a depot that tells its bytes, and in which a call fails only if memory runs out. A call goes
/// through the names one by one.
#[derive(Debug)]
pub struct SteadyDepot {
    files: HeldFiles,
    piece: u64,
    tally: Tally,
}

impl Drop for SteadyDepot {
    fn drop(self) {
        let SteadyDepot {
            files,
            piece,
            tally,
        } = self;
    }
}

impl Model for SteadyDepot {
    ghost use Rattle.std.specs.Prelude.{◌<◌};
    ghost use Rattle.wg_io.specs.Memory.{SteadyFiles, steady_files_code};

    ghost Value = { SteadyFiles };

    ghost coded = { steady_files_code };

    ghost view = { λ a. record { files = a.files; piece = a.piece; absences = a.tally.absences; wants = a.tally.wants } };

    ghost invariant = { λ a. 0 < a.piece };
}

impl SteadyDepot {
    /// A depot without files, of which one call moves at most `piece` bytes.
    pub fn new(alloc: Global, piece: u64) -> SteadyDepot
        requires { 0 < piece }
        ensures { result ≡ record { files = map.empty; piece = piece; absences = 0; wants = 0 } }
    {
        SteadyDepot {
            files: HeldFiles::new(alloc),
            piece,
            tally: Tally::new(),
        }
    }

    /// Gives the depot a file, in place of one of that name.
    pub fn put_file(&mut self, name: &str, bytes: &[u8]) -> Result<(), AllocError>
        ensures ok { OnOk result (self.new ≡ record self.old { files = map.insert self.old.files name.now bytes.now }) }
        ensures err { OnErr result (self.new ≡ self.old) }
    {
        self.files.put(name, bytes)
    }

    /// Lends the bytes of a file, if there is one of this name.
    pub fn file(&self, name: &str) -> Option<&[u8]>
        ensures { option_map (λ bytes. bytes.now) result ≡ map.get self.now.files name.now }
    {
        self.files.get(name)
    }

    /// Whether there is such a file.
    pub fn holds(&self, name: &str) -> bool
        ensures { result ≡ map.contains_key self.now.files name.now }
    {
        self.files.get(name).is_some()
    }
}

impl Depot for SteadyDepot {
    ghost use Rattle.std.specs.Prelude.{true};
    ghost use Rattle.wg_io.specs.Memory.{steady_counts};

    ghost told = { true };

    ghost files = { λ d. d.files };

    ghost counts = { λ d _. steady_counts d };

    #[tactic(auto, using(wg_outside::proofs::FilesLemmas::none_falls_once))]
    fn read(&mut self, name: &str, at: u64, buf: &mut [u8]) -> Result<usize, ReadError>
        requires { 0 < length buf.old }
        ensures count { IfOk result (λ count. count ≤ length buf.new) }
        ensures bytes { Reads (map.get self.old.files name.now) at buf.new result }
        ensures moved { IfOk result (λ count. count
            ≡ min self.old.piece (min (length buf.new) (length (content self.old.files name.now) - at))) }
        ensures ok { OnOk result (self.new ≡ self.old) }
        ensures absent { OnErr result (self.new ≡ record self.old { absences = risen self.old.absences }) }
        ensures only_absent { IfErr result (λ error. error ≡ ReadError.Absent) }
        ensures later { NonDecreasing (λ _. steady_counts self.old) (λ _. steady_counts self.new) }
    {
        match self.files.get(name) {
            Some(file) => Ok(copy_piece(file, at, self.piece, buf)),
            None => {
                self.tally.absent();
                Err(ReadError::Absent)
            }
        }
    }

    #[tactic(auto, using(wg_outside::proofs::FilesLemmas::none_falls_once))]
    fn create(&mut self, name: &str) -> Result<(), WriteError>
        ensures ok { OnOk result (self.new ≡ record self.old { files = created self.old.files name.now }) }
        ensures wanted { OnErr result (self.new ≡ record self.old { wants = risen self.old.wants }) }
        ensures only_memory { IfErr result (λ error. error ≡ WriteError.Memory) }
        ensures later { NonDecreasing (λ _. steady_counts self.old) (λ _. steady_counts self.new) }
    {
        match self.files.put(name, b"") {
            Ok(()) => Ok(()),
            Err(_) => {
                self.tally.wanted();
                Err(WriteError::Memory)
            }
        }
    }

    #[tactic(auto, using(wg_outside::proofs::FilesLemmas::none_falls_once))]
    fn append(&mut self, name: &str, piece: &[u8]) -> Result<usize, WriteError>
        requires { 0 < length piece.now }
        ensures count { IfOk result (λ count. (0 < count) × (count ≤ length piece.now)) }
        ensures moved { IfOk result (λ count. count ≡ min self.old.piece (length piece.now)) }
        ensures ok { IfOk result (λ count. self.new
            ≡ record self.old { files = appended self.old.files name.now (take count piece.now) }) }
        ensures wanted { OnErr result (self.new ≡ record self.old { wants = risen self.old.wants }) }
        ensures only_memory { IfErr result (λ error. error ≡ WriteError.Memory) }
        ensures later { NonDecreasing (λ _. steady_counts self.old) (λ _. steady_counts self.new) }
    {
        let count = piece.len().min(self.piece as usize);
        match self.files.extend(name, &piece[..count]) {
            Ok(()) => Ok(count),
            Err(_) => {
                self.tally.wanted();
                Err(WriteError::Memory)
            }
        }
    }
}

// Copies what stands in the file from an offset on, as far as the buffer and one call go.
fn copy_piece(file: &[u8], at: u64, piece: u64, buf: &mut [u8]) -> usize
    requires room { 0 < length buf.old }
    requires piece { 0 < piece }
    ensures bytes { IsPieceOf file.now at buf.new result }
    ensures count { result ≡ min piece (min (length buf.new) (length file.now - at)) }
{
    let at = file.len().min(at as usize);
    let rest = &file[at..];
    let count = rest.len().min(buf.len()).min(piece as usize);
    buf[..count].copy_from_slice(&rest[..count]);
    count
}
