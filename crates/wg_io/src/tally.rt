// How often calls were refused.
ghost use Rattle.std.specs.Prelude.{◌≡◌, ◌≤◌, ◌↔◌};
ghost use Rattle.wg_outside.specs.Outside.{risen, NonDecreasing};

use std::io::ErrorKind;
use std::marker::Model;
use wg_outside::{ReadError, WriteError};

/// Four counts that stand still at 2^64 - 1, for all names together.
#[derive(Debug, Drop)]
pub struct Tally {
    read_faults: u64,
    write_faults: u64,
    absences: u64,
    wants: u64,
}

impl Model for Tally {
    ghost use Rattle.wg_outside.specs.Outside.{Counts};

    ghost Value = { Counts };

    ghost view = { λ a. record { read_faults = a.read_faults; write_faults = a.write_faults; absences = a.absences; wants = a.wants } };
}

impl Tally {
    pub fn new() -> Tally
        ensures { result ≡ record { read_faults = 0; write_faults = 0; absences = 0; wants = 0 } }
    {
        Tally {
            read_faults: 0,
            write_faults: 0,
            absences: 0,
            wants: 0,
        }
    }

    pub fn read_failed(&mut self)
        ensures risen { self.new ≡ record self.old { read_faults = risen self.old.read_faults } }
        ensures more { self.old.read_faults ≤ self.new.read_faults }
        ensures later { NonDecreasing (λ _. self.old) (λ _. self.new) }
    {
        self.read_faults = self.read_faults.saturating_add(1);
    }

    pub fn write_failed(&mut self)
        ensures risen { self.new ≡ record self.old { write_faults = risen self.old.write_faults } }
        ensures more { self.old.write_faults ≤ self.new.write_faults }
        ensures later { NonDecreasing (λ _. self.old) (λ _. self.new) }
    {
        self.write_faults = self.write_faults.saturating_add(1);
    }

    pub fn absent(&mut self)
        ensures risen { self.new ≡ record self.old { absences = risen self.old.absences } }
        ensures more { self.old.absences ≤ self.new.absences }
        ensures later { NonDecreasing (λ _. self.old) (λ _. self.new) }
    {
        self.absences = self.absences.saturating_add(1);
    }

    pub fn wanted(&mut self)
        ensures risen { self.new ≡ record self.old { wants = risen self.old.wants } }
        ensures more { self.old.wants ≤ self.new.wants }
        ensures later { NonDecreasing (λ _. self.old) (λ _. self.new) }
    {
        self.wants = self.wants.saturating_add(1);
    }

    /// Counts a refused read, and answers why it was refused.
    pub fn refused_read(&mut self, kind: ErrorKind) -> ReadError
        ensures absent { result ≡ ReadError.Absent
            → self.new ≡ record self.old { absences = risen self.old.absences } }
        ensures failed { result ≡ ReadError.Failed
            → self.new ≡ record self.old { read_faults = risen self.old.read_faults } }
        ensures memory { result ≡ ReadError.Memory → self.new ≡ record self.old { wants = risen self.old.wants } }
        ensures later { NonDecreasing (λ _. self.old) (λ _. self.new) }
    {
        match kind {
            ErrorKind::NotFound => {
                self.absent();
                ReadError::Absent
            }
            ErrorKind::OutOfMemory => {
                self.wanted();
                ReadError::Memory
            }
            _ => {
                self.read_failed();
                ReadError::Failed
            }
        }
    }

    /// Counts a refused write, and answers why it was refused.
    pub fn refused_write(&mut self, kind: ErrorKind) -> WriteError
        ensures failed { result ≡ WriteError.Failed
            → self.new ≡ record self.old { write_faults = risen self.old.write_faults } }
        ensures memory { result ≡ WriteError.Memory → self.new ≡ record self.old { wants = risen self.old.wants } }
        ensures which { (result ≡ WriteError.Memory) ↔ (kind ≡ ErrorKind.OutOfMemory) }
        ensures later { NonDecreasing (λ _. self.old) (λ _. self.new) }
    {
        match kind {
            ErrorKind::OutOfMemory => {
                self.wanted();
                WriteError::Memory
            }
            _ => {
                self.write_failed();
                WriteError::Failed
            }
        }
    }
}
