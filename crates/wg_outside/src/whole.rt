// A whole file in memory.
ghost use Rattle.std.specs.Prelude.{◌≡◌, ◌<◌, ◌≤◌, [], ◌++◌, length, IsTrue, IsErrOf, IfOk, OnOk, OnErr};
ghost use Rattle.std.specs.FinMap as map;
ghost use Rattle.wg_outside.specs.Outside.{NonDecreasing, Increased};
ghost use Rattle.wg_outside.specs.Reads.{Loads};

use crate::{Depot, MOST_BYTES, ReadError};
use std::alloc::{AllocError, Global};
use std::marker::Model;
use thiserror::Error;

const PIECE: usize = 65_536;

/// The bytes of a file or a text, in memory.
#[derive(Clone, Debug, Drop)]
pub struct List8 {
    bytes: Vec<u8>,
}

impl Model for List8 {
    ghost use Rattle.std.specs.Prelude.{List, ℕ};

    ghost Value = { List ℕ };

    ghost view = { λ a. a.bytes.items };
}

impl PartialEq for List8 {
    ghost use Rattle.std.specs.Prelude.{bytes_eq};
    ghost use Rattle.std.specs.Cmp.{partial_equiv_from_equiv};
    ghost use Rattle.std.specs.Cmp.Lexicographic.{nat_list_eq_equiv};

    ghost eq = { bytes_eq };

    ghost laws = { partial_equiv_from_equiv nat_list_eq_equiv };

    fn eq(&self, other: &List8) -> bool {
        self.bytes == other.bytes
    }
}

impl Eq for List8 {
    ghost use Rattle.std.specs.Cmp.Lexicographic.{nat_list_eq_equiv};

    ghost laws = { nat_list_eq_equiv };
}

impl List8 {
    /// No bytes, and no memory yet.
    pub fn new(alloc: Global) -> List8
        ensures { result ≡ [] }
    {
        List8 {
            bytes: Vec::new(alloc),
        }
    }

    /// Adds bytes at the end.
    pub fn extend(&mut self, piece: &[u8]) -> Result<(), AllocError>
        ensures ok { OnOk result (self.new ≡ self.old ++ piece.now) }
        ensures err { OnErr result (self.new ≡ self.old) }
    {
        self.bytes.extend_from_slice(piece)?;
        Ok(())
    }

    /// The bytes.
    pub fn as_slice(&self) -> &[u8]
        ensures { result.now ≡ self.now }
    {
        self.bytes.as_slice()
    }
}

/// Why a file was not read whole.
#[derive(Clone, Copy, Debug, PartialEq, Eq, Error)]
pub enum LoadError {
    #[error("no such file")]
    Absent,
    #[error("read failed")]
    Failed,
    #[error("too long")]
    TooLong,
    #[error("out of memory")]
    Memory,
}

impl From<ReadError> for LoadError {
    ghost use Rattle.wg_outside.specs.Reads.{load_error};

    ghost from_gives = { λ r e. e ≡ load_error r };

    fn from(error: ReadError) -> Self {
        match error {
            ReadError::Failed => LoadError::Failed,
            ReadError::Absent => LoadError::Absent,
            ReadError::Memory => LoadError::Memory,
        }
    }
}

impl From<AllocError> for LoadError {
    ghost use Rattle.wg_outside.specs.declared.whole.LoadError.TheVariants as load;

    ghost from_gives = { λ _ e. e ≡ load.Memory };

    fn from(_: AllocError) -> Self {
        LoadError::Memory
    }
}

/// Reads a whole file into memory, in pieces of 65536 bytes.
///
/// The byte at the limit is asked for first, so that a file that is too long is refused before any of it is held; one
/// that grows meanwhile is refused when it passes the limit.
pub fn read_whole<D: Depot>(alloc: Global, depot: &mut D, name: &str) -> Result<List8, LoadError>
    ensures bytes { IsTrue D.told → Loads (map.get (D.files depot.old) name.now) result }
    ensures same { D.files depot.new ≡ D.files depot.old }
    ensures absent { IsErrOf result LoadError.Absent
        → Increased (D.counts depot.old name.now).absences (D.counts depot.new name.now).absences }
    ensures failed { IsErrOf result LoadError.Failed
        → Increased (D.counts depot.old name.now).read_faults (D.counts depot.new name.now).read_faults }
    ensures later { NonDecreasing (D.counts depot.old) (D.counts depot.new) }
    ensures short { IfOk result (λ bytes. length bytes ≤ MOST_BYTES) }
{
    let mut probe = [0u8; 1];
    if depot.read(name, MOST_BYTES, &mut probe)? > 0 {
        return Err(LoadError::TooLong);
    }
    let mut bytes = Vec::new(alloc);
    let mut buffer = [0u8; PIECE];
    loop {
        let count = depot.read(name, bytes.len() as u64, &mut buffer)?;
        if count == 0 {
            break;
        }
        if bytes.len() + count > MOST_BYTES as usize {
            return Err(LoadError::TooLong);
        }
        bytes.extend_from_slice(&buffer[..count])?;
    }
    Ok(List8 { bytes })
}
