// Whole bytes on their way into a file.
ghost use Rattle.std.specs.Prelude.{◌≡◌, ◌<◌, ◌≤◌, ◌^◌, List, [], ◌∷◌, ◌++◌, length, All};
ghost use Rattle.wg_bits.specs.Bits.{bits_of, low_bits};
ghost use Rattle.wg_bits.specs.Written.{Sends};
ghost use Rattle.wg_bits.specs.declared.buffer.TheConstants.{BUFFER, FULL};

use std::marker::Model;
use wg_outside::{Depot, WriteError, append_all};

// The bytes that a buffer holds.
const BUFFER: usize = 4096;

// With no more than these there is room for one more word.
const FULL: usize = BUFFER - 8;

/// Bytes that wait to go out, in memory of its own.
#[derive(Debug, Drop)]
pub(crate) struct Buffer {
    // those that wait are the first `len`
    bytes: [u8; BUFFER],
    len: usize,
}

impl Model for Buffer {
    ghost use Rattle.std.specs.Prelude.{List, ℕ, ◌≤◌, take};
    ghost use Rattle.wg_bits.specs.declared.buffer.TheConstants.{BUFFER};

    ghost Value = { List ℕ };

    ghost view = { λ b. take b.len b.bytes };

    ghost invariant = { λ b. b.len ≤ BUFFER };
}

impl Buffer {
    pub(crate) fn new() -> Buffer
        ensures { result ≡ [] }
    {
        Buffer {
            bytes: [0; BUFFER],
            len: 0,
        }
    }

    pub(crate) fn len(&self) -> usize
        ensures { result ≡ length self.now }
    {
        self.len
    }

    pub(crate) fn push(&mut self, byte: u8)
        requires { length self.old < BUFFER }
        ensures { self.new ≡ self.old ++ byte ∷ [] }
    {
        self.bytes[self.len] = byte;
        self.len += 1;
    }

    // Adds the 8 bytes of a word, the highest first.
    #[inline(always)]
    fn push_word(&mut self, word: u64)
        requires { length self.old ≤ FULL }
        ensures bits { bits_of self.new ≡ bits_of self.old ++ low_bits 64 word }
        ensures longer { length self.new ≤ BUFFER }
    {
        self.bytes[self.len..self.len + 8].copy_from_slice(&word.to_be_bytes());
        self.len += 8;
    }

    /// Sends all bytes out, by one call if the depot takes them all. Those that it does not take are lost.
    #[cold]
    #[inline(never)]
    pub(crate) fn send<D: Depot>(&mut self, depot: &mut D, name: &str) -> Result<(), WriteError>
        ensures empty { self.new ≡ [] }
        ensures sends { Sends ⟦<D as Depot>⟧ depot.old depot.new name.now (bits_of self.old) [] [] result }
    {
        are_bytes(&self.bytes[..self.len]);
        let sent = append_all(depot, name, &self.bytes[..self.len]);
        self.len = 0;
        sent
    }

    /// Puts a word, and sends all bytes out if there is no room for another one then.
    #[inline(never)]
    pub(crate) fn put<D: Depot>(
        &mut self,
        depot: &mut D,
        name: &str,
        word: u64,
    ) -> Result<(), WriteError>
        requires { length self.old ≤ FULL }
        ensures room { length self.new ≤ FULL }
        ensures sends { Sends ⟦<D as Depot>⟧ depot.old depot.new name.now (bits_of self.old) (low_bits 64 word)
            (bits_of self.new) result }
    {
        self.push_word(word);
        if self.len > FULL {
            return self.send(depot, name);
        }
        Ok(())
    }
}

// What bytes hold is below 2 ^ 8.
fn are_bytes(piece: &[u8])
    ensures { All (λ b. b < 2 ^ 8) piece.now }
{}
