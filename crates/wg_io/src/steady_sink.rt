// A sink in memory.
ghost use Rattle.std.specs.Prelude.{◌≡◌, ◌<◌, ◌≤◌, [], ◌++◌, min, length, take, IfOk, IfErr, OnErr};
ghost use Rattle.wg_io.specs.Later.{NoneFalls};
ghost use Rattle.wg_io.specs.Memory.{SteadyBytes, steady_refusals};
ghost use Rattle.wg_outside.specs.Outside.{risen};

use crate::tally::Tally;
use std::alloc::Global;
use std::marker::Model;
use wg_outside::{Sink, WriteError};

/// Bytes in memory: a sink that tells its bytes, and in which a write fails only if memory runs out.
#[derive(Debug)]
pub struct SteadySink {
    taken: Vec<u8>,
    piece: u64,
    tally: Tally,
}

impl Drop for SteadySink {
    fn drop(self) {
        let SteadySink {
            taken,
            piece,
            tally,
        } = self;
    }
}

impl Model for SteadySink {
    ghost use Rattle.std.specs.Prelude.{◌<◌};
    ghost use Rattle.wg_io.specs.Memory.{SteadyBytes};

    ghost Value = { SteadyBytes };

    ghost view = { λ a. record { taken = a.taken.items; piece = a.piece; wants = a.tally.wants } };

    ghost invariant = { λ a. 0 < a.piece };
}

impl SteadySink {
    /// An empty sink, of which one call takes at most `piece` bytes.
    pub fn new(alloc: Global, piece: u64) -> SteadySink
        requires { 0 < piece }
        ensures { result ≡ record { taken = []; piece = piece; wants = 0 } }
    {
        SteadySink {
            taken: Vec::new(alloc),
            piece,
            tally: Tally::new(),
        }
    }

    /// Lends the bytes that it has taken.
    pub fn bytes(&self) -> &[u8]
        ensures { result.now ≡ self.now.taken }
    {
        self.taken.as_slice()
    }
}

impl Sink for SteadySink {
    ghost use Rattle.std.specs.Prelude.{true};
    ghost use Rattle.wg_io.specs.Memory.{steady_refusals};
    ghost use Rattle.wg_io.specs.Later.{NoneFalls, none_falls, none_falls_twice};

    ghost told = { true };

    ghost taken = { λ s. s.taken };

    ghost faults = { λ _. 0 };

    ghost wants = { λ s. s.wants };

    ghost later = { λ a b. NoneFalls (steady_refusals a) (steady_refusals b) };

    fn write(&mut self, piece: &[u8]) -> Result<usize, WriteError>
        requires { 0 < length piece.now }
        ensures count { IfOk result (λ count. (0 < count) × (count ≤ length piece.now)) }
        ensures moved { IfOk result (λ count. count ≡ min self.old.piece (length piece.now)) }
        ensures ok { IfOk result (λ count. self.new
            ≡ record self.old { taken = self.old.taken ++ take count piece.now }) }
        ensures wanted { OnErr result (self.new ≡ record self.old { wants = risen self.old.wants }) }
        ensures only_memory { IfErr result (λ error. error ≡ WriteError.Memory) }
        ensures later { NoneFalls (steady_refusals self.old) (steady_refusals self.new) }
    {
        let count = piece.len().min(self.piece as usize);
        match self.taken.extend_from_slice(&piece[..count]) {
            Ok(()) => Ok(count),
            Err(_) => {
                self.tally.wanted();
                Err(WriteError::Memory)
            }
        }
    }

    ghost stays = { λ a. none_falls (steady_refusals a) };

    ghost goes_on = { λ a b c. none_falls_twice (steady_refusals a) (steady_refusals b) (steady_refusals c) };

    ghost onward = { λ a b l. l };
}
