// A sink in memory with a write that is to fail.
ghost use Rattle.std.specs.Prelude.{◌≡◌, ◌+◌, ◌-◌, ◌<◌, ◌≤◌, ◌^◌, ◌↔◌, [], IsErrOf, IfOk, length, take, ◌++◌, min};
ghost use Rattle.wg_io.specs.Later.{NoneFalls};
ghost use Rattle.wg_io.specs.Memory.{FailingBytes, failing_refusals, no_calls, one_more, IsNamed};
ghost use Rattle.wg_outside.specs.Outside.{risen};

use crate::SteadySink;
use crate::calls::Counter;
use crate::tally::Tally;
use std::alloc::Global;
use std::marker::Model;
use wg_outside::{Sink, WriteError};

/// Bytes in memory: a sink that tells its bytes, and in which the write fails that was named to fail. Writes are
/// counted from 1 since `new`, failing ones too.
#[derive(Debug)]
pub struct MemorySink {
    steady: SteadySink,
    writes: Counter,
    tally: Tally,
}

impl Drop for MemorySink {
    fn drop(self) {
        let MemorySink {
            steady,
            writes,
            tally,
        } = self;
    }
}

impl Model for MemorySink {
    ghost use Rattle.wg_io.specs.Memory.{FailingBytes};

    ghost Value = { FailingBytes };

    ghost view = { λ a. record { steady = a.steady; writes = a.writes; faults = a.tally.write_faults } };
}

impl MemorySink {
    /// An empty sink, of which one call takes at most `piece` bytes, and in which no write is to fail.
    pub fn new(alloc: Global, piece: u64) -> MemorySink
        requires { 0 < piece }
        ensures { result ≡ record {
          steady = record { taken = []; piece = piece; wants = 0 };
          writes = no_calls;
          faults = 0;
        } }
    {
        MemorySink {
            steady: SteadySink::new(alloc, piece),
            writes: Counter::new(),
            tally: Tally::new(),
        }
    }

    /// Names the write that is to fail, counted from 1, in place of the one named before.
    pub fn fail_write(&mut self, k: u64)
        requires { (0 < k) × (k < 2 ^ 64 - 1) }
        ensures { self.new ≡ record self.old { writes = record self.old.writes { named = k } } }
    {
        self.writes.name(k);
    }

    /// Lends the bytes that it has taken.
    pub fn bytes(&self) -> &[u8]
        ensures { result.now ≡ self.now.steady.taken }
    {
        self.steady.bytes()
    }
}

impl Sink for MemorySink {
    ghost use Rattle.std.specs.Prelude.{true};
    ghost use Rattle.wg_io.specs.Memory.{failing_refusals};
    ghost use Rattle.wg_io.specs.Later.{NoneFalls, none_falls, none_falls_twice};

    ghost told = { true };

    ghost taken = { λ s. s.steady.taken };

    ghost faults = { λ s. s.faults };

    ghost wants = { λ s. s.steady.wants };

    ghost later = { λ a b. NoneFalls (failing_refusals a) (failing_refusals b) };

    fn write(&mut self, piece: &[u8]) -> Result<usize, WriteError>
        requires { 0 < length piece.now }
        ensures count { IfOk result (λ count. (0 < count) × (count ≤ length piece.now)) }
        ensures named { IsErrOf result WriteError.Failed ↔ IsNamed self.old.writes }
        ensures moved { IfOk result (λ count. count ≡ min self.old.steady.piece (length piece.now)) }
        ensures ok { IfOk result (λ count. self.new ≡ record self.old {
          writes = one_more self.old.writes;
          steady = record self.old.steady { taken = self.old.steady.taken ++ take count piece.now };
        }) }
        ensures failed { IsErrOf result WriteError.Failed
            → self.new ≡ record self.old { writes = one_more self.old.writes; faults = risen self.old.faults } }
        ensures wanted { IsErrOf result WriteError.Memory
            → self.new ≡ record self.old {
              writes = one_more self.old.writes;
              steady = record self.old.steady { wants = risen self.old.steady.wants };
            } }
        ensures later { NoneFalls (failing_refusals self.old) (failing_refusals self.new) }
    {
        if self.writes.begin() {
            self.tally.write_failed();
            return Err(WriteError::Failed);
        }
        self.steady.write(piece)
    }

    ghost stays = { λ a. none_falls (failing_refusals a) };

    ghost goes_on = { λ a b c. none_falls_twice (failing_refusals a) (failing_refusals b) (failing_refusals c) };

    ghost onward = { λ a b l. l };
}
