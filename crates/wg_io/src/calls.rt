// Calls of one kind, of which one is to fail.
ghost use Rattle.std.specs.Prelude.{◌≡◌, ◌<◌, ◌-◌, ◌^◌, ◌↔◌, IsTrue};
ghost use Rattle.wg_io.specs.Memory.{Calls, no_calls, one_more, IsNamed};

use std::marker::Model;

/// The number of calls so far, which stands still at 2^64 - 1, and the number of the one that is to fail.
#[derive(Debug, Drop)]
pub struct Counter {
    made: u64,
    named: u64,
}

impl Model for Counter {
    ghost use Rattle.std.specs.Prelude.{◌<◌, ◌-◌, ◌^◌};
    ghost use Rattle.wg_io.specs.Memory.{Calls};

    ghost Value = { Calls };

    ghost view = { λ a. record { made = a.made; named = a.named } };

    // A count that stands still is no number of a call that is to fail.
    ghost invariant = { λ a. a.named < 2 ^ 64 - 1 };
}

impl Counter {
    pub fn new() -> Counter
        ensures { result ≡ no_calls }
    {
        Counter { made: 0, named: 0 }
    }

    /// Names the call that is to fail, in place of the one named before.
    pub fn name(&mut self, k: u64)
        requires { k < 2 ^ 64 - 1 }
        ensures { self.new ≡ record self.old { named = k } }
    {
        self.named = k;
    }

    /// Counts a call, and answers whether it is to fail.
    pub fn begin(&mut self) -> bool
        ensures named { IsTrue result ↔ IsNamed self.old }
        ensures counted { self.new ≡ one_more self.old }
    {
        self.made = self.made.saturating_add(1);
        self.made == self.named
    }
}
