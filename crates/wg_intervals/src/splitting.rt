//! The split of ascending numbers into intervals and residuals.
ghost use Rattle.std.specs.Prelude.{◌≡◌, [], OnOk, OnErr, IfOk};
ghost use Rattle.wg_graph.specs.Ascending.{Ascends};
ghost use Rattle.wg_intervals.specs.Canonical.{intervals_of, residuals_of, ends_and_lengths};

use crate::{Run, Split};
use std::alloc::{AllocError, Global};

impl Split {
    /// Splits other numbers, in the memory of those that are here. After an error there are none.
    pub fn fill(&mut self, extras: &[u64], interval: u64) -> Result<(), AllocError>
        requires { Ascends 0 extras.now }
        ensures intervals { OnOk result (self.new.intervals ≡ ends_and_lengths (intervals_of interval extras.now)) }
        ensures residuals { OnOk result (self.new.residuals ≡ residuals_of interval extras.now) }
        ensures err { OnErr result ((self.new.intervals ≡ []) × (self.new.residuals ≡ [])) }
    {
        let made = self.refill(extras, interval);
        if made.is_err() {
            self.intervals.clear();
            self.residuals.clear();
        }
        made
    }

    // Splits other numbers; an error leaves the first of the parts.
    fn refill(&mut self, extras: &[u64], interval: u64) -> Result<(), AllocError>
        requires { Ascends 0 extras.now }
        ensures intervals { OnOk result (self.new.intervals ≡ ends_and_lengths (intervals_of interval extras.now)) }
        ensures residuals { OnOk result (self.new.residuals ≡ residuals_of interval extras.now) }
    {
        self.intervals.clear();
        self.residuals.clear();
        let mut run = Run::none();
        for number in extras {
            self.add(run.step(*number), interval)?;
        }
        self.add(run.last(), interval)
    }
}

/// Splits ascending numbers into the intervals that are at least `interval` long, the archive's least length, and
/// residuals; 0 is for no intervals. It takes one pass.
pub fn split(alloc: Global, extras: &[u64], interval: u64) -> Result<Split, AllocError>
    requires { Ascends 0 extras.now }
    ensures intervals { IfOk result
        (λ split. split.intervals ≡ ends_and_lengths (intervals_of interval extras.now)) }
    ensures residuals { IfOk result (λ split. split.residuals ≡ residuals_of interval extras.now) }
{
    let mut split = Split::new(alloc);
    split.fill(extras, interval)?;
    Ok(split)
}
