//! The parts of a list: its intervals, and what is in none.
ghost use Rattle.std.specs.Prelude.{◌≡◌, ◌+◌, ◌≤◌, ◌^◌, [], ◌∷◌, ◌++◌, not, filter, option_to_list, OnOk};
ghost use Rattle.std.specs.List.{flat_map};
ghost use Rattle.std.specs.Option.{ForSome};
ghost use Rattle.wg_intervals.specs.Canonical.{is_long, numbers_of, ends_and_lengths};

use crate::Run;
use std::alloc::{AllocError, Global};
use wg_graph::List;

/// The intervals among ascending numbers, and the residuals, which are in none: 16 bytes for each interval, 8 for each
/// residual.
#[derive(Debug, Drop)]
pub struct Split {
    /// Left end and length of each interval, one after the other.
    pub intervals: List,
    /// The residuals, ascending.
    pub residuals: List,
}

impl Split {
    /// No numbers, and no memory yet.
    pub fn new(alloc: Global) -> Split
        ensures { (result.intervals ≡ []) × (result.residuals ≡ []) }
    {
        Split {
            intervals: List::new(alloc),
            residuals: List::new(alloc),
        }
    }

    // Adds a run, if there is one, as an interval or as residuals.
    #[inline(always)]
    pub(crate) fn add(&mut self, run: Option<Run>, least: u64) -> Result<(), AllocError>
        requires { ForSome run (λ r. r.left + r.length ≤ 2 ^ 64) }
        ensures intervals { OnOk result (self.new.intervals
            ≡ self.old.intervals ++ ends_and_lengths (filter (is_long least) (option_to_list run))) }
        ensures residuals { OnOk result (self.new.residuals
            ≡ self.old.residuals ++ flat_map numbers_of (filter (λ r. not (is_long least r)) (option_to_list run))) }
    {
        match run {
            Some(run) => self.add_run(run, least),
            None => Ok(()),
        }
    }

    fn add_run(&mut self, run: Run, least: u64) -> Result<(), AllocError>
        requires { run.left + run.length ≤ 2 ^ 64 }
        ensures intervals { OnOk result (self.new.intervals
            ≡ self.old.intervals ++ ends_and_lengths (filter (is_long least) (run ∷ []))) }
        ensures residuals { OnOk result (self.new.residuals
            ≡ self.old.residuals ++ flat_map numbers_of (filter (λ r. not (is_long least r)) (run ∷ []))) }
    {
        if least > 0 && least <= run.length {
            self.intervals.push(run.left)?;
            self.intervals.push(run.length)?;
            return Ok(());
        }
        add_numbers(&mut self.residuals, run)
    }
}

fn add_numbers(list: &mut List, run: Run) -> Result<(), AllocError>
    requires { run.left + run.length ≤ 2 ^ 64 }
    ensures { OnOk result (list.new ≡ list.old ++ numbers_of run) }
{
    for index in 0..run.length {
        list.push(run.left + index)?;
    }
    Ok(())
}
