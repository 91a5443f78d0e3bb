// What intervals take.
ghost use Rattle.std.specs.Prelude.{◌≡◌, ◌+◌, ◌<◌, ◌≤◌, ◌^◌, List, ◌∷◌, Some};
ghost use Rattle.wg_intervals.specs.declared.run.Run.{Run};
ghost use Rattle.wg_encoder.specs.Cost.{room_after};
ghost use Rattle.wg_encoder.specs.Dues.{interval_dues};

use crate::cost::room_after;
use crate::gap::stored_gap;
use wg_intervals::Run;
use wg_params::Code;

/// How many intervals there are so far, and where the last one ends.
#[derive(Clone, Copy)]
pub(crate) struct IntervalTally {
    pub page: u64,
    pub least: u64,
    pub count: u64,
    pub past: Option<u64>,
}

impl IntervalTally {
    /// Adds a run, and answers what is left of the room.
    #[inline(always)]
    pub(crate) fn add(&mut self, room: u64, run: Run) -> u64
        requires count { self.old.count < 2 ^ 62 }
        requires page { self.old.page < 2 ^ 62 }
        requires long { self.old.least ≤ run.length }
        requires low { run.left + run.length ≤ 2 ^ 62 }
        requires some { 0 < run.length }
        ensures fields { (runs : List Run) → room_after result (interval_dues self.new runs)
            ≡ room_after room (interval_dues self.old (run ∷ runs)) }
        ensures same { self.new ≡ record self.old { count = self.old.count + 1; past = Some (run.left + run.length) } }
    {
        let gap = stored_gap(self.page, self.past, run.left);
        self.past = Some(run.left + run.length);
        self.count += 1;
        room_after(
            room_after(room, Code::Gamma, gap),
            Code::Gamma,
            run.length - self.least,
        )
    }
}
