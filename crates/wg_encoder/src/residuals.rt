// What residuals take.
ghost use Rattle.std.specs.Prelude.{◌≡◌, ℕ, ◌+◌, ◌<◌, ◌≤◌, ◌^◌, List, ◌∷◌, ◌++◌, Some};
ghost use Rattle.wg_params.specs.Codes.{IsCode};
ghost use Rattle.wg_intervals.specs.Canonical.{numbers_of};
ghost use Rattle.wg_encoder.specs.Cost.{room_after};
ghost use Rattle.wg_encoder.specs.Dues.{residual_dues};

use crate::cost::room_after;
use crate::gap::stored_gap;
use wg_intervals::Run;
use wg_params::Code;

/// The last residual so far.
#[derive(Clone, Copy)]
pub(crate) struct ResidualTally {
    pub page: u64,
    pub code: Code,
    pub last: Option<u64>,
}

impl ResidualTally {
    /// Adds a number, and answers what is left of the room.
    #[inline(always)]
    pub(crate) fn add(&mut self, room: u64, number: u64) -> u64
        requires page { self.old.page < 2 ^ 62 }
        requires code { IsCode self.old.code }
        requires low { number < 2 ^ 62 }
        ensures fields { (numbers : List ℕ) → room_after result (residual_dues self.new numbers)
            ≡ room_after room (residual_dues self.old (number ∷ numbers)) }
        ensures same { self.new ≡ record self.old { last = Some number } }
    {
        let gap = stored_gap(self.page, self.last, number);
        self.last = Some(number);
        room_after(room, self.code, gap)
    }

    /// Adds the numbers of a run, and answers what is left of the room.
    #[inline(always)]
    pub(crate) fn add_run(&mut self, room: u64, run: Run) -> u64
        requires page { self.old.page < 2 ^ 62 }
        requires code { IsCode self.old.code }
        requires low { run.left + run.length ≤ 2 ^ 62 }
        ensures fields { (numbers : List ℕ) → room_after result (residual_dues self.new numbers)
            ≡ room_after room (residual_dues self.old (numbers_of run ++ numbers)) }
        ensures page { self.new.page ≡ self.old.page }
        ensures code { self.new.code ≡ self.old.code }
    {
        let mut room = room;
        for index in 0..run.length {
            room = self.add(room, run.left + index);
        }
        room
    }
}
