// What the successors take that are not copied.
ghost use Rattle.std.specs.Prelude.{◌≡◌, ℕ, ◌+◌, ◌<◌, ◌≤◌, ◌^◌, List, Bool, [], ◌∷◌};
ghost use Rattle.wg_intervals.specs.declared.run.Run.{Run};
ghost use Rattle.wg_graph.specs.Ascending.{Ascends, Below};
ghost use Rattle.wg_graph.specs.Numbers.{is_in};
ghost use Rattle.wg_intervals.specs.Canonical.{is_long};
ghost use Rattle.wg_greedy.specs.Fields.{extras, extra_fields};
ghost use Rattle.wg_encoder.specs.Cost.{room_after};
ghost use Rattle.wg_encoder.specs.Dues.{dues_of_runs, extra_dues, IsReady, MayCome};

use crate::cost::room_after;
use crate::intervals::IntervalTally;
use crate::residuals::ResidualTally;
use wg_graph::Members;
use wg_intervals::Run;
use wg_params::{Code, Params};

/// The run of consecutive extras that goes on, and the intervals and residuals before it.
#[derive(Clone, Copy)]
pub(crate) struct ExtraTally {
    pub run: Run,
    pub intervals: IntervalTally,
    pub residuals: ResidualTally,
}

impl ExtraTally {
    pub(crate) fn new(params: &Params, page: u64) -> ExtraTally
        requires { page < 2 ^ 62 }
        ensures fields { (numbers : List ℕ) → extra_dues result numbers ≡ extra_fields params.now page numbers }
        ensures come { (numbers : List ℕ) → Ascends 0 numbers → Below (2 ^ 62) numbers → MayCome result numbers }
    {
        ExtraTally {
            run: Run::none(),
            intervals: IntervalTally {
                page,
                least: params.interval(),
                count: 0,
                past: None,
            },
            residuals: ResidualTally {
                page,
                code: params.residuals(),
                last: None,
            },
        }
    }

    // Adds a run as an interval or as residuals, and answers what is left of the room.
    #[inline(always)]
    fn add_run(&mut self, room: u64, run: Run) -> u64
        requires ready { IsReady self.old }
        requires few { self.old.intervals.count < 2 ^ 62 }
        requires low { run.left + run.length ≤ 2 ^ 62 }
        ensures fields { (found : Bool) (runs : List Run)
            → room_after result (dues_of_runs self.new found runs)
            ≡ room_after room (dues_of_runs self.old found (run ∷ runs)) }
        ensures ready { IsReady self.new }
        ensures few { self.new.intervals.count ≤ self.old.intervals.count + run.length }
        ensures same { self.new.run ≡ self.old.run }
    {
        if is_long(self.intervals.least, run) {
            return self.intervals.add(room, run);
        }
        self.residuals.add_run(room, run)
    }

    /// Adds a number, and answers what is left of the room: runs are counted where they end.
    #[inline(always)]
    pub(crate) fn add(&mut self, room: u64, number: u64) -> u64
        requires { (numbers : List ℕ) × MayCome self.old (number ∷ numbers) }
        ensures fields { (numbers : List ℕ) → Ascends (number + 1) numbers
            → room_after result (extra_dues self.new numbers)
            ≡ room_after room (extra_dues self.old (number ∷ numbers)) }
        ensures come { (numbers : List ℕ) → MayCome self.old (number ∷ numbers) → MayCome self.new numbers }
    {
        match self.run.step(number) {
            Some(run) => self.add_run(room, run),
            None => room,
        }
    }

    /// Adds the members that come next and are below a number, and answers what is left of the room. It stops if
    /// nothing is left.
    #[inline(always)]
    pub(crate) fn add_below(&mut self, room: u64, members: &mut Members<'_>, number: u64) -> u64
        requires { MayCome self.old members.old }
        ensures fields { (rest : List ℕ) → Ascends number rest
            → room_after result (extra_dues self.new (extras members.new rest))
            ≡ room_after room (extra_dues self.old (extras members.old rest)) }
        ensures come { MayCome self.new members.new }
        ensures all { 0 < result → Ascends number members.new }
        ensures same { (y : ℕ) → number ≤ y → is_in y members.new ≡ is_in y members.old }
    {
        let mut room = room;
        while let Some(member) = members.next_below(number) {
            room = self.add(room, member);
            if room == 0 {
                return 0;
            }
        }
        room
    }

    /// What is left of the room if no number comes any more.
    #[inline(always)]
    pub(crate) fn last(self, room: u64) -> u64
        requires { MayCome self [] }
        ensures { result ≡ room_after room (extra_dues self []) }
    {
        if self.run.length == 0 {
            return room;
        }
        let mut tally = self;
        let room = tally.add_run(room, self.run);
        if tally.intervals.least > 0 {
            return room_after(room, Code::Gamma, tally.intervals.count);
        }
        room
    }
}

#[inline(always)]
fn is_long(least: u64, run: Run) -> bool
    ensures { result ≡ is_long least run }
{
    least > 0 && least <= run.length
}
