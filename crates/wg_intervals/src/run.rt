//! Maximal runs of consecutive numbers.
ghost use Rattle.std.specs.Prelude.{◌≡◌, ◌+◌, ◌<◌, ◌≤◌, ◌^◌, List, ℕ, [], ◌∷◌, ◌++◌, option_to_list, IfSome, OnSome};
ghost use Rattle.wg_graph.specs.Ascending.{Ascends};
ghost use Rattle.wg_intervals.specs.Canonical.{runs_from};

/// Consecutive numbers: the first, and how many there are.
#[derive(Clone, Copy, Debug)]
pub struct Run {
    /// The first of them.
    pub left: u64,
    /// How many there are.
    pub length: u64,
}

impl Run {
    /// The run before the first number, which is empty.
    #[inline(always)]
    pub fn none() -> Run
        ensures { (result.left ≡ 0) × (result.length ≡ 0) }
    {
        Run { left: 0, length: 0 }
    }

    /// Goes on to a greater number, and gives the run that ends before it, if one does.
    #[inline(always)]
    pub fn step(&mut self, number: u64) -> Option<Run>
        requires greater { self.old.left + self.old.length ≤ number }
        requires short { self.old.length < 2 ^ 63 }
        ensures runs { (numbers : List ℕ) → Ascends (number + 1) numbers
            → runs_from self.old (number ∷ numbers) ≡ option_to_list result ++ runs_from self.new numbers }
        ensures ended { IfSome result (λ run. run ≡ self.old) }
        ensures end { self.new.left + self.new.length ≡ number + 1 }
        ensures some { 0 < self.new.length }
        ensures anew { OnSome result (self.new.length ≡ 1) }
        ensures longer { self.new.length ≤ self.old.length + 1 }
    {
        if number - self.left == self.length {
            self.length += 1;
            return None;
        }
        let run = *self;
        *self = Run {
            left: number,
            length: 1,
        };
        run.last()
    }

    /// The run, if it is not empty: the last one, if no number is left.
    #[inline(always)]
    pub fn last(self) -> Option<Run>
        ensures runs { runs_from self [] ≡ option_to_list result }
        ensures same { IfSome result (λ run. run ≡ self) }
    {
        if self.length == 0 { None } else { Some(self) }
    }
}
