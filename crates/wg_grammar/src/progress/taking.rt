ghost use Rattle.std.specs.Prelude.{◌≡◌, ◌≤◌, ◌<◌, ◌+◌, None};
ghost use Rattle.std.specs.Option.{ForSome};

use super::{Progress, Referenced};
use crate::Field;

impl Progress {
    ghost use Rattle.wg_grammar.specs.SoFar.{value_or_0};
    ghost use Rattle.wg_graph.specs.Copied.{block_at};
    ghost use Rattle.wg_grammar.specs.Refusal.{refusal_of};
    ghost use Rattle.wg_grammar.specs.Steps.{given_depth, after_of, copied_after, Due};

    // Takes a value that is not refused.
    #[tactic(auto, unfolding(crate::specs::Steps::after_of))]
    pub(super) fn take(&mut self, field: Field, value: u64, referenced: Option<Referenced>)
        requires due { Due self.old field }
        requires allowed { refusal_of self.old (given_depth referenced) field value ≡ None }
        requires known { ForSome referenced (λ r. r.length ≤ self.old.params.nodes) }
        ensures params { self.new.params ≡ self.old.params }
        ensures page { self.new.page ≡ self.old.page }
        ensures after { self.new ≡ after_of self.old referenced field value }
    {
        match field {
            Field::Outdegree => self.tally.outdegree = Some(value),
            Field::Reference => {
                self.tally.reference = Some(value);
                self.tally.source = match referenced {
                    Some(r) => r.length,
                    None => 0,
                };
                self.tally.copied = self.tally.source;
            }
            Field::BlockCount => self.tally.block_count = Some(value),
            Field::Block => self.take_block(value),
            Field::Copied => self.tally.checked = true,
            Field::IntervalCount => self.tally.interval_count = Some(value),
            Field::Left => {
                self.tally.last_left = self.left(value).unwrap_or(0);
                self.tally.lefts += 1;
            }
            Field::Length => {
                let length = value + self.tally.params.interval();
                self.tally.lengths += 1;
                self.tally.last_length = length;
                self.tally.covered += length;
            }
            Field::Residual => {
                self.tally.last_residual = self.residual(value).unwrap_or(0);
                self.tally.residuals += 1;
            }
            Field::Record => {}
        }
    }

    // Takes a block. What lies past it was counted as copied or skipped, and is the other now.
    fn take_block(&mut self, value: u64)
        requires due { self.old.blocks < value_or_0 self.old.block_count }
        requires fits { self.old.blocks_sum + block_at self.old.blocks value ≤ self.old.source }
        ensures { self.new ≡ record self.old {
          blocks = self.old.blocks + 1;
          blocks_sum = self.old.blocks_sum + block_at self.old.blocks value;
          copied = copied_after self.old (self.old.blocks_sum + block_at self.old.blocks value);
        } }
    {
        let block = if self.tally.blocks == 0 {
            value
        } else {
            value + 1
        };
        let end = self.tally.blocks_sum + block;
        let rest = self.tally.source - end;
        if self.tally.blocks % 2 == 0 {
            self.tally.copied = self.tally.copied.saturating_sub(rest);
        } else {
            self.tally.copied += rest;
        }
        self.tally.blocks_sum = end;
        self.tally.blocks += 1;
    }
}
