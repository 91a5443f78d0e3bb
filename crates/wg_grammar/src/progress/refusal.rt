ghost use Rattle.std.specs.Prelude.{◌≡◌, ◌<◌, Some};
ghost use Rattle.std.specs.Option.{ForSome};

use super::{Progress, Referenced};
use crate::{Field, Kind};

impl Progress {
    ghost use Rattle.wg_codes.specs.Fold.{unfolded_from};
    ghost use Rattle.wg_grammar.specs.Refusal.{left_of, residual_of, refusal_of};
    ghost use Rattle.wg_grammar.specs.Steps.{within, given_depth};
    ghost use Rattle.wg_grammar.specs.declared.fault.Field.{Field};

    // The number, if it is a page.
    fn within(&self, number: u64) -> Option<u64>
        ensures { result ≡ within self.now.params (Some number) }
    {
        if number < self.tally.params.nodes() {
            Some(number)
        } else {
            None
        }
    }

    // The page that the first left end or residual stands for, if it is one.
    fn page_from(&self, value: u64) -> Option<u64>
        ensures { result ≡ within self.now.params (unfolded_from self.now.page value) }
    {
        let half = value / 2;
        if half >= self.tally.params.nodes() {
            return None;
        }
        if value % 2 == 0 {
            self.within(self.tally.page + half)
        } else if half < self.tally.page {
            Some(self.tally.page - (half + 1))
        } else {
            None
        }
    }

    // The left end that the value stands for, if it is a page.
    pub(super) fn left(&self, value: u64) -> Option<u64>
        ensures { result ≡ within self.now.params (left_of self.now value) }
    {
        if self.tally.lefts == 0 {
            return self.page_from(value);
        }
        if value >= self.tally.params.nodes() {
            return None;
        }
        self.within(self.tally.last_left + self.tally.last_length + 1 + value)
    }

    // The residual that the value stands for, if it is a page.
    pub(super) fn residual(&self, value: u64) -> Option<u64>
        ensures { result ≡ within self.now.params (residual_of self.now value) }
    {
        if self.tally.residuals == 0 {
            return self.page_from(value);
        }
        if value >= self.tally.params.nodes() {
            return None;
        }
        self.within(self.tally.last_residual + 1 + value)
    }

    // The first reason to refuse a value. Codes have values of up to 64 bits, so each is compared before it is added.
    pub(super) fn refusal(
        &self,
        field: Field,
        value: u64,
        referenced: Option<Referenced>,
    ) -> Option<Kind>
        requires { ForSome referenced (λ r. r.depth < self.now.page) }
        ensures { result ≡ refusal_of self.now (given_depth referenced) field value }
    {
        match field {
            Field::Outdegree => self.refuse_outdegree(value),
            Field::Reference => self.refuse_reference(value, referenced),
            Field::BlockCount => (value.saturating_sub(1) > self.tally.source).then_some(
                Kind::Range,
            ),
            Field::Block => self.refuse_block(value),
            Field::Copied => (self.tally.copied > self.tally.outdegree.unwrap_or(0)).then_some(
                Kind::Copied,
            ),
            Field::IntervalCount => self.refuse_interval_count(value),
            Field::Left => self.left(value).is_none().then_some(Kind::Range),
            Field::Length => self.refuse_length(value),
            Field::Residual => self.residual(value).is_none().then_some(Kind::Range),
            Field::Record => None,
        }
    }

    fn refuse_outdegree(&self, value: u64) -> Option<Kind>
        ensures { result ≡ refusal_of self.now 0 Field.Outdegree value }
    {
        if value > self.tally.params.nodes() {
            return Some(Kind::Range);
        }
        let arcs = self.tally.params.arcs();
        (self.tally.arcs_before + value > arcs).then_some(Kind::Total)
    }

    fn refuse_reference(&self, value: u64, referenced: Option<Referenced>) -> Option<Kind>
        requires { ForSome referenced (λ r. r.depth < self.now.page) }
        ensures { result ≡ refusal_of self.now (given_depth referenced) Field.Reference value }
    {
        if value > self.tally.params.window().min(self.tally.page) {
            return Some(Kind::Range);
        }
        let depth = match referenced {
            Some(r) => r.depth + 1,
            None => 0,
        };
        match self.tally.params.chain() {
            Some(limit) if depth > limit => Some(Kind::Chain),
            _ => None,
        }
    }

    fn refuse_block(&self, value: u64) -> Option<Kind>
        ensures { result ≡ refusal_of self.now 0 Field.Block value }
    {
        let left = self.tally.source - self.tally.blocks_sum;
        let passes = if self.tally.blocks == 0 {
            value > left
        } else {
            value >= left
        };
        passes.then_some(Kind::Range)
    }

    fn refuse_interval_count(&self, value: u64) -> Option<Kind>
        ensures { result ≡ refusal_of self.now 0 Field.IntervalCount value }
    {
        let numbers = value as u128 * self.tally.params.interval() as u128;
        (numbers > self.extra() as u128).then_some(Kind::Range)
    }

    fn refuse_length(&self, value: u64) -> Option<Kind>
        ensures { result ≡ refusal_of self.now 0 Field.Length value }
    {
        let nodes = self.tally.params.nodes();
        if value > nodes {
            return Some(Kind::Range);
        }
        let length = value + self.tally.params.interval();
        let passes = length > self.missing() || self.tally.last_left + length > nodes;
        passes.then_some(Kind::Range)
    }
}
