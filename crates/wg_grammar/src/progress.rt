ghost use Rattle.std.specs.Prelude.{◌≡◌, ◌≤◌, ◌<◌, OnErr, OnOk};
ghost use Rattle.std.specs.Option.{ForSome, ForNone};

mod refusal;
mod taking;

use crate::{Field, Kind, Need};
use std::marker::Model;
use wg_params::{Code, Params};

/// What a record has to know of the page that its reference names.
#[derive(Clone, Copy, Debug, PartialEq, Eq)]
pub struct Referenced {
    /// How many successors the page has.
    pub length: u64,
    /// How many references lead on from it, one after the other.
    pub depth: u64,
}

/// Numbers of what has been read of a record: each field that comes once, and of the fields that come again and again
/// how many were read, what they add to, or the last of them. What comes next and what is allowed is told from them.
#[derive(Debug, Drop)]
pub struct Tally {
    pub params: Params,
    pub page: u64,
    // the sum of the outdegrees of the pages before
    pub arcs_before: u64,
    pub outdegree: Option<u64>,
    pub reference: Option<u64>,
    // how many members the referenced list has
    pub source: u64,
    pub block_count: Option<u64>,
    // how many blocks have been read, and what they add to
    pub blocks: u64,
    pub blocks_sum: u64,
    // how many members are copied, if no more blocks come
    pub copied: u64,
    pub checked: bool,
    pub interval_count: Option<u64>,
    pub lefts: u64,
    pub last_left: u64,
    pub lengths: u64,
    pub last_length: u64,
    // how many numbers lie inside the intervals
    pub covered: u64,
    pub residuals: u64,
    pub last_residual: u64,
}

/// How far a record has been read: what comes next, and whether a value is allowed there.
///
/// It keeps numbers alone and no lists, so it takes no memory, and each call takes constant time. Whoever reads a
/// record asks for the next need, reads one word in its code, and hands the value over; a refused value changes
/// nothing.
///
/// It is seen as the parameters, the page, the arcs before it, and a tally of what has been read.
#[derive(Debug, Drop)]
pub struct Progress {
    tally: Tally,
}

impl Model for Progress {
    ghost use Rattle.std.specs.Prelude.{◌≡◌, ◌≤◌, ◌<◌, ◌+◌, ◌%◌, unwrap_or};
    ghost use Rattle.std.specs.Option.{ForNone};
    ghost use Rattle.wg_grammar.specs.declared.progress.Tally.{Tally};

    ghost Value = { Tally };

    ghost view = { λ q. q.tally };

    ghost invariant = { λ q. let t = q.tally in (t.page < t.params.nodes) × (t.arcs_before ≤ t.params.arcs)
        × (unwrap_or t.outdegree 0 ≤ t.params.nodes) × (t.source ≤ t.params.nodes) × (t.blocks_sum ≤ t.source)
        × (t.copied ≤ t.source) × (t.blocks % 2 ≡ 1 → t.copied ≤ t.blocks_sum) × (t.last_left ≤ t.params.nodes)
        × (t.last_length ≤ t.params.nodes) × (t.covered ≤ t.params.nodes) × (t.residuals ≤ t.params.nodes)
        × (t.last_residual ≤ t.params.nodes)
        × ForNone t.reference (t.blocks + t.blocks_sum + unwrap_or t.block_count 0 ≡ 0) };
}

impl Progress {
    ghost use Rattle.wg_grammar.specs.Tally.{Follows, extra_of, missing_of};
    ghost use Rattle.wg_grammar.specs.Judging.{Gives, Judges};
    ghost use Rattle.wg_grammar.specs.Context.{Context};
    ghost use Rattle.wg_grammar.specs.SoFar.{SoFar, nothing_yet, after};
    ghost use Rattle.wg_grammar.specs.Next.{next, need_of};
    ghost use Rattle.wg_grammar.specs.Refusal.{refusal};
    ghost use Rattle.wg_grammar.specs.declared.fault.Field.{Field};
    ghost use Rattle.wg_grammar.specs.declared.need.Need.{Need};
    ghost use Rattle.wg_params.specs.declared.code.Code.{Code};
    ghost use Rattle.wg_params.specs.Parameters.{Parameters};

    /// The progress at a record's first bit. `arcs_before` is the sum of the outdegrees of the pages before.
    #[tactic(auto, unfolding(wg_graph::specs::Copied::copied_members))]
    pub fn start(params: &Params, page: u64, arcs_before: u64) -> Progress
        requires page { page < params.now.nodes }
        requires before { arcs_before ≤ params.now.arcs }
        ensures params { result.params ≡ params.now }
        ensures page { result.page ≡ page }
        ensures exact { (c : Context) → c.page ≡ page → c.arcs_before ≡ arcs_before
            → Follows result params.now c nothing_yet }
    {
        Progress {
            tally: Tally {
                params: *params,
                page,
                arcs_before,
                outdegree: None,
                reference: None,
                source: 0,
                block_count: None,
                blocks: 0,
                blocks_sum: 0,
                copied: 0,
                checked: false,
                interval_count: None,
                lefts: 0,
                last_left: 0,
                lengths: 0,
                last_length: 0,
                covered: 0,
                residuals: 0,
                last_residual: 0,
            },
        }
    }

    /// What is read next.
    pub fn need(&self) -> Need
        ensures value { result ≡ need_of self.now }
        ensures exact { (p : Parameters) (c : Context) (s : SoFar) → Follows self.now p c s → result ≡ next p c s }
    {
        self.next_field()
    }

    fn next_field(&self) -> Need
        ensures value { result ≡ need_of self.now }
        ensures early { ForNone self.now.reference (self.now.blocks ≡ 0) }
    {
        let degree = match self.tally.outdegree {
            None => return Need::Read(Field::Outdegree, self.tally.params.outdegrees()),
            Some(degree) => degree,
        };
        if degree == 0 {
            return Need::End;
        }
        if self.tally.params.window() > 0 && self.tally.reference.is_none() {
            return Need::Read(Field::Reference, self.tally.params.references());
        }
        let refers = self.tally.reference.unwrap_or(0) > 0;
        if refers && self.tally.block_count.is_none() {
            return Need::Read(Field::BlockCount, self.tally.params.block_counts());
        }
        if self.tally.blocks < self.tally.block_count.unwrap_or(0) {
            return Need::Read(Field::Block, self.tally.params.blocks());
        }
        if refers && !self.tally.checked {
            return Need::Check;
        }
        if self.extra() > 0
            && self.tally.params.interval() > 0
            && self.tally.interval_count.is_none()
        {
            return Need::Read(Field::IntervalCount, Code::Gamma);
        }
        if self.tally.lengths < self.tally.lefts {
            return Need::Read(Field::Length, Code::Gamma);
        }
        if self.tally.lefts < self.tally.interval_count.unwrap_or(0) {
            return Need::Read(Field::Left, Code::Gamma);
        }
        if self.missing() > 0 {
            return Need::Read(Field::Residual, self.tally.params.residuals());
        }
        Need::End
    }

    // How many successors are not copied.
    fn extra(&self) -> u64
        ensures { result ≡ extra_of self.now }
    {
        self.tally
            .outdegree
            .unwrap_or(0)
            .saturating_sub(self.tally.copied)
    }

    // How many of these are missing still.
    fn missing(&self) -> u64
        ensures { result ≡ missing_of self.now }
    {
        self.extra()
            .saturating_sub(self.tally.covered)
            .saturating_sub(self.tally.residuals)
    }

    /// Takes a value of the field that [`need`](Progress::need) says to read, or answers the first reason to refuse it.
    /// `referenced` is the page that the value names, if the value is a reference, is not 0, and does not pass the
    /// window or the first page; else none.
    pub fn accept(&mut self, value: u64, referenced: Option<Referenced>) -> Result<(), Kind>
        requires reads { (f : Field) × (code : Code) × (need_of self.old ≡ Need.Read f code) }
        requires length { ForSome referenced (λ r. r.length ≤ self.old.params.nodes) }
        requires depth { ForSome referenced (λ r. r.depth < self.old.page) }
        ensures refused { OnErr result (self.new ≡ self.old) }
        ensures params { self.new.params ≡ self.old.params }
        ensures page { self.new.page ≡ self.old.page }
        ensures exact { (p : Parameters) (c : Context) (s : SoFar) (f : Field) (code : Code) → Follows self.old p c s
            → next p c s ≡ Need.Read f code
            → Gives referenced p c f value → Judges result (refusal p c s f value)
            × OnOk result (Follows self.new p c (after p c s f value)) }
    {
        match self.next_field() {
            Need::Read(field, _) => match self.refusal(field, value, referenced) {
                Some(kind) => Err(kind),
                None => {
                    self.take(field, value, referenced);
                    Ok(())
                }
            },
            Need::Check => unreachable!(),
            Need::End => unreachable!(),
        }
    }

    /// Passes the check after the blocks, if [`need`](Progress::need) says to make it, or answers that more members
    /// are copied than the page has successors.
    pub fn check_copied(&mut self) -> Result<(), Kind>
        requires checks { need_of self.old ≡ Need.Check }
        ensures refused { OnErr result (self.new ≡ self.old) }
        ensures params { self.new.params ≡ self.old.params }
        ensures page { self.new.page ≡ self.old.page }
        ensures exact { (p : Parameters) (c : Context) (s : SoFar) → Follows self.old p c s
            → Judges result (refusal p c s Field.Copied 0)
            × OnOk result (Follows self.new p c (after p c s Field.Copied 0)) }
    {
        match self.refusal(Field::Copied, 0, None) {
            Some(kind) => Err(kind),
            None => {
                self.take(Field::Copied, 0, None);
                Ok(())
            }
        }
    }
}
