//! The whole list of a page, however long its chain of references is.
ghost use Rattle.std.specs.Prelude.{◌≡◌, ◌+◌, ◌-◌, ◌<◌, ◌≤◌, ◌++◌, ℕ, [], length, get_or, Some, Ok, Err, IfOk, OnOk, option_copied};
ghost use Rattle.wg_graph.specs.Ascending.{Ascends};
ghost use Rattle.wg_grammar.specs.Archive.{Accepted, ReadsGraph};
ghost use Rattle.wg_decoder.specs.Proper.Laid.{list_or_none};
ghost use Rattle.wg_random.specs.declared.error.ListError.{ListError};
ghost use Rattle.wg_random.specs.Checked.{StandsForGraph};
ghost use Rattle.wg_stream.specs.AllRecords.{AllRecords, known_at};
ghost use Rattle.wg_random.specs.Chain.{ArePages, Ended};
ghost use Rattle.wg_stream.specs.References.{StandsOn};
ghost use Rattle.wg_random.specs.Answer.{Lists};

use crate::{Archive, ListError, Steps};
use std::alloc::{AllocError, Global};
use std::mem::swap;
use std::sync::ledger::Ledger;
use wg_graph::List;
use wg_iterators::Successors;

// Adds the successors that are still to come.
fn draw(mut successors: Successors<'_>, list: &mut List) -> Result<(), AllocError>
    ensures { OnOk result (list.new ≡ list.old ++ successors.entry.list) }
{
    'draw: while let Some(number) = successors.next() {
        list.push(number)?;
    }
    Ok(())
}

impl<'a> Archive<'a> {
    // Follows the references from page `x`, and answers the pages of this chain, `x` first.
    pub(crate) fn chain<L: Ledger>(
        &self,
        alloc: Global,
        x: u64,
        steps: &mut Steps<L>,
    ) -> Result<List, AllocError>
        requires { x < self.now.params.nodes }
        ensures some { IfOk result (λ chain. 0 < length chain) }
        ensures pages { IfOk result (λ chain. ArePages self.now.params.nodes chain (length chain - 1)) }
        ensures chain { (r : AllRecords self.now.params self.now.bits)
            → IfOk result (λ chain. Ended self.now.params self.now.bits r.records chain x (length chain - 1)) }
        ensures ticks { IfOk result (λ chain. steps.new ≡ steps.old + length chain) }
        ensures most { (r : AllRecords self.now.params self.now.bits)
            → steps.new ≤ steps.old + (known_at r.records x).depth + 1 }
    {
        let mut chain = List::new(alloc);
        chain.push(x)?;
        let mut page = x;
        'down: while let Some(below) = self.follow(page, steps) {
            page = below;
            chain.push(page)?;
        }
        Ok(chain)
    }

    // Puts the successors of a page into the list, in place of those that it had. The list of the page that the record
    // refers to is lent.
    fn fill(&self, page: u64, below: Option<&[u64]>, list: &mut List) -> Result<(), AllocError>
        requires page { page < self.now.params.nodes }
        requires ascends { Ascends 0 (list_or_none (option_copied below)) }
        requires ready { (r : AllRecords self.now.params self.now.bits)
            → StandsOn self.now.params self.now.bits r.records page (option_copied below) }
        ensures list { (r : AllRecords self.now.params self.now.bits)
            → OnOk result (list.new ≡ (known_at r.records page).list) }
        ensures ascends { OnOk result (Ascends 0 list.new) }
    {
        let successors = self.stand_on(page, below);
        // tells that they ascend
        successors.outdegree();
        list.clear();
        draw(successors, list)
    }

    // The list of page `x`, with which the chain begins. The lists of its pages are made from the last page on, each
    // over the one made before.
    pub(crate) fn climb(&self, alloc: Global, x: u64, chain: &[u64]) -> Result<List, AllocError>
        requires some { 0 < length chain.now }
        requires pages { ArePages self.now.params.nodes chain.now (length chain.now - 1) }
        requires chain { (r : AllRecords self.now.params self.now.bits)
            → Ended self.now.params self.now.bits r.records chain.now x (length chain.now - 1) }
        ensures { (r : AllRecords self.now.params self.now.bits)
            → IfOk result (λ list. list ≡ (known_at r.records x).list) }
    {
        let mut left = chain.len() - 1;
        let mut list = List::new(alloc);
        let mut above = List::new(alloc);
        self.fill(chain[left], None, &mut list)?;
        'up: while left > 0 {
            left -= 1;
            self.fill(chain[left], Some(list.as_slice()), &mut above)?;
            swap(&mut list, &mut above);
        }
        Ok(list)
    }

    /// The successors of page `x`, however many references lead on from it. Each record of its chain of references is
    /// opened once, with a tick.
    ///
    /// It takes time in proportion to the words and the lists of the records of the chain, and holds a number for each
    /// of its pages and two lists at a time.
    pub fn list<L: Ledger>(
        &self,
        alloc: Global,
        x: u64,
        steps: &mut Steps<L>,
    ) -> Result<List, ListError>
        ensures answer { (r : AllRecords self.now.params self.now.bits)
            → Lists self.now.params.nodes x (known_at r.records x) result }
        ensures graph { (a : Accepted) → ReadsGraph self.now.params self.now.bits (Ok a)
            → IfOk result (λ list. list ≡ get_or a.graph x []) }
        ensures ticks { (r : AllRecords self.now.params self.now.bits)
            → OnOk result (steps.new ≡ steps.old + (known_at r.records x).depth + 1) }
        ensures most { (r : AllRecords self.now.params self.now.bits)
            → steps.new ≤ steps.old + (known_at r.records x).depth + 1 }
        ensures none { self.now.params.nodes ≤ x → steps.new ≡ steps.old }
        ensures stands { StandsForGraph self.now }
        ensures records { AllRecords self.now.params self.now.bits }
        ensures no_page { self.now.params.nodes ≤ x → result ≡ Err ListError.NoPage }
        ensures no_page_only_then { result ≡ Err ListError.NoPage → self.now.params.nodes ≤ x }
        ensures few { (limit : ℕ) → self.now.params.chain ≡ Some limit → steps.new ≤ steps.old + limit + 1 }
    {
        if x >= self.nodes() {
            return Err(ListError::NoPage);
        }
        let chain = self.chain(alloc, x, steps)?;
        Ok(self.climb(alloc, x, chain.as_slice())?)
    }
}
