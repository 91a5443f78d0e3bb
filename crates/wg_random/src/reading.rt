//! A page however long its chain of references is, with a list only if the chain is too long for an iterator.
ghost use Rattle.std.specs.Prelude.{◌≡◌, ◌+◌, ◌-◌, ◌<◌, ◌≤◌, ℕ, [], length, get_or, Some, Ok, Err, IfOk, OnOk};
ghost use Rattle.wg_grammar.specs.Archive.{Accepted, ReadsGraph};
ghost use Rattle.wg_random.specs.declared.error.ListError.{ListError};
ghost use Rattle.wg_random.specs.Checked.{StandsForGraph};
ghost use Rattle.wg_stream.specs.AllRecords.{AllRecords, known_at};
ghost use Rattle.wg_random.specs.Chain.{ArePages, Ended};
ghost use Rattle.wg_random.specs.Answer.{IsReadOf, Reads, list_in};

use crate::{Archive, ListError, Steps};
use std::alloc::{AllocError, Global};
use std::sync::ledger::Ledger;
use wg_graph::List;
use wg_iterators::{CHAIN_PAGES, Successors};

/// The successors of a page that was read.
#[derive(Debug, Drop)]
pub enum Page<'a> {
    /// They are still to come, one by one.
    Opened(Successors<'a>),
    /// The chain of references has more than [`CHAIN_PAGES`] pages, too many to go through for each successor.
    Listed(List),
}

impl<'a> Archive<'a> {
    // Page `x`, with which the chain begins: opened, or listed if the chain is too long for that.
    fn open_or_list(&self, alloc: Global, x: u64, chain: &[u64]) -> Result<Page<'a>, AllocError>
        requires some { 0 < length chain.now }
        requires pages { ArePages self.now.params.nodes chain.now (length chain.now - 1) }
        requires chain { (r : AllRecords self.now.params self.now.bits)
            → Ended self.now.params self.now.bits r.records chain.now x (length chain.now - 1) }
        ensures { (r : AllRecords self.now.params self.now.bits) → IfOk result (IsReadOf (known_at r.records x)) }
    {
        if chain.len() <= CHAIN_PAGES {
            let depth = chain.len() as u64 - 1;
            Ok(Page::Opened(self.ascend(alloc, x, chain, depth)?))
        } else {
            Ok(Page::Listed(self.climb(alloc, x, chain)?))
        }
    }

    /// The successors of page `x`, however many references lead on from it: one by one, as by [`Archive::open`], or as
    /// a list, as by [`Archive::list`], if its chain of references is too long to be opened. Each record of the chain
    /// is opened once, with a tick.
    ///
    /// It holds a number for each page of the chain while it reads; then a box for each but the first, or two lists at
    /// a time. It takes the time of the words of these records, and of their lists only if they are made.
    pub fn read<L: Ledger>(
        &self,
        alloc: Global,
        x: u64,
        steps: &mut Steps<L>,
    ) -> Result<Page<'a>, ListError>
        ensures answer { (r : AllRecords self.now.params self.now.bits)
            → Reads self.now.params.nodes x (known_at r.records x) result }
        ensures graph { (a : Accepted) → ReadsGraph self.now.params self.now.bits (Ok a)
            → IfOk result (λ page. list_in page ≡ get_or a.graph x []) }
        ensures ticks { (r : AllRecords self.now.params self.now.bits)
            → OnOk result (steps.new ≡ steps.old + (known_at r.records x).depth + 1) }
        ensures most { (r : AllRecords self.now.params self.now.bits)
            → steps.new ≤ steps.old + (known_at r.records x).depth + 1 }
        ensures none { self.now.params.nodes ≤ x → steps.new ≡ steps.old }
        ensures stands { StandsForGraph self.now }
        ensures records { AllRecords self.now.params self.now.bits }
        ensures no_page { self.now.params.nodes ≤ x → result ≡ Err ListError.NoPage }
        ensures no_page_only_then { result ≡ Err ListError.NoPage → self.now.params.nodes ≤ x }
        ensures few { (limit : ℕ) → self.now.params.chain ≡ Some limit → steps.new ≤ steps.old + limit + 1 }
    {
        if x >= self.nodes() {
            return Err(ListError::NoPage);
        }
        let chain = self.chain(alloc, x, steps)?;
        Ok(self.open_or_list(alloc, x, chain.as_slice())?)
    }
}
