//! Pages by their offsets.
ghost use Rattle.std.specs.Prelude.{◌≡◌, ◌≢◌, ◌+◌, ◌<◌, ◌≤◌, ℕ, List, [], length, get_or, Some, Ok, Err, IfSome, IfOk, IfErr, OnOk, OnErr, option_copied};
ghost use Rattle.wg_graph.specs.Ascending.{Ascends};
ghost use Rattle.wg_grammar.specs.Archive.{Accepted, ReadsGraph};
ghost use Rattle.wg_iterators.specs.declared.below.TheConstants.{CHAIN_PAGES};
ghost use Rattle.wg_iterators.specs.Below.{depth_of, listed, IsFresh};
ghost use Rattle.wg_decoder.specs.Proper.Laid.{list_or_none};
ghost use Rattle.wg_random.specs.declared.error.CheckError.{CheckError};
ghost use Rattle.wg_random.specs.declared.error.OpenError.{OpenError};
ghost use Rattle.wg_random.specs.Checked.{StandsForGraph};
ghost use Rattle.wg_random.specs.Checking.{OfArchive, IsLengthFault};
ghost use Rattle.wg_stream.specs.AllRecords.{AllRecords, known_at, offset_at};
ghost use Rattle.wg_random.specs.Chain.{ArePages, Ended, Leads};
ghost use Rattle.wg_stream.specs.References.{StandsOn, Refers};
ghost use Rattle.wg_random.specs.Answer.{all_of, Opens};

use crate::{CheckError, OpenError, Records, Steps};
use std::alloc::{AllocError, Global};
use std::marker::Model;
use std::sync::ledger::Ledger;
use wg_bits::{Bits, Cursor};
use wg_decoder::proper::reference;
use wg_grammar::ArchiveFault;
use wg_iterators::{CHAIN_PAGES, Successors};
use wg_offsets::Offsets;
use wg_params::Params;

/// The bits of an archive that stand for one graph, and the offsets of its records.
///
/// It is seen as its parameters, the bits, and the offsets. It holds no memory of its own.
#[derive(Debug, Drop)]
pub struct Archive<'a> {
    pub(crate) bytes: &'a [u8],
    pub(crate) params: Params,
    pub(crate) offsets: &'a Offsets,
}

impl<'a> Model for Archive<'a> {
    ghost use Rattle.std.specs.Prelude.{◌≤◌, length};
    ghost use Rattle.wg_outside.specs.declared.limits.TheConstants.{MOST_BYTES};
    ghost use Rattle.wg_bits.specs.Bits.{bits_of};
    ghost use Rattle.wg_random.specs.Checked.{CheckedRecords, StandsForGraph};

    ghost Value = { CheckedRecords };

    ghost view = { λ a. record { params = a.params; bits = bits_of a.bytes.now; offsets = a.offsets.now } };

    ghost invariant = { λ a. (length a.bytes.now ≤ MOST_BYTES)
        × StandsForGraph (record { params = a.params; bits = bits_of a.bytes.now; offsets = a.offsets.now }) };
}

// Holds the offsets of a file against those of the records.
fn compare(records: &Offsets, file: &Offsets) -> Result<(), ArchiveFault>
    requires { length records.now ≡ length file.now }
    ensures same { IfOk result (λ done. records.now ≡ file.now) }
    ensures refused { IfErr result (IsLengthFault records.now file.now) }
{
    // tells that both are places
    records.len();
    file.len();
    match records.first_mismatch(file) {
        None => Ok(()),
        Some((page, found, stored)) => Err(ArchiveFault::Length {
            page,
            found,
            stored,
        }),
    }
}

impl<'a> Archive<'a> {
    /// The archive of these records, if the offsets are those of the records; else the first record that has another
    /// length by the offsets. It takes one pass over the offsets, and no memory.
    pub fn check(
        _alloc: Global,
        records: Records<'a>,
        offsets: &'a Offsets,
    ) -> Result<Archive<'a>, CheckError>
        requires { length offsets.now ≡ records.params.nodes + 1 }
        ensures held { IfOk result (λ archive. archive ≡ records.entry) }
        ensures same { OnOk result (offsets.now ≡ records.entry.offsets) }
        ensures refused { IfErr result (λ e. OfArchive e (IsLengthFault records.entry.offsets offsets.now)) }
        ensures never_memory { result ≢ Err CheckError.Memory }
    {
        match compare(&records.offsets, offsets) {
            Ok(()) => Ok(Archive {
                bytes: records.bytes,
                params: records.params,
                offsets,
            }),
            Err(fault) => Err(CheckError::Archive(fault)),
        }
    }

    // How many pages there are. The bits stand for a graph, and so there is a record of each page.
    pub(crate) fn nodes(&self) -> u64
        ensures count { result ≡ self.now.params.nodes }
        ensures stands { StandsForGraph self.now }
        ensures records { AllRecords self.now.params self.now.bits }
    {
        self.params.nodes()
    }

    // A cursor at the record of a page.
    fn cursor(&self, page: u64) -> Cursor<'a>
        requires { page < self.now.params.nodes }
        ensures { (r : AllRecords self.now.params self.now.bits)
            → result ≡ record { bits = self.now.bits; at = offset_at r.records page } }
    {
        // tells the limits
        self.params.nodes();
        Cursor::new(Bits::of(self.bytes), self.offsets.place(page))
    }

    // How many pages back the record of a page refers.
    fn reference(&self, page: u64) -> u64
        requires { page < self.now.params.nodes }
        ensures refers { (r : AllRecords self.now.params self.now.bits)
            → Refers self.now.params self.now.bits r.records page result }
        ensures near { result ≤ page }
    {
        reference(&self.params, self.cursor(page))
    }

    /// Opens the record of a page on the way down its chain, with a tick, and gives the page that it refers to.
    pub(crate) fn follow<L: Ledger>(&self, page: u64, steps: &mut Steps<L>) -> Option<u64>
        requires { page < self.now.params.nodes }
        ensures leads { (r : AllRecords self.now.params self.now.bits)
            → Leads self.now.params self.now.bits r.records page result }
        ensures down { IfSome result (λ below. below < page) }
        ensures ticks { steps.new ≡ steps.old + 1 }
    {
        steps.tick();
        let back = self.reference(page);
        if back == 0 {
            return None;
        }
        Some(page - back)
    }

    // The page, if all of its successors are to come.
    fn stand(&self, page: u64, below: Option<Box<Successors<'a>>>) -> Successors<'a>
        requires page { page < self.now.params.nodes }
        requires fresh { IsFresh below }
        requires ready { (r : AllRecords self.now.params self.now.bits)
            → StandsOn self.now.params self.now.bits r.records page (listed below) }
        ensures whole { (r : AllRecords self.now.params self.now.bits)
            → let list : List ℕ = (known_at r.records page).list in
            result ≡ record { outdegree = length list; depth = depth_of below.entry; list = list } }
        ensures fresh { length result.list ≡ result.outdegree }
        ensures depth { result.depth ≡ depth_of below.entry }
    {
        Successors::begin(&self.params, page, self.cursor(page), below)
    }

    // The page, if all of its successors are to come. The list of the page that it refers to is lent.
    pub(crate) fn stand_on<'b>(&self, page: u64, below: Option<&'b [u64]>) -> Successors<'b>
    where
        'a: 'b,
        requires page { page < self.now.params.nodes }
        requires ascends { Ascends 0 (list_or_none (option_copied below)) }
        requires ready { (r : AllRecords self.now.params self.now.bits)
            → StandsOn self.now.params self.now.bits r.records page (option_copied below) }
        ensures { (r : AllRecords self.now.params self.now.bits) → result.list ≡ (known_at r.records page).list }
    {
        Successors::begin_on(&self.params, page, self.cursor(page), below)
    }

    // Follows the references from page `x`, keeps the first of these pages, and answers how many references there are.
    fn descend<L: Ledger>(
        &self,
        x: u64,
        chain: &mut [u64; CHAIN_PAGES],
        steps: &mut Steps<L>,
    ) -> u64
        requires { x < self.now.params.nodes }
        ensures chain { (r : AllRecords self.now.params self.now.bits)
            → Ended self.now.params self.now.bits r.records chain.new x result }
        ensures pages { ArePages self.now.params.nodes chain.new result }
        ensures ticks { steps.new ≡ steps.old + result + 1 }
    {
        let mut page = x;
        let mut depth = 0;
        chain[0] = x;
        'down: while let Some(below) = self.follow(page, steps) {
            page = below;
            depth += 1;
            if depth < CHAIN_PAGES as u64 {
                chain[depth as usize] = page;
            }
        }
        depth
    }

    // Makes the pages of a chain that ends after `depth` references, from the last one up, each below the one before
    // it.
    pub(crate) fn ascend(
        &self,
        alloc: Global,
        x: u64,
        chain: &[u64],
        depth: u64,
    ) -> Result<Successors<'a>, AllocError>
        requires near { depth < CHAIN_PAGES }
        requires long { depth < length chain.now }
        requires pages { ArePages self.now.params.nodes chain.now depth }
        requires chain { (r : AllRecords self.now.params self.now.bits)
            → Ended self.now.params self.now.bits r.records chain.now x depth }
        ensures page { (r : AllRecords self.now.params self.now.bits)
            → IfOk result (λ s. s ≡ all_of (known_at r.records x)) }
        ensures memory { OnErr result (0 < depth) }
    {
        let mut below: Option<Box<Successors<'a>>> = None;
        let mut left = depth;
        'up: while left > 0 {
            let page = self.stand(chain[left as usize], below);
            below = Some(Box::new(alloc, page)?);
            left -= 1;
        }
        Ok(self.stand(chain[0], below))
    }

    /// The successors of page `x`, all of them still to come. Each record of its chain of references is opened once,
    /// with a tick; a box is taken for each but the first. It takes the time of the words of these records, and not of
    /// their lists.
    pub fn open<L: Ledger>(
        &self,
        alloc: Global,
        x: u64,
        steps: &mut Steps<L>,
    ) -> Result<Successors<'a>, OpenError>
        ensures answer { (r : AllRecords self.now.params self.now.bits)
            → Opens self.now.params.nodes x (known_at r.records x) result }
        ensures graph { (a : Accepted) → ReadsGraph self.now.params self.now.bits (Ok a)
            → IfOk result (λ s. s.list ≡ get_or a.graph x []) }
        ensures ticks { (r : AllRecords self.now.params self.now.bits)
            → OnOk result (steps.new ≡ steps.old + (known_at r.records x).depth + 1) }
        ensures most { (r : AllRecords self.now.params self.now.bits)
            → steps.new ≤ steps.old + (known_at r.records x).depth + 1 }
        ensures none { self.now.params.nodes ≤ x → steps.new ≡ steps.old }
        ensures stands { StandsForGraph self.now }
        ensures records { AllRecords self.now.params self.now.bits }
        ensures no_page { self.now.params.nodes ≤ x → result ≡ Err OpenError.NoPage }
        ensures no_page_only_then { result ≡ Err OpenError.NoPage → self.now.params.nodes ≤ x }
        ensures few { (limit : ℕ) → self.now.params.chain ≡ Some limit → steps.new ≤ steps.old + limit + 1 }
    {
        if x >= self.nodes() {
            return Err(OpenError::NoPage);
        }
        let mut chain = [0; CHAIN_PAGES];
        let depth = self.descend(x, &mut chain, steps);
        if depth >= CHAIN_PAGES as u64 {
            return Err(OpenError::Deep(depth));
        }
        match self.ascend(alloc, x, &chain, depth) {
            Ok(page) => Ok(page),
            Err(_) => Err(OpenError::Memory),
        }
    }
}
