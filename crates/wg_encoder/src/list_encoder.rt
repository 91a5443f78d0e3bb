//! The choice of a reference for list after list.
ghost use Rattle.std.specs.Prelude.{◌≡◌, ℕ, ◌+◌, ◌<◌, ◌≤◌, ◌^◌, ◌&&◌, true, false, not, nat_lt, min, List, [], length, IfOk, Some};
ghost use Rattle.std.specs.Option.{ForSome};
ghost use Rattle.std.specs.FinMap as fin;
ghost use Rattle.wg_outside.specs.Outside.{Files};
ghost use Rattle.wg_outside.specs.Suffixes.{graph_name, offsets_name};
ghost use Rattle.wg_params.specs.Parameters.{IsWithinLimits};
ghost use Rattle.wg_params.specs.declared.limits.TheConstants.{MOST_WINDOW};
ghost use Rattle.wg_graph.specs.Ascending.{Ascends, Below};
ghost use Rattle.wg_marks.specs.Common.{IsCommon};
ghost use Rattle.wg_grammar.specs.Context.{referenced, depth_of};
ghost use Rattle.wg_grammar.specs.Refusal.{passes};
ghost use Rattle.wg_decoder.specs.Remembered.{Serves};
ghost use Rattle.wg_greedy.specs.Greedy.{canonical, size_of, is_candidate, chosen};
ghost use Rattle.wg_encoder.specs.Cost.{cost_of, IsFewer};
ghost use Rattle.wg_greedy.specs.Laws.{IsList};
ghost use Rattle.wg_encoder.specs.Encoding.{offer_of, IsChosen, HasWritten};
ghost use Rattle.wg_encoder.specs.Gone.{HasSentAll};
ghost use Rattle.wg_encoder.specs.Sharing.{shares};

use crate::choice::Choice;
use crate::kept::Kept;
use crate::making::Draft;
use crate::names::FileNames;
use crate::record::record_cost;
use crate::sharing::shares;
use std::alloc::{AllocError, Global};
use std::marker::Model;
use wg_bits::Writer;
use wg_marks::{Common, Marked, Marks};
use wg_params::Params;

/// Writes lists one after the other, each by the reference that makes its record the shortest. They are the lists of
/// pages 0, 1 and so on, and each is handed in once: an archive of any size is written so.
///
/// It is seen as where the next record stands, how many bits the last one and all have, how many refer to a page
/// before, and the bits of the two files that wait to go out. It holds a copy of each list that a reference may name,
/// with room for at most twice its numbers or for few, and 32 bytes beside it; 4096 bytes for each file and for marks,
/// and the names of the files; and memory for the longest record so far and for the lists that it was made of. Each
/// memory serves again for later lists.
#[derive(Debug, Drop)]
pub(crate) struct ListEncoder {
    pub(crate) alloc: Global,
    // how many lists were written, and how many numbers they have
    pub(crate) page: u64,
    pub(crate) arcs: u64,
    // in memory of their own, since an encoder is moved at each list
    pub(crate) params: Box<Params>,
    pub(crate) kept: Box<Kept>,
    pub(crate) graph_writer: Box<Writer>,
    pub(crate) offsets_writer: Box<Writer>,
    // of the list that comes next, once it is marked
    pub(crate) marks: Box<Marks>,
    // memory for the record of a list, none before the first
    pub(crate) spare: Option<Box<Draft>>,
    // of the archive that the last call named, none before the first
    pub(crate) names: Option<Box<FileNames>>,
    // the bits of the record before, 0 before the first, and of all records so far
    pub(crate) last: u64,
    pub(crate) total: u64,
    // how many of them have a reference above 0
    pub(crate) referring: u64,
}

impl Model for ListEncoder {
    ghost use Rattle.std.specs.Prelude.{◌≡◌, ◌<◌, ◌≤◌, ◌^◌, false};
    ghost use Rattle.wg_decoder.specs.Remembered.{Serves};
    ghost use Rattle.wg_greedy.specs.Laws.{enough_bits};
    ghost use Rattle.wg_encoder.specs.Encoding.{Encoded};

    ghost Value = { Encoded };

    ghost view = { λ e. record {
      params = e.params.value;
      next = record { page = e.page; arcs_before = e.arcs; behind = e.kept.value.behind };
      last = e.last;
      total = e.total;
      referring = e.referring;
      graph_waits = e.graph_writer.value.bits;
      offsets_waits = e.offsets_writer.value.bits;
    } };

    ghost invariant = { λ e. (e.kept.value.window ≡ e.params.value.window) × (e.page ≤ e.params.value.nodes)
        × (e.arcs ≤ e.params.value.arcs) × Serves e.params.value e.page e.kept.value.behind
        × (e.graph_writer.value.failed ≡ false) × (e.offsets_writer.value.failed ≡ false)
        × (e.last < 2 ^ 62) × (e.total ≤ enough_bits e.page e.arcs) × (e.referring ≤ e.page) };
}

impl ListEncoder {
    /// Before the first list.
    pub(crate) fn new(alloc: Global, params: Params) -> Result<ListEncoder, AllocError>
        ensures params { IfOk result (λ e. e.params ≡ params) }
        ensures written { IfOk result (λ e. HasWritten e []) }
        ensures begun { IfOk result (λ e. (files : Files) (base : List ℕ) → fin.get files (graph_name base) ≡ Some []
            → fin.get files (offsets_name base) ≡ Some [] → HasSentAll files base e []) }
        ensures waits { IfOk result (λ e. (e.graph_waits ≡ []) × (e.offsets_waits ≡ [])) }
    {
        let kept = Box::new(alloc, Kept::new(alloc, &params))?;
        let graph_writer = writer(alloc)?;
        let offsets_writer = writer(alloc)?;
        let params = Box::new(alloc, params)?;
        let marks = Box::new(alloc, Marks::new())?;
        Ok(ListEncoder {
            alloc,
            page: 0,
            arcs: 0,
            params,
            kept,
            graph_writer,
            offsets_writer,
            marks,
            spare: None,
            names: None,
            last: 0,
            total: 0,
            referring: 0,
        })
    }

    /// The page whose list comes next: how many lists were written.
    pub(crate) fn page(&self) -> u64
        ensures value { result ≡ self.now.next.page }
        ensures within { result ≤ self.now.params.nodes }
    {
        self.page
    }

    /// How many numbers the lists have that were written.
    pub(crate) fn arcs(&self) -> u64
        ensures value { result ≡ self.now.next.arcs_before }
        ensures within { result ≤ self.now.params.arcs }
    {
        self.arcs
    }

    /// How many of the lists that were written refer to a page before. It takes no memory, and counts nothing anew.
    pub(crate) fn referring(&self) -> u64
        ensures value { result ≡ self.now.referring }
        ensures within { result ≤ self.now.next.page }
    {
        self.referring
    }

    // The parameters are within their limits, and what is kept serves the page that comes next.
    #[inline(always)]
    pub(crate) fn limits(&self)
        ensures within { IsWithinLimits self.now.params }
        ensures serves { Serves self.now.params self.now.next.page self.now.next.behind }
    {
        let _nodes = self.params.nodes();
    }

    // How far back a reference may reach.
    #[inline(always)]
    fn reach(&self) -> u64
        ensures value { result ≡ min self.now.params.window self.now.next.page }
        ensures within { result ≤ MOST_WINDOW }
    {
        self.params.window().min(self.page)
    }

    // The list that a reference names, empty for 0.
    #[inline(always)]
    pub(crate) fn referenced_list(&self, r: u64) -> &[u64]
        requires { r ≤ min self.now.params.window self.now.next.page }
        ensures value { result.now ≡ referenced self.now.next.behind r }
        ensures ascends { Ascends 0 result.now }
        ensures below { Below self.now.params.nodes result.now }
    {
        self.limits();
        self.kept.list(r)
    }

    // The depth of the page by this reference.
    #[inline(always)]
    pub(crate) fn depth(&self, r: u64) -> u64
        requires { r ≤ min self.now.params.window self.now.next.page }
        ensures value { result ≡ depth_of self.now.next.behind r }
        ensures within { result ≤ self.now.next.page }
    {
        if r == 0 {
            return 0;
        }
        self.limits();
        self.kept.depth(r) + 1
    }

    // Whether a reference names a page with successors, and makes no chain that is too long.
    #[inline(always)]
    fn may_refer(&self, r: u64) -> bool
        requires { r ≤ min self.now.params.window self.now.next.page }
        ensures { result ≡ (nat_lt 0 (length (referenced self.now.next.behind r)) && not
            (passes self.now.params.chain (depth_of self.now.next.behind r))) }
    {
        !self.referenced_list(r).is_empty() && !passes(self.params.chain(), self.depth(r))
    }

    // What a list that is marked has in common with the list that a reference names, if both are short.
    #[inline(always)]
    fn common(&self, marked: Option<&Marked<'_>>, r: u64) -> Option<Common>
        requires { r ≤ min self.now.params.window self.now.next.page }
        ensures { (list : List ℕ) → ForSome marked.entry (λ m. m.now ≡ list)
            → ForSome result (IsCommon list (referenced self.now.next.behind r)) }
    {
        match marked {
            Some(marked) => marked.common(self.referenced_list(r)),
            None => None,
        }
    }

    // Whether a list that comes next may have a successor of the page that a reference names.
    #[inline(always)]
    fn may_copy(&self, list: &[u64], r: u64, common: Option<Common>) -> bool
        requires list { IsList self.now.params list.now }
        requires reach { r ≤ min self.now.params.window self.now.next.page }
        requires common { ForSome common (IsCommon list.now (referenced self.now.next.behind r)) }
        ensures { result ≡ false → shares list.now (referenced self.now.next.behind r) ≡ false }
    {
        match common {
            Some(common) => common.ours != 0,
            None => shares(list, self.referenced_list(r)),
        }
    }

    // What the record takes by a reference, if that is wanted only below `most` and each value has a word. It is
    // less than 2 ^ 63 bits: a word but that of the reference and of the block count has at most 2 ^ 8.
    fn size_below(&self, list: &[u64], r: u64, common: Option<Common>, most: u64) -> Option<u64>
        requires page { self.now.next.page < self.now.params.nodes }
        requires list { IsList self.now.params list.now }
        requires reach { r ≤ min self.now.params.window self.now.next.page }
        requires common { ForSome common (IsCommon list.now (referenced self.now.next.behind r)) }
        ensures fewer { IsFewer most (cost_of (canonical self.now.params self.now.next list.now r)) result }
        ensures short { ForSome (cost_of (canonical self.now.params self.now.next list.now r)) (λ n. n < 2 ^ 63) }
    {
        self.limits();
        record_cost(
            &*self.params,
            self.page,
            r,
            self.referenced_list(r),
            list,
            common,
            most,
        )
    }

    // What the record takes by a reference, whatever it is, if each value has a word.
    fn size(&self, list: &[u64], r: u64) -> Option<u64>
        requires page { self.now.next.page < self.now.params.nodes }
        requires list { IsList self.now.params list.now }
        requires reach { r ≤ min self.now.params.window self.now.next.page }
        ensures { result ≡ cost_of (canonical self.now.params self.now.next list.now r) }
    {
        self.size_below(list, r, None, u64::MAX)
    }

    // What the record takes without a reference. All values of it have words.
    fn alone(&self, list: &[u64]) -> Option<u64>
        requires page { self.now.next.page < self.now.params.nodes }
        requires list { IsList self.now.params list.now }
        ensures { result ≡ Some (size_of self.now.params self.now.next list.now 0) }
    {
        self.limits();
        self.size(list, 0)
    }

    // What the record takes by a reference, if this is a candidate.
    fn offer(&self, list: &[u64], r: u64) -> Option<u64>
        requires page { self.now.next.page < self.now.params.nodes }
        requires list { IsList self.now.params list.now }
        ensures { result ≡ offer_of self.now.params self.now.next list.now r }
    {
        if r == 0 {
            return self.alone(list);
        }
        if r > self.reach() || !self.may_refer(r) {
            return None;
        }
        self.size(list, r)
    }

    // What the record takes by a reference but 0, if this is a candidate, and if it is wanted only below `most`, which
    // is no more than what the record takes without a reference. So a page that has no successor of the list is not
    // looked at any further: nothing is copied, and no reference has a shorter word than 0.
    #[inline(always)]
    fn offer_below(
        &self,
        list: &[u64],
        marked: Option<&Marked<'_>>,
        r: u64,
        most: u64,
    ) -> Option<u64>
        requires page { self.now.next.page < self.now.params.nodes }
        requires list { IsList self.now.params list.now }
        requires some { 0 < r }
        requires reach { r ≤ min self.now.params.window self.now.next.page }
        requires marked { ForSome marked (λ m. m.now ≡ list.now) }
        requires low { most ≤ size_of self.now.params self.now.next list.now 0 }
        ensures { IsFewer most (offer_of self.now.params self.now.next list.now r) result }
    {
        self.limits();
        if !self.may_refer(r) {
            return None;
        }
        let common = self.common(marked, r);
        if !self.may_copy(list, r, common) {
            return None;
        }
        self.size_below(list, r, common, most)
    }

    /// Whether a list that comes next may be written by this reference: 0, or one within the window that names a page
    /// with successors, if the chain of references gets no longer than the archive allows and each value of the
    /// record has a word. It takes no memory, and time in proportion to the two lists.
    pub(crate) fn candidate(&self, list: &[u64], r: u64) -> bool
        requires page { self.now.next.page < self.now.params.nodes }
        requires list { IsList self.now.params list.now }
        ensures { result ≡ is_candidate self.now.params self.now.next list.now r }
    {
        self.offer(list, r).is_some()
    }

    /// How many bits the canonical record of a list that comes next takes by a candidate. It takes no memory, and time
    /// in proportion to the two lists.
    pub(crate) fn cost(&self, list: &[u64], r: u64) -> u64
        requires page { self.now.next.page < self.now.params.nodes }
        requires list { IsList self.now.params list.now }
        requires candidate { is_candidate self.now.params self.now.next list.now r ≡ true }
        ensures { result ≡ size_of self.now.params self.now.next list.now r }
    {
        match self.offer(list, r) {
            Some(bits) => bits,
            None => unreachable!(),
        }
    }

    // Marks the list that comes next, so that its candidates are counted by sets of bits. No memory is taken.
    #[inline(always)]
    pub(crate) fn mark(&mut self, list: &[u64])
        ensures { self.new ≡ self.old }
    {
        self.marks.mark(list);
    }

    // The reference by which a list that comes next is written, and the bits of its record. It is the same whether the
    // list is marked or not.
    #[inline(always)]
    pub(crate) fn choose(&self, list: &[u64]) -> Choice
        requires page { self.now.next.page < self.now.params.nodes }
        requires list { IsList self.now.params list.now }
        ensures { IsChosen self.now.params self.now.next list.now result }
    {
        let mut best = Choice {
            reference: 0,
            bits: self.cost(list, 0),
        };
        let marked = Marked::of(&*self.marks, list);
        for r in 1..self.reach() + 1 {
            best = best.or(r, self.offer_below(list, marked.as_ref(), r, best.bits));
        }
        best
    }

    /// The reference by which a list that comes next is written: of the candidates with the shortest record the
    /// smallest. It takes no memory, and counts the bits of the record by each candidate that has a successor of the
    /// list, until there are as many as the best so far has.
    pub(crate) fn chosen(&self, list: &[u64]) -> u64
        requires page { self.now.next.page < self.now.params.nodes }
        requires list { IsList self.now.params list.now }
        ensures { result ≡ chosen self.now.params self.now.next list.now }
    {
        self.choose(list).reference
    }
}

// A writer that holds no bits, in memory of its own.
fn writer(alloc: Global) -> Result<Box<Writer>, AllocError>
    ensures bits { IfOk result (λ w. w.value.bits ≡ []) }
    ensures failed { IfOk result (λ w. w.value.failed ≡ false) }
{
    Ok(Box::new(alloc, Writer::new())?)
}

// Whether a depth passes the limit, if there is one.
#[inline(always)]
fn passes(limit: Option<u64>, depth: u64) -> bool
    ensures { result ≡ passes limit depth }
{
    match limit {
        Some(limit) => depth > limit,
        None => false,
    }
}
