//! Page after page.
ghost use Rattle.std.specs.Prelude.{◌≡◌, ◌+◌, ◌<◌, ◌≤◌, ℕ, Bool, true, false, List as ListOf, [], ◌∷◌, Ok, Err, length, take, OnOk, OnErr};
ghost use Rattle.wg_params.specs.Parameters.{IsWithinLimits};
ghost use Rattle.wg_graph.specs.Ascending.{Ascends, Below};
ghost use Rattle.wg_grammar.specs.Record.{Whole};
ghost use Rattle.wg_grammar.specs.Archive.{lists_of, places_of, ReadsGraph};
ghost use Rattle.wg_decoder.specs.Remembered.{known_of};
ghost use Rattle.wg_decoder.specs.Spare.{all_empty};
ghost use Rattle.wg_grammar.specs.Errors.{OnFault, OnRefusal};
ghost use Rattle.wg_stream.specs.Errors.{IsOfGraph};
ghost use Rattle.wg_stream.specs.Nearest.{nearest};
ghost use Rattle.wg_stream.specs.Prefix.{AreBehind, AreShort, HoldsFew, IsOneMore};

use std::alloc::{AllocError, Global};
use std::marker::Model;
use std::mem;
use wg_decoder::{Decoded, Spares, Window, decode_from};
use wg_grammar::{ArchiveFault, ReadError, Source};
use wg_graph::List;
use wg_params::Params;

/// Reads the records of an archive page by page, as `wg_encoder::Encoder` writes them: it owns all that has to be known
/// of the pages before, and stands at the page that comes next.
///
/// It is seen as its parameters, how many pages and arcs were read, what is kept of the pages before, the list of the
/// page that was read last, and how long the lists are whose memory serves for later ones. It keeps no more lists than
/// the window of the parameters has, each with room for at most twice its numbers, or for few; three lists with room
/// for as many as the longest; and two that have left the window. None of these is ever longer than there are pages,
/// however many are read ([`next`](Pages::next)). Pass the same source to every call: the clauses on bits assume it.
#[derive(Debug)]
pub struct Pages {
    params: Params,
    page: u64,
    arcs: u64,
    window: Window,
    spares: Spares,
    past: List,
}

impl Drop for Pages {
    fn drop(self) {
        let Pages {
            params,
            page,
            arcs,
            window,
            spares,
            past,
        } = self;
    }
}

impl Model for Pages {
    ghost use Rattle.std.specs.Prelude.{◌≡◌, length};
    ghost use Rattle.wg_stream.specs.Prefix.{PagesRead, AreSound};
    ghost use Rattle.wg_stream.specs.Nearest.{nearest};

    ghost Value = { PagesRead };

    ghost view = { λ r. record { params = r.params; page = r.page; arcs = r.arcs; kept = r.window.behind; list = nearest r.window.behind r.past; spares = r.spares; past = length r.past } };

    ghost invariant = { λ r. (r.window.window ≡ r.params.window)
        × AreSound (record { params = r.params; page = r.page; arcs = r.arcs; kept = r.window.behind; list = nearest r.window.behind r.past; spares = r.spares; past = length r.past }) };
}

// Keeps the page in the window. The list that leaves it is the one past the window; if the window keeps none, that is
// the page's own. What was past the window serves for a later list.
#[inline(always)]
fn keep(
    window: &mut Window,
    spares: &mut Spares,
    past: &mut List,
    decoded: Decoded,
) -> Result<(), AllocError>
    ensures window { window.new.window ≡ window.old.window }
    ensures ok { OnOk result (window.new.behind ≡ take window.old.window (known_of decoded ∷ window.old.behind)) }
    ensures list { OnOk result (nearest window.new.behind past.new ≡ decoded.list) }
    ensures err { OnErr result (window.new ≡ window.old) }
    ensures same { OnErr result (past.new ≡ past.old) }
    ensures few { OnOk result (length window.new.behind ≤ window.new.window) }
    ensures short { (most : ℕ) → AreShort most window.old.behind spares.old (length past.old)
        → length decoded.list ≤ most → AreShort most window.new.behind spares.new (length past.new) }
{
    if let Some(furthest) = window.exchange(decoded.list, decoded.depth)? {
        let before = mem::replace(past, furthest.list);
        spares.take_furthest(before);
    }
    Ok(())
}

impl Pages {
    /// Before the first page.
    pub fn new(alloc: Global, params: Params) -> Pages
        ensures params { result.params ≡ params }
        ensures limits { IsWithinLimits params }
        ensures none { (result.page ≡ 0) × (result.arcs ≡ 0) × (result.list ≡ []) }
        ensures behind { (bits : ListOf Bool) → AreBehind bits result 0 [] }
        ensures kept { (result.kept ≡ []) × (result.spares ≡ all_empty) × (result.past ≡ 0) }
    {
        Pages {
            params,
            page: 0,
            arcs: 0,
            window: Window::new(alloc, &params),
            spares: Spares::new(alloc),
            past: List::new(alloc),
        }
    }

    /// The list of the page that was read last.
    #[inline(always)]
    pub fn list(&self) -> &[u64]
        ensures value { result.now ≡ self.now.list }
        ensures ascends { Ascends 0 result.now }
        ensures below { Below self.now.params.nodes result.now }
        ensures arcs { self.now.arcs ≤ self.now.params.arcs }
    {
        match self.window.get(1) {
            Some(list) => list.as_slice(),
            None => self.past.as_slice(),
        }
    }

    /// Whether the records of all pages were read.
    pub fn is_done(&self) -> bool
        ensures done { result ≡ true → self.now.page ≡ self.now.params.nodes }
        ensures more { result ≡ false → self.now.page < self.now.params.nodes }
    {
        self.page == self.params.nodes()
    }

    /// Reads the record of the page that comes next, and goes on to the one after it. If it is refused, it stays at
    /// this page. Whatever the answer, no list that it holds is longer than there are pages. It takes time in
    /// proportion to the words of the record, to its list and to the one that it refers to.
    #[inline(always)]
    pub fn next<S: Source>(
        &mut self,
        source: &mut S,
    ) -> Result<(), ReadError<ArchiveFault, S::Refusal>>
        requires more { self.old.page < self.old.params.nodes }
        ensures params { self.new.params ≡ self.old.params }
        ensures page { OnOk result (self.new.page ≡ self.old.page + 1) }
        ensures arcs { OnOk result (self.new.arcs ≡ self.old.arcs + length self.new.list) }
        ensures err { OnErr result (self.new ≡ record self.old { spares = self.new.spares }) }
        ensures graph { OnFault result IsOfGraph }
        ensures later { S.later source.old source.new }
        ensures refused { OnRefusal result (S.caused source.old source.new) }
        ensures reads { (bits : ListOf Bool) (behind : ListOf Whole) → S.reads_from source.old bits
            → AreBehind bits self.old (S.offset source.old) behind
            → OnOk result (IsOneMore bits self.new (S.offset source.new) behind) }
        ensures fault { (bits : ListOf Bool) (behind : ListOf Whole) → S.reads_from source.old bits
            → AreBehind bits self.old (S.offset source.old) behind
            → OnFault result (λ f. ReadsGraph self.old.params bits (Err f)) }
        ensures few { HoldsFew self.new }
    {
        let decoded = decode_from(
            &self.params,
            self.page,
            self.arcs,
            &self.window,
            &mut self.spares,
            source,
        )?;
        let length = decoded.list.as_slice().len() as u64;
        keep(&mut self.window, &mut self.spares, &mut self.past, decoded)?;
        self.page += 1;
        self.arcs += length;
        Ok(())
    }

    /// Checks what follows the records: the tail, and whether there are as many arcs as are promised.
    pub fn finish<S: Source>(
        &self,
        source: &mut S,
    ) -> Result<(), ReadError<ArchiveFault, S::Refusal>>
        requires done { self.now.page ≡ self.now.params.nodes }
        ensures total { OnOk result (self.now.arcs ≡ self.now.params.arcs) }
        ensures graph { OnFault result IsOfGraph }
        ensures later { S.later source.old source.new }
        ensures refused { OnRefusal result (S.caused source.old source.new) }
        ensures reads { (bits : ListOf Bool) (behind : ListOf Whole) → S.reads_from source.old bits
            → AreBehind bits self.now (S.offset source.old) behind
            → OnOk result (ReadsGraph self.now.params bits
            (Ok (record { graph = lists_of behind; places = places_of behind }))) }
        ensures fault { (bits : ListOf Bool) (behind : ListOf Whole) → S.reads_from source.old bits
            → AreBehind bits self.now (S.offset source.old) behind
            → OnFault result (λ f. ReadsGraph self.now.params bits (Err f)) }
    {
        let tail = match source.tail_fault() {
            Ok(tail) => tail,
            Err(refusal) => return Err(ReadError::Refused(refusal)),
        };
        if let Some(at) = tail {
            return Err(ReadError::Fault(ArchiveFault::Tail(at)));
        }
        if self.arcs < self.params.arcs() {
            return Err(ReadError::Fault(ArchiveFault::ArcsShort(self.arcs)));
        }
        Ok(())
    }
}
