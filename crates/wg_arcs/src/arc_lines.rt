ghost use Rattle.std.specs.Prelude.{◌≡◌, ℕ, ◌⊎◌, List as ListOf, ◌+◌, ◌<◌, ◌≤◌, ◌^◌, ◌++◌, [], Some, None, codes, decimal, length, OnOk, IfOk, IfErr, IfSome, option_to_list};
ghost use Rattle.wg_num.specs.Lines.{lines_of};
ghost use Rattle.wg_arcs.specs.Reading.{arc_at, is_after, refusal_after, fault_after};
ghost use Rattle.wg_arcs.specs.Growing.{MayCome, IsUpTo, IsRefusedLine, IsFirst, SoFar, with_line};
ghost use Rattle.wg_arcs.specs.Listing.{AreListed, arcs_on, later_than, on_page};

use crate::plain::{plain_arc, plain_arc_of};
use crate::words::{arc, entry};
use crate::writing::write_start;
use crate::{ArcsError, ArcsKind};
use std::alloc::AllocError;
use std::marker::Model;
use wg_graph::List;
use wg_lines::MOST_START;
use wg_num::first_line;
use wg_params::MOST_ARCS;

/// How far a text of arcs was read, line by line, and what of the lines before says whether the next one is in order.
#[derive(Debug, Drop)]
pub struct ArcLines {
    nodes: u64,
    line: u64,
    last: Option<(u64, u64)>,
    arcs: u64,
}

impl Model for ArcLines {
    ghost use Rattle.wg_arcs.specs.Growing.{ArcLinesRead};

    ghost Value = { ArcLinesRead };

    ghost view = { λ l. record { nodes = l.nodes; line = l.line; last = l.last; arcs = l.arcs } };
}

impl ArcLines {
    /// No lines yet of a text of so many pages.
    pub fn new(nodes: u64) -> ArcLines
        ensures nodes { result.nodes ≡ nodes }
        ensures line { result.line ≡ 0 }
        ensures none { (all : ListOf (ListOf ℕ)) → IsUpTo all all [] result }
    {
        ArcLines {
            nodes,
            line: 0,
            last: None,
            arcs: 0,
        }
    }

    /// How many arcs were read.
    pub fn arcs(&self) -> u64
        ensures { result ≡ self.now.arcs }
    {
        self.arcs
    }

    // Whether an arc comes after the last one.
    #[inline(always)]
    fn is_after(&self, u: u64, v: u64) -> bool
        ensures { result ≡ is_after self.now.last (u, v) }
    {
        match self.last {
            Some((x, w)) => x < u || x == u && w < v,
            None => true,
        }
    }

    // The fault of the next line.
    #[inline(always)]
    fn fault(&self, kind: ArcsKind) -> ArcsError
        requires { self.now.line + 1 < 2 ^ 64 }
        ensures { result ≡ ArcsError.Line (self.now.line + 1) kind }
    {
        ArcsError::Line {
            line: self.line + 1,
            kind,
        }
    }

    // Goes over a line that has this arc.
    #[inline(always)]
    fn take(&mut self, u: u64, v: u64) -> Result<(), ArcsError>
        requires { self.old.line + 1 < 2 ^ 64 }
        ensures fine { OnOk result (refusal_after self.old.nodes self.old.last self.old.arcs (Some (u, v)) ≡ None) }
        ensures comes { OnOk result (MayCome self.old.nodes self.old.last self.old.arcs (u, v)) }
        ensures ok { OnOk result (self.new ≡ with_line self.old (Some (u, v))) }
        ensures nodes { self.new.nodes ≡ self.old.nodes }
        ensures err { IfErr result (IsRefusedLine (self.old.line + 1)
            (refusal_after self.old.nodes self.old.last self.old.arcs (Some (u, v)))) }
    {
        if self.nodes <= u || self.nodes <= v {
            return Err(self.fault(ArcsKind::Range));
        }
        if !self.is_after(u, v) {
            return Err(self.fault(ArcsKind::Order));
        }
        if self.arcs >= MOST_ARCS {
            return Err(self.fault(ArcsKind::TooMany));
        }
        self.line += 1;
        self.last = Some((u, v));
        self.arcs += 1;
        Ok(())
    }

    // Goes over a line in any form.
    #[inline(always)]
    fn read_line(&mut self, text: &[u8]) -> Result<Option<(u64, u64)>, ArcsError>
        requires { self.old.line + 1 < 2 ^ 64 }
        ensures fine { OnOk result (fault_after self.old.nodes self.old.last self.old.arcs text.now ≡ None) }
        ensures comes { IfOk result (λ arc. IfSome arc (MayCome self.old.nodes self.old.last self.old.arcs)) }
        ensures arc { IfOk result (λ arc. arc ≡ arc_at text.now) }
        ensures ok { IfOk result (λ arc. self.new ≡ with_line self.old arc) }
        ensures nodes { self.new.nodes ≡ self.old.nodes }
        ensures err { IfErr result (IsRefusedLine (self.old.line + 1)
            (fault_after self.old.nodes self.old.last self.old.arcs text.now)) }
    {
        let (first, rest) = match entry(text) {
            Some(words) => words,
            None => {
                self.line += 1;
                return Ok(None);
            }
        };
        match arc(first, rest) {
            Some((u, v)) => {
                self.take(u, v)?;
                Ok(Some((u, v)))
            }
            None => Err(self.fault(ArcsKind::Shape)),
        }
    }

    // Reads the first line of a text, in any form: its arc, if it has one, and the text after it.
    #[cold]
    #[inline(never)]
    fn read_any<'a>(&mut self, bytes: &'a [u8]) -> Result<(Option<(u64, u64)>, &'a [u8]), ArcsError>
        requires some { 0 < length bytes.now }
        requires line { self.old.line + 1 < 2 ^ 64 }
        ensures nodes { self.new.nodes ≡ self.old.nodes }
        ensures line { OnOk result (self.new.line ≡ self.old.line + 1) }
        ensures ok { IfOk result (λ r. self.new ≡ with_line self.old r.0) }
        ensures shorter { IfOk result (λ r. length r.1.now < length bytes.now) }
        ensures comes { IfOk result (λ r. IfSome r.0 (MayCome self.old.nodes self.old.last self.old.arcs)) }
        ensures read { (all later : ListOf (ListOf ℕ)) (arcs : ListOf (ℕ × ℕ))
            → IsUpTo all (lines_of bytes.now ++ later) arcs self.old
            → IfOk result (λ r. IsUpTo all (lines_of r.1.now ++ later) (arcs ++ option_to_list r.0) self.new) }
        ensures fault { (all later : ListOf (ListOf ℕ)) (arcs : ListOf (ℕ × ℕ))
            → IsUpTo all (lines_of bytes.now ++ later) arcs self.old → IfErr result (IsFirst self.old.nodes all) }
    {
        let (text, after) = first_line(bytes);
        let arc = self.read_line(text)?;
        Ok((arc, after))
    }

    /// Reads the first line of a text: its arc, if it has one, and the text after it. A line in its plain form, as
    /// [`write`](crate::write) has it, is gone over once. An error is the fault of this line, an
    /// [`ArcsError::Line`]; no more lines are to be read then.
    #[inline(always)]
    pub fn read_first<'a>(
        &mut self,
        bytes: &'a [u8],
    ) -> Result<(Option<(u64, u64)>, &'a [u8]), ArcsError>
        requires some { 0 < length bytes.now }
        requires line { self.old.line + 1 < 2 ^ 64 }
        ensures nodes { self.new.nodes ≡ self.old.nodes }
        ensures line { OnOk result (self.new.line ≡ self.old.line + 1) }
        ensures ok { IfOk result (λ r. self.new ≡ with_line self.old r.0) }
        ensures shorter { IfOk result (λ r. length r.1.now < length bytes.now) }
        ensures comes { IfOk result (λ r. IfSome r.0 (MayCome self.old.nodes self.old.last self.old.arcs)) }
        ensures read { (all later : ListOf (ListOf ℕ)) (arcs : ListOf (ℕ × ℕ))
            → IsUpTo all (lines_of bytes.now ++ later) arcs self.old
            → IfOk result (λ r. IsUpTo all (lines_of r.1.now ++ later) (arcs ++ option_to_list r.0) self.new) }
        ensures fault { (all later : ListOf (ListOf ℕ)) (arcs : ListOf (ℕ × ℕ))
            → IsUpTo all (lines_of bytes.now ++ later) arcs self.old → IfErr result (IsFirst self.old.nodes all) }
    {
        match plain_arc(bytes) {
            Some((u, v, after)) => {
                self.take(u, v)?;
                Ok((Some((u, v)), after))
            }
            None => self.read_any(bytes),
        }
    }

    // Reads the first line of a text, if lines of this page begin with these bytes: its arc, and the text after it.
    #[inline(always)]
    fn read_next<'a>(
        &mut self,
        page: u64,
        start: &[u8],
        bytes: &'a [u8],
    ) -> Result<(Option<(u64, u64)>, &'a [u8]), ArcsError>
        requires some { 0 < length bytes.now }
        requires line { self.old.line + 1 < 2 ^ 64 }
        requires start { start.now ≡ decimal page ++ codes " " }
        ensures nodes { self.new.nodes ≡ self.old.nodes }
        ensures line { OnOk result (self.new.line ≡ self.old.line + 1) }
        ensures ok { IfOk result (λ r. self.new ≡ with_line self.old r.0) }
        ensures shorter { IfOk result (λ r. length r.1.now < length bytes.now) }
        ensures comes { IfOk result (λ r. IfSome r.0 (MayCome self.old.nodes self.old.last self.old.arcs)) }
        ensures read { (all later : ListOf (ListOf ℕ)) (arcs : ListOf (ℕ × ℕ))
            → IsUpTo all (lines_of bytes.now ++ later) arcs self.old
            → IfOk result (λ r. IsUpTo all (lines_of r.1.now ++ later) (arcs ++ option_to_list r.0) self.new) }
        ensures fault { (all later : ListOf (ListOf ℕ)) (arcs : ListOf (ℕ × ℕ))
            → IsUpTo all (lines_of bytes.now ++ later) arcs self.old → IfErr result (IsFirst self.old.nodes all) }
    {
        match plain_arc_of(page, start, bytes) {
            Some((v, after)) => {
                self.take(page, v)?;
                Ok((Some((page, v)), after))
            }
            None => self.read_first(bytes),
        }
    }

    /// Reads lines of a text up to the first arc of a page after this one, or to its end. The numbers of the arcs of
    /// this page go to the end of its list. Gives that arc, if it came to one, and the text after it. Of a line that
    /// begins with the digits of this page and a space, only what follows is read as a number.
    #[inline(always)]
    pub fn fill<'a>(
        &mut self,
        page: u64,
        list: &mut List,
        text: &'a [u8],
    ) -> Result<(Option<(u64, u64)>, &'a [u8]), ArcsError>
        requires { self.old.line + length text.now < 2 ^ 64 }
        ensures nodes { self.new.nodes ≡ self.old.nodes }
        ensures line { IfOk result (λ r. self.new.line + length r.1.now ≤ self.old.line + length text.now) }
        ensures shorter { IfOk result (λ r. 0 < length text.now → length r.1.now < length text.now) }
        ensures listed { (done : ListOf (ListOf ℕ)) → length done ≡ page → AreListed done list.old None self.old
            → IfOk result (λ r. AreListed done list.new r.0 self.new) }
        ensures read { (done all later : ListOf (ListOf ℕ)) → length done ≡ page
            → AreListed done list.old None self.old
            → SoFar self.old.nodes all (lines_of text.now ++ later) self.old.line (arcs_on done list.old)
            → IfOk result (λ r. SoFar self.old.nodes all (lines_of r.1.now ++ later) self.new.line
            (arcs_on done list.new ++ option_to_list r.0)) }
        ensures fault { (done all later : ListOf (ListOf ℕ)) → length done ≡ page
            → AreListed done list.old None self.old
            → SoFar self.old.nodes all (lines_of text.now ++ later) self.old.line (arcs_on done list.old)
            → IfErr result (λ e. (e ≡ ArcsError.Memory) ⊎ IsFirst self.old.nodes all e) }
    {
        let mut digits = [0; MOST_START];
        let count = write_start(page, &mut digits);
        let start = &digits[..count];
        let mut rest = text;
        'lines: while !rest.is_empty() {
            let (arc, after) = self.read_next(page, start, rest)?;
            rest = after;
            let next = put(list, page, arc)?;
            if next.is_some() {
                return Ok((next, rest));
            }
        }
        Ok((None, rest))
    }
}

// Puts the number of an arc of this page at the end of its list, and gives an arc of a later page back.
#[inline(always)]
fn put(
    list: &mut List,
    page: u64,
    arc: Option<(u64, u64)>,
) -> Result<Option<(u64, u64)>, AllocError>
    ensures list { OnOk result (list.new ≡ list.old ++ on_page page arc) }
    ensures later { IfOk result (λ next. next ≡ later_than page arc) }
{
    match arc {
        Some((u, v)) => {
            if page < u {
                return Ok(Some((u, v)));
            }
            list.push(v)?;
            Ok(None)
        }
        None => Ok(None),
    }
}
