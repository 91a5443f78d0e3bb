ghost use Rattle.std.specs.Prelude.{◌≡◌, ℕ, List as ListOf, ◌+◌, ◌<◌, ◌≤◌, ◌^◌, nat_le, ◌++◌, [], ◌∷◌, Some, decimal, length, MatchOption, OnOk, IfOk, IfErr};
ghost use Rattle.wg_params.specs.declared.limits.TheConstants.{MOST_ARCS, MOST_PAGES};
ghost use Rattle.wg_num.specs.Lines.{lines_of};
ghost use Rattle.wg_num.specs.Words.{words_of};
ghost use Rattle.wg_graph.specs.Ascending.{Ascends, Below};
ghost use Rattle.wg_ascii.specs.Reading.{fault_of_first, StandsFor};
ghost use Rattle.wg_ascii.specs.Growing.{IsFirst, IsUpTo};

use crate::lists::read_first;
use crate::words::next_word;
use crate::{AsciiError, AsciiKind};
use std::marker::Model;
use wg_graph::List;
use wg_num::{first_line, read_decimal};
use wg_params::MOST_PAGES;

// The one word of a line.
fn sole_word(line: &[u8]) -> Option<&[u8]>
    ensures { MatchOption result (fault_of_first (words_of line.now) ≡ Some AsciiKind.Shape)
        (λ word. words_of line.now ≡ word.now ∷ []) }
{
    let (word, rest) = next_word(line)?;
    match next_word(rest) {
        Some(_) => None,
        None => Some(word),
    }
}

// The number of pages that the first line tells.
fn read_nodes(line: &[u8]) -> Result<u64, AsciiKind>
    ensures told { IfOk result (λ n. words_of line.now ≡ decimal n ∷ []) }
    ensures few { IfOk result (λ n. n ≤ MOST_PAGES) }
    ensures err { IfErr result (λ kind. fault_of_first (words_of line.now) ≡ Some kind) }
{
    let Some(word) = sole_word(line) else {
        return Err(AsciiKind::Shape);
    };
    let Some(nodes) = read_decimal(word) else {
        return Err(AsciiKind::Shape);
    };
    if nodes > MOST_PAGES {
        return Err(AsciiKind::Range);
    }
    Ok(nodes)
}

/// How far an ASCIIGraph text was read, line by line, and what of the lines before says whether the next one is in
/// order.
#[derive(Debug, Drop)]
pub struct PageLines {
    nodes: u64,
    line: u64,
    arcs: u64,
}

impl Model for PageLines {
    ghost use Rattle.wg_ascii.specs.Growing.{PageLinesRead};

    ghost Value = { PageLinesRead };

    ghost view = { λ l. record { nodes = l.nodes; line = l.line; arcs = l.arcs } };
}

impl PageLines {
    /// Reads the first line of a text, which tells the number of pages, and answers the text after it. An error is the
    /// fault of this line, an [`AsciiError::Line`]; a text without lines lacks it.
    pub fn begin(bytes: &[u8]) -> Result<(PageLines, &[u8]), AsciiError>
        ensures few { IfOk result (λ r. r.0.nodes ≤ MOST_PAGES) }
        ensures line { IfOk result (λ r. r.0.line ≡ 1) }
        ensures arcs { IfOk result (λ r. r.0.arcs ≡ 0) }
        ensures shorter { IfOk result (λ r. length r.1.now < length bytes.now) }
        ensures read { (later : ListOf (ListOf ℕ))
            → IfOk result (λ r. IsUpTo (lines_of bytes.now ++ later) (lines_of r.1.now ++ later) [] r.0) }
        ensures fault { (later : ListOf (ListOf ℕ)) → (length bytes.now ≡ 0 → later ≡ [])
            → IfErr result (IsFirst (lines_of bytes.now ++ later)) }
    {
        if bytes.is_empty() {
            return Err(AsciiError::Line {
                line: 1,
                kind: AsciiKind::Missing,
            });
        }
        let (first, rest) = first_line(bytes);
        match read_nodes(first) {
            Ok(nodes) => {
                let lines = PageLines {
                    nodes,
                    line: 1,
                    arcs: 0,
                };
                Ok((lines, rest))
            }
            Err(kind) => Err(AsciiError::Line { line: 1, kind }),
        }
    }

    /// How many pages the first line tells.
    pub fn nodes(&self) -> u64
        ensures { result ≡ self.now.nodes }
    {
        self.nodes
    }

    /// How many arcs were read.
    pub fn arcs(&self) -> u64
        ensures { result ≡ self.now.arcs }
    {
        self.arcs
    }

    // The fault of the next line.
    fn fault(&self, kind: AsciiKind) -> AsciiError
        requires { self.now.line + 1 < 2 ^ 64 }
        ensures { result ≡ AsciiError.Line (self.now.line + 1) kind }
    {
        AsciiError::Line {
            line: self.line + 1,
            kind,
        }
    }

    // Goes over a line.
    #[inline(always)]
    fn pass(&mut self)
        requires { self.old.line + 1 < 2 ^ 64 }
        ensures { self.new ≡ record self.old { line = self.old.line + 1 } }
    {
        self.line += 1;
    }

    // Goes over a line that has so many arcs.
    #[inline(always)]
    fn pass_page(&mut self, arcs: u64)
        requires line { self.old.line + 1 < 2 ^ 64 }
        requires arcs { self.old.arcs + arcs < 2 ^ 64 }
        ensures { self.new ≡ record self.old { line = self.old.line + 1; arcs = self.old.arcs + arcs } }
    {
        self.pass();
        self.arcs += arcs;
    }

    /// Whether the next line is that of a page.
    #[inline(always)]
    pub fn is_page(&self) -> bool
        ensures { result ≡ nat_le self.now.line self.now.nodes }
    {
        self.line <= self.nodes
    }

    /// Reads the successors of the next page into a list, which it clears, from the first line of a text, and answers
    /// the text after it. A line as [`write`](crate::write) has it is gone over once. An error is the fault of this
    /// line, or memory ran out; no more lines are to be read then.
    #[inline(always)]
    pub fn read_page<'a>(
        &mut self,
        list: &mut List,
        bytes: &'a [u8],
    ) -> Result<&'a [u8], AsciiError>
        requires some { 0 < length bytes.now }
        requires page { self.old.line ≤ self.old.nodes }
        requires few { self.old.nodes ≤ MOST_PAGES }
        requires arcs { self.old.arcs ≤ MOST_ARCS }
        ensures nodes { self.new.nodes ≡ self.old.nodes }
        ensures line { OnOk result (self.new.line ≡ self.old.line + 1) }
        ensures arcs { OnOk result (self.new.arcs ≡ self.old.arcs + length list.new) }
        ensures room { OnOk result (self.new.arcs ≤ MOST_ARCS) }
        ensures ascends { OnOk result (Ascends 0 list.new) }
        ensures below { OnOk result (Below self.old.nodes list.new) }
        ensures shorter { IfOk result (λ after. length after.now < length bytes.now) }
        ensures read { (all later lists : ListOf (ListOf ℕ)) → IsUpTo all (lines_of bytes.now ++ later) lists self.old
            → IfOk result (λ after. IsUpTo all (lines_of after.now ++ later) (lists ++ list.new ∷ []) self.new) }
        ensures fault { (all later lists : ListOf (ListOf ℕ)) → IsUpTo all (lines_of bytes.now ++ later) lists self.old
            → IfErr result (IsFirst all) }
    {
        let after = read_first(list, self.line + 1, bytes, self.nodes, self.arcs)?;
        self.pass_page(list.as_slice().len() as u64);
        Ok(after)
    }

    /// Sees that no word stands on the lines of a text, which come after those of all pages. An error is the fault of
    /// the first one that has a word; no more lines are to be read then.
    pub fn refuse_words(&mut self, bytes: &[u8]) -> Result<(), AsciiError>
        requires over { 0 < length bytes.now → self.old.nodes < self.old.line }
        requires line { self.old.line + length bytes.now < 2 ^ 64 }
        ensures nodes { self.new.nodes ≡ self.old.nodes }
        ensures arcs { self.new.arcs ≡ self.old.arcs }
        ensures onward { OnOk result (self.old.line ≤ self.new.line) }
        ensures line { OnOk result (self.new.line ≤ self.old.line + length bytes.now) }
        ensures read { (all later lists : ListOf (ListOf ℕ)) → IsUpTo all (lines_of bytes.now ++ later) lists self.old
            → OnOk result (IsUpTo all later lists self.new) }
        ensures fault { (all later lists : ListOf (ListOf ℕ)) → IsUpTo all (lines_of bytes.now ++ later) lists self.old
            → IfErr result (IsFirst all) }
    {
        let mut rest = bytes;
        'lines: while !rest.is_empty() {
            let (text, after) = first_line(rest);
            if next_word(text).is_some() {
                return Err(self.fault(AsciiKind::Extra));
            }
            self.pass();
            rest = after;
        }
        Ok(())
    }

    /// Sees, once the text has ended, that no page lacks its line.
    pub fn end(&self) -> Result<(), AsciiError>
        requires { self.now.nodes ≤ MOST_PAGES }
        ensures over { OnOk result (self.now.nodes < self.now.line) }
        ensures read { (all lists : ListOf (ListOf ℕ)) → IsUpTo all [] lists self.now
            → OnOk result (StandsFor all (record { nodes = self.now.nodes; lists = lists })) }
        ensures fault { (all lists : ListOf (ListOf ℕ)) → IsUpTo all [] lists self.now → IfErr result (IsFirst all) }
    {
        if self.is_page() {
            return Err(self.fault(AsciiKind::Missing));
        }
        Ok(())
    }
}
