// The list of a page, from its line.

ghost use Rattle.std.specs.Prelude.{◌≡◌, ◌+◌, ◌<◌, ◌≤◌, [], ◌∷◌, ◌++◌, Some, None, length, OnOk, IfOk, IfErr};
ghost use Rattle.wg_params.specs.declared.limits.TheConstants.{MOST_ARCS, MOST_PAGES};
ghost use Rattle.wg_num.specs.Decimal.{number_of};
ghost use Rattle.wg_num.specs.Lines.{lines_of};
ghost use Rattle.wg_num.specs.Words.{words_of};
ghost use Rattle.wg_ascii.specs.Reading.{refusal_of, fault_of_words};
ghost use Rattle.wg_ascii.specs.Growing.{IsRefused, IsNumber, IsList, HasList, HasNoList};

use crate::plain::plain_list;
use crate::words::next_word;
use crate::{AsciiError, AsciiKind};
use wg_graph::List;
use wg_num::{first_line, read_decimal};
use wg_params::MOST_ARCS;

// The number that a word writes, if it may come next on the line of a page, or why it is refused: `least` is one more
// than the number before it on the line, or 0, and so many arcs come before it.
#[inline(always)]
fn judge(word: &[u8], n: u64, least: u64, arcs: u64) -> Result<u64, AsciiKind>
    ensures number { IfOk result (λ v. IsNumber n least arcs word.now v) }
    ensures err { IfErr result (λ kind. refusal_of n least arcs (number_of word.now) ≡ Some kind) }
{
    let Some(number) = read_decimal(word) else {
        return Err(AsciiKind::Shape);
    };
    if number >= n {
        return Err(AsciiKind::Range);
    }
    if number < least {
        return Err(AsciiKind::Order);
    }
    if arcs >= MOST_ARCS {
        return Err(AsciiKind::TooMany);
    }
    Ok(number)
}

// Adds the number that a word of this line writes, and answers it.
#[inline(always)]
fn add(
    list: &mut List,
    line: u64,
    word: &[u8],
    n: u64,
    least: u64,
    arcs: u64,
) -> Result<u64, AsciiError>
    ensures number { IfOk result (λ v. IsNumber n least arcs word.now v) }
    ensures list { IfOk result (λ v. list.new ≡ list.old ++ v ∷ []) }
    ensures err { IfErr result (IsRefused line (refusal_of n least arcs (number_of word.now))) }
{
    match judge(word, n, least, arcs) {
        Ok(number) => {
            list.push(number)?;
            Ok(number)
        }
        Err(kind) => Err(AsciiError::Line { line, kind }),
    }
}

// Reads the successors of a page from its line; so many arcs come before them.
fn read_list(list: &mut List, line: u64, text: &[u8], n: u64, arcs: u64) -> Result<(), AsciiError>
    requires pages { n ≤ MOST_PAGES }
    requires arcs { arcs ≤ MOST_ARCS }
    ensures list { OnOk result (IsList n arcs (words_of text.now) list.new) }
    ensures err { IfErr result (IsRefused line (fault_of_words n 0 arcs (words_of text.now))) }
{
    list.clear();
    let mut least = 0;
    let mut count = arcs;
    let mut rest = text;
    'words: while let Some((word, after)) = next_word(rest) {
        least = add(list, line, word, n, least, count)? + 1;
        count += 1;
        rest = after;
    }
    Ok(())
}

// Reads the successors of a page from the first line, in any form, and answers the text after it.
#[cold]
#[inline(never)]
fn read_any<'a>(
    list: &mut List,
    line: u64,
    bytes: &'a [u8],
    n: u64,
    arcs: u64,
) -> Result<&'a [u8], AsciiError>
    requires some { 0 < length bytes.now }
    requires pages { n ≤ MOST_PAGES }
    requires arcs { arcs ≤ MOST_ARCS }
    ensures shorter { IfOk result (λ after. length after.now < length bytes.now) }
    ensures list { IfOk result (λ after. HasList n arcs (lines_of bytes.now) (lines_of after.now) list.new) }
    ensures err { IfErr result (HasNoList line n arcs (lines_of bytes.now)) }
{
    let (text, after) = first_line(bytes);
    read_list(list, line, text, n, arcs)?;
    Ok(after)
}

/// Reads the successors of a page from the first line, and answers the text after it. A line in the form in which it is
/// written is read by one pass.
#[inline(always)]
pub fn read_first<'a>(
    list: &mut List,
    line: u64,
    bytes: &'a [u8],
    n: u64,
    arcs: u64,
) -> Result<&'a [u8], AsciiError>
    requires some { 0 < length bytes.now }
    requires pages { n ≤ MOST_PAGES }
    requires arcs { arcs ≤ MOST_ARCS }
    ensures shorter { IfOk result (λ after. length after.now < length bytes.now) }
    ensures list { IfOk result (λ after. HasList n arcs (lines_of bytes.now) (lines_of after.now) list.new) }
    ensures err { IfErr result (HasNoList line n arcs (lines_of bytes.now)) }
{
    match plain_list(list, bytes, n, arcs) {
        Some(after) => Ok(after),
        None => read_any(list, line, bytes, n, arcs),
    }
}
