//! The whole list of a record, at once.
ghost use Rattle.std.specs.Prelude.{◌≡◌, ◌<◌, ◌≤◌, ℕ, List, [], Option, length, is_some, option_copied};
ghost use Rattle.wg_graph.specs.Ascending.{Ascends};
ghost use Rattle.wg_decoder.specs.Proper.Headed.{IsReadHead};
ghost use Rattle.wg_decoder.specs.Proper.Laid.{list_or_none};
ghost use Rattle.wg_decoder.specs.Proper.{IsRecord};

use super::copying::copy_members;
use super::head::{RecordHead, read_head};
use super::joining::{add_intervals, add_residuals};
use super::lookahead::value_where;
use wg_bits::Cursor;
use wg_graph::Row;
use wg_params::{Code, Params};

// The list that is lent; no members if there is none.
#[inline(always)]
fn members_of(below: Option<&[u64]>) -> &[u64]
    ensures { result.now ≡ list_or_none (option_copied below.entry) }
{
    match below {
        None => &[],
        Some(list) => list,
    }
}

// Whether a list is lent.
#[inline(always)]
fn is_lent(below: Option<&[u64]>) -> bool
    ensures { result ≡ is_some (option_copied below.entry) }
{
    match below {
        None => false,
        Some(_) => true,
    }
}

/// Like [`decode_into`](crate::proper::decode_into), if the record's head has been read: whoever asks for the reference
/// first has it at hand.
pub fn decode_behind<'a>(
    params: &Params,
    page: u64,
    head: RecordHead<'a>,
    below: Option<&[u64]>,
    cursor: &mut Cursor<'a>,
    row: &mut Row,
)
    requires page { page < params.now.nodes }
    requires head { IsReadHead params.now cursor.old head }
    requires ascends { Ascends 0 (list_or_none (option_copied below)) }
    requires proper { (list : List ℕ) × IsRecord params.now page (option_copied below) cursor.old list
        × (length list ≤ row.old.room) }
    ensures list { (list : List ℕ) → IsRecord params.now page (option_copied below.entry) cursor.old list
        → row.new.list ≡ list }
    ensures waiting { row.new.waiting ≡ [] }
    ensures room { row.new.room ≡ row.old.room }
    ensures bits { cursor.new.bits ≡ cursor.old.bits }
    ensures end { (list : List ℕ) (h : IsRecord params.now page (option_copied below.entry) cursor.old list)
        → cursor.new.at ≡ h.end }
{
    // tells that it is inside its bits
    cursor.at();
    // tells the limits
    params.nodes();
    let RecordHead {
        outdegree,
        reference: _,
        mut words,
    } = head;
    let count = value_where(is_lent(below), params.block_counts(), &mut words);
    row.clear();
    copy_members(params.blocks(), count, members_of(below), &mut words, row);
    let extra = outdegree - row.as_slice().len() as u64;
    let has_intervals = (extra > 0) & (params.interval() > 0);
    let intervals = value_where(has_intervals, Code::Gamma, &mut words);
    add_intervals(page, params.interval(), intervals, &mut words, row);
    let left = outdegree - row.as_slice().len() as u64;
    let behind = add_residuals(params.residuals(), page, left, words, row);
    cursor.advance(cursor.remaining() - behind);
}

/// Puts the list of the record of `page`, which stands at the cursor, into the row, in place of what it held, and moves
/// over the record. `below` is the list of the page that it refers to, if it has a reference
/// ([`reference`](crate::proper::reference) tells). The row has room for the list.
///
/// It takes no memory, and the time of the record's words, of the members that are copied, and of the list: a number of
/// it is written five times at most, since it waits and is put back if intervals or residuals are joined to it. Each
/// word is read once.
pub fn decode_into(
    params: &Params,
    page: u64,
    below: Option<&[u64]>,
    cursor: &mut Cursor<'_>,
    row: &mut Row,
)
    requires page { page < params.now.nodes }
    requires ascends { Ascends 0 (list_or_none (option_copied below)) }
    requires proper { (list : List ℕ) × IsRecord params.now page (option_copied below) cursor.old list
        × (length list ≤ row.old.room) }
    ensures list { (list : List ℕ) → IsRecord params.now page (option_copied below.entry) cursor.old list
        → row.new.list ≡ list }
    ensures waiting { row.new.waiting ≡ [] }
    ensures room { row.new.room ≡ row.old.room }
    ensures bits { cursor.new.bits ≡ cursor.old.bits }
    ensures end { (list : List ℕ) (h : IsRecord params.now page (option_copied below.entry) cursor.old list)
        → cursor.new.at ≡ h.end }
{
    let head = read_head(params, cursor.again());
    decode_behind(params, page, head, below, cursor, row);
}
