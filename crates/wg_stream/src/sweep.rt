//! The lists of an archive in the order of the pages, as often as one likes, from its bits.
ghost use Rattle.std.specs.Prelude.{◌≡◌, ◌+◌, ◌-◌, ◌<◌, ◌≤◌, ℕ, List as ListOf, Ok, All, length, min, option_copied, IfOk};
ghost use Rattle.wg_outside.specs.declared.limits.TheConstants.{MOST_BYTES};
ghost use Rattle.wg_bits.specs.Bits.{bits_of};
ghost use Rattle.wg_graph.specs.Digraph.{successors};
ghost use Rattle.wg_grammar.specs.Record.{Whole};
ghost use Rattle.wg_grammar.specs.Archive.{Accepted, ReadsGraph};
ghost use Rattle.wg_grammar.specs.Laws.{accepted_graph};
ghost use Rattle.wg_stream.specs.AllRecords.{AllRecords, known_at, offset_at};
ghost use Rattle.wg_stream.specs.References.{below_at};
ghost use Rattle.wg_stream.specs.Sweeping.{AreKept, IsBack, IsNext, PassFinds};

use crate::passed::pass;
use crate::standing::Standing;
use std::alloc::{AllocError, Global};
use std::marker::Model;
use std::mem::swap;
use wg_bits::{Bits, Cursor};
use wg_decoder::proper::{decode_behind, read_head};
use wg_grammar::ReadError;
use wg_graph::{Lists, Row};
use wg_params::Params;

/// The lists of an archive that was checked, decoded from its bits page after page, as often as one likes.
///
/// It is seen as the graph of the archive, and the page whose list comes next. It holds rows for the lists that a
/// reference may reach and for one list more, each with room for the greatest outdegree, 8 bytes a number, and 64 more;
/// all are taken when it is made. A list then takes the time of its record's words and of the lists that it has and
/// refers to.
#[derive(Debug)]
pub struct Sweep<'a> {
    archive: Standing<'a>,
    // the page whose list comes next, and where its record begins
    page: u64,
    at: u64,
    // the lists of the pages before the last one, in rows that are filled in turn, round and round
    kept: Vec<Row>,
    // the row whose turn comes next
    turn: u64,
    // the list of the last page
    list: Row,
}

impl Drop for Sweep<'_> {
    fn drop(self) {
        let Sweep {
            archive,
            page,
            at,
            kept,
            turn,
            list,
        } = self;
    }
}

impl<'a> Model for Sweep<'a> {
    ghost use Rattle.std.specs.Prelude.{◌≡◌};
    ghost use Rattle.wg_graph.specs.Listing.{Listing};
    ghost use Rattle.wg_stream.specs.Sweeping.{Sweeping};

    ghost Value = { Listing };

    ghost view = { λ s. record {
      graph = record { nodes = s.archive.params.nodes; lists = s.archive.graph.0 };
      place = s.page;
    } };

    ghost invariant = { λ s. Sweeping s.archive.params s.archive.bytes.now s.archive.graph.0 s.page s.at
        s.kept.items s.turn s.list };
}

// So many rows, each with this room.
fn rows(alloc: Global, count: u64, room: u64) -> Result<Vec<Row>, AllocError>
    ensures count { IfOk result (λ rows. length rows.items ≡ count) }
    ensures rooms { IfOk result (λ rows. All (λ r. r.room ≡ room) rows.items) }
{
    let mut rows = Vec::new(alloc);
    for _row in 0..count {
        rows.push(Row::new(alloc, room)?)?;
    }
    Ok(rows)
}

// The row after this one, of so many in a circle.
#[inline(always)]
fn row_after(row: u64, count: u64) -> u64
    requires { row < count }
    ensures within { result < count }
    ensures back { IsBack count result 1 row }
{
    if row + 1 < count { row + 1 } else { 0 }
}

// The row so many before this one, of so many in a circle.
#[inline(always)]
fn row_back(row: u64, count: u64, back: u64) -> u64
    requires within { row < count }
    requires some { 0 < back }
    requires reach { back ≤ count }
    ensures within { result < count }
    ensures back { IsBack count row back result }
{
    if back <= row {
        row - back
    } else {
        count - (back - row)
    }
}

// Keeps the list of the page before the one that comes next, in place of one that no reference reaches any more, and
// gives the row whose turn comes next.
#[inline(always)]
fn keep(kept: &mut [Row], turn: u64, list: &mut Row) -> u64
    requires rooms { All (λ r. r.room ≡ list.old.room) kept.old }
    requires turn { 0 < length kept.old → turn < length kept.old }
    ensures count { length kept.new ≡ length kept.old }
    ensures room { list.new.room ≡ list.old.room }
    ensures rooms { All (λ r. r.room ≡ list.old.room) kept.new }
    ensures turn { 0 < length kept.old → result < length kept.old }
    ensures kept { (records : ListOf Whole) (page : ℕ) → AreKept records (page - 1) kept.old turn
        → (0 < page → list.old.list ≡ (known_at records (page - 1)).list) → AreKept records page kept.new result }
{
    if kept.is_empty() {
        return turn;
    }
    swap(&mut kept[turn as usize], list);
    row_after(turn, kept.len() as u64)
}

// The list of the page so many pages before the one that comes next, which is as many rows back; none for 0.
#[inline(always)]
fn list_back(kept: &[Row], turn: u64, back: u64) -> Option<&[u64]>
    requires turn { 0 < length kept.now → turn < length kept.now }
    requires reach { back ≤ length kept.now }
    ensures below { (records : ListOf Whole) (page : ℕ) → back ≤ page → AreKept records page kept.now turn
        → option_copied result ≡ below_at records page back }
{
    if back == 0 {
        return None;
    }
    let row = row_back(turn, kept.len() as u64, back);
    Some(kept[row as usize].as_slice())
}

// Decodes the record of a page, which begins at the bit `at`, into the row, and tells where it ends.
#[inline(always)]
fn decode_page(
    archive: &Standing<'_>,
    page: u64,
    at: u64,
    kept: &[Row],
    turn: u64,
    list: &mut Row,
) -> u64
    requires short { length archive.now.bytes.now ≤ MOST_BYTES }
    requires page { page < archive.now.params.nodes }
    requires turn { 0 < length kept.now → turn < length kept.now }
    requires next { (r : AllRecords archive.now.params (bits_of archive.now.bytes.now))
        × IsNext archive.now.params (bits_of archive.now.bytes.now) r page at kept.now turn
        × (length (known_at r.records page).list ≤ list.old.room) }
    ensures list { (r : AllRecords archive.now.params (bits_of archive.now.bytes.now))
        → IsNext archive.now.params (bits_of archive.now.bytes.now) r page at kept.now turn
        → list.new.list ≡ (known_at r.records page).list }
    ensures end { (r : AllRecords archive.now.params (bits_of archive.now.bytes.now))
        → IsNext archive.now.params (bits_of archive.now.bytes.now) r page at kept.now turn
        → result ≡ offset_at r.records (page + 1) }
    ensures room { list.new.room ≡ list.old.room }
{
    let params = &archive.params;
    // tells the limits
    params.nodes();
    let mut cursor = Cursor::new(Bits::of(archive.bytes), at);
    let head = read_head(params, cursor.again());
    let below = list_back(kept, turn, head.reference);
    decode_behind(params, page, head, below, &mut cursor, list);
    cursor.at()
}

impl<'a> Sweep<'a> {
    /// The lists of the graph that the bytes stand for, from page 0 on. It passes over the records once to find the
    /// greatest outdegree, and takes all memory: besides the rows, what [`pass`](crate::pass) takes, until it returns.
    pub fn new(alloc: Global, bytes: &'a [u8], params: Params) -> Result<Sweep<'a>, AllocError>
        requires short { length bytes.now ≤ MOST_BYTES }
        requires graph { (a : Accepted) × ReadsGraph params (bits_of bytes.now) (Ok a) }
        ensures graph { (a : Accepted) → ReadsGraph params (bits_of bytes.now) (Ok a)
            → IfOk result (λ s. s.graph ≡ accepted_graph params a) }
        ensures place { IfOk result (λ s. s.place ≡ 0) }
    {
        // tells the limits
        params.nodes();
        match pass(alloc, bytes, params) {
            Ok(found) => Sweep::with_room(alloc, bytes, params, found.greatest),
            Err(ReadError::Memory) => Err(AllocError),
            Err(ReadError::Fault(_)) => unreachable!(),
            Err(ReadError::Refused(never)) => match never {},
        }
    }

    /// Like [`Sweep::new`], if a pass has been made: `room` is the greatest outdegree, and all memory is that of the
    /// rows.
    pub fn with_room(
        alloc: Global,
        bytes: &'a [u8],
        params: Params,
        room: u64,
    ) -> Result<Sweep<'a>, AllocError>
        requires short { length bytes.now ≤ MOST_BYTES }
        requires finds { (offsets : ListOf ℕ) × PassFinds params (bits_of bytes.now) offsets room }
        ensures graph { (a : Accepted) → ReadsGraph params (bits_of bytes.now) (Ok a)
            → IfOk result (λ s. s.graph ≡ accepted_graph params a) }
        ensures place { IfOk result (λ s. s.place ≡ 0) }
    {
        let kept = rows(alloc, params.window().min(params.nodes()), room)?;
        let list = Row::new(alloc, room)?;
        Ok(Sweep {
            archive: Standing::of(bytes, params),
            page: 0,
            at: 0,
            kept,
            turn: 0,
            list,
        })
    }

    // Decodes the list of the page that comes next.
    #[inline(always)]
    fn advance(&mut self)
        requires { self.old.place < self.old.graph.nodes }
        ensures graph { self.new.graph ≡ self.old.graph }
        ensures place { self.new.place ≡ self.old.place + 1 }
    {
        self.turn = keep(self.kept.as_mut_slice(), self.turn, &mut self.list);
        self.at = decode_page(
            &self.archive,
            self.page,
            self.at,
            self.kept.as_slice(),
            self.turn,
            &mut self.list,
        );
        self.page += 1;
    }

    // The list of the page that was decoded last.
    #[inline(always)]
    fn last(&self) -> &[u64]
        requires { 0 < self.now.place }
        ensures { result.now ≡ successors self.now.graph (self.now.place - 1) }
    {
        self.list.as_slice()
    }
}

impl<'a> Lists for Sweep<'a> {
    ghost graph = { λ s. s.graph };

    ghost place = { λ s. s.place };

    fn nodes(&self) -> u64 {
        self.archive.params.nodes()
    }

    fn begin(&mut self) {
        self.page = 0;
        self.at = 0;
    }

    fn next_list(&mut self) -> Option<&[u64]> {
        if self.page < self.archive.params.nodes() {
            self.advance();
            Some(self.last())
        } else {
            None
        }
    }
}
