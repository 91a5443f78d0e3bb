// Files in whole lines.
ghost use Rattle.std.specs.Prelude.{◌≡◌, ◌≢◌, ◌+◌, ◌<◌, ◌≤◌, List, ℕ, Some, Ok, Err, true, false, [], ◌++◌, length, slice_index, take, drop, IsTrue, IsErrOf, IfOk, IfErr, OnOk, OnErr};
ghost use Rattle.std.specs.FinMap as map;
ghost use Rattle.wg_outside.specs.declared.limits.TheConstants.{MOST_BYTES};
ghost use Rattle.wg_lines.specs.declared.reading.TheConstants.{PIECE};
ghost use Rattle.wg_outside.specs.Outside.{NonDecreasing, Increased};
ghost use Rattle.wg_outside.specs.Reads.{Loads};
ghost use Rattle.wg_num.specs.Lines.{lines_of};
ghost use Rattle.wg_lines.specs.Reading.{end_of, lines_after, lines_ahead, HoldsAPiece, IsReadable, IsWhole};

use std::alloc::{AllocError, Global};
use std::marker::Model;
use wg_outside::{Depot, LoadError, MOST_BYTES};

// The most bytes that are read at a time.
const PIECE: usize = 65_536;

// Asks for the byte at the limit, so that a file that is too long is refused before any of it is held.
fn probe<D: Depot>(depot: &mut D, name: &str) -> Result<(), LoadError>
    ensures readable { IsTrue D.told → OnOk result (IsReadable (map.get (D.files depot.old) name.now)) }
    ensures refused { IsTrue D.told → IfErr result (λ e. Loads (map.get (D.files depot.old) name.now) (Err e)) }
    ensures same { D.files depot.new ≡ D.files depot.old }
    ensures absent { IsErrOf result LoadError.Absent
        → Increased (D.counts depot.old name.now).absences (D.counts depot.new name.now).absences }
    ensures failed { IsErrOf result LoadError.Failed
        → Increased (D.counts depot.old name.now).read_faults (D.counts depot.new name.now).read_faults }
    ensures later { NonDecreasing (D.counts depot.old) (D.counts depot.new) }
{
    let mut byte = [0u8; 1];
    if depot.read(name, MOST_BYTES, &mut byte)? > 0 {
        return Err(LoadError::TooLong);
    }
    Ok(())
}

// How many bytes come up to the last LF, and with it; it looks for one behind the first `from` bytes, and answers none
// if there is none.
fn whole_lines(bytes: &[u8], from: usize) -> usize
    requires { from ≤ length bytes.now }
    ensures within { result ≤ length bytes.now }
    ensures whole { IsWhole (take result bytes.now) }
    ensures none { (k : ℕ) → from ≤ k → result ≤ k → k < length bytes.now → slice_index bytes.now k ≢ 10 }
{
    for index in (from..bytes.len()).rev() {
        if bytes[index] == b'\n' {
            return index + 1;
        }
    }
    0
}

// Lets go of the first bytes.
fn drop_front(bytes: &mut Vec<u8>, count: usize)
    requires { count ≤ length bytes.old.items }
    ensures { bytes.new.items ≡ drop count bytes.old.items }
{
    let end = bytes.len();
    bytes.copy_within(count..end, 0);
    bytes.truncate(end - count);
}

/// A file that is read line after line, in pieces of at most 65536 bytes.
///
/// It lends whole lines, as many as a piece has. Of the file it holds part of one line, and up to a piece behind it: so
/// at most a piece and the longest line so far. Each byte is read once.
#[derive(Debug, Drop)]
pub struct LineReader {
    // what was read and is not passed; the first `whole` bytes are lent
    bytes: Vec<u8>,
    whole: usize,
    // the offset of the first of them in the file
    first: u64,
}

impl Model for LineReader {
    ghost use Rattle.std.specs.Prelude.{◌+◌, ◌≤◌, length, take, drop};
    ghost use Rattle.wg_outside.specs.declared.limits.TheConstants.{MOST_BYTES};
    ghost use Rattle.wg_lines.specs.Reading.{HeldLines, HoldsAPiece, held_lines};

    ghost Value = { HeldLines };

    ghost view = { λ r. held_lines r.first r.whole r.bytes.items };

    ghost invariant = { λ r. (r.whole ≤ length r.bytes.items) × (r.first + length r.bytes.items ≤ MOST_BYTES)
        × HoldsAPiece (held_lines r.first r.whole r.bytes.items) };
}

impl LineReader {
    /// A reading of the file of this name, before its first line. It asks for the byte at the limit, so that a file
    /// that is too long is refused before any of it is held; it takes no memory yet.
    pub fn open<D: Depot>(alloc: Global, depot: &mut D, name: &str) -> Result<LineReader, LoadError>
        ensures all { IfOk result (λ r. (file : List ℕ) → lines_after file r ≡ lines_of file) }
        ensures none { IfOk result (λ r. r.lines ≡ []) }
        ensures first { IfOk result (λ r. r.first ≡ 0) }
        ensures readable { IsTrue D.told → OnOk result (IsReadable (map.get (D.files depot.old) name.now)) }
        ensures refused { IsTrue D.told → IfErr result (λ e. Loads (map.get (D.files depot.old) name.now) (Err e)) }
        ensures same { D.files depot.new ≡ D.files depot.old }
        ensures absent { IsErrOf result LoadError.Absent
            → Increased (D.counts depot.old name.now).absences (D.counts depot.new name.now).absences }
        ensures failed { IsErrOf result LoadError.Failed
            → Increased (D.counts depot.old name.now).read_faults (D.counts depot.new name.now).read_faults }
        ensures later { NonDecreasing (D.counts depot.old) (D.counts depot.new) }
    {
        probe(depot, name)?;
        Ok(LineReader {
            bytes: Vec::new(alloc),
            whole: 0,
            first: 0,
        })
    }

    /// The lines that are lent, each with its end; the last line of a file may lack it. There are none before the first
    /// call of [`advance`](LineReader::advance), and behind the last line.
    #[inline(always)]
    pub fn lines(&self) -> &[u8]
        ensures value { result.now ≡ self.now.lines }
        ensures within { self.now.first + length result.now ≤ MOST_BYTES }
        ensures piece { HoldsAPiece self.now }
    {
        &self.bytes[..self.whole]
    }

    // The offset of the first byte that was not read yet.
    fn end(&self) -> u64
        ensures offset { result ≡ end_of self.now }
        ensures short { result ≤ MOST_BYTES }
    {
        self.first + self.bytes.len() as u64
    }

    // Lets go of the lines that were lent.
    fn pass(&mut self)
        ensures value { self.new ≡ record self.old { first = self.old.first + length self.old.lines; lines = [] } }
        ensures short { end_of self.new ≤ MOST_BYTES }
    {
        drop_front(&mut self.bytes, self.whole);
        self.first += self.whole as u64;
        self.whole = 0;
    }

    // Lends all that is left.
    fn lend_rest(&mut self)
        requires { self.old.lines ≡ [] }
        ensures { self.new ≡ record self.old { lines = self.old.rest; rest = [] } }
    {
        self.whole = self.bytes.len();
    }

    // Holds some bytes more, and lends the lines that end among them.
    fn hold(&mut self, piece: &[u8]) -> Result<(), AllocError>
        requires none { self.old.lines ≡ [] }
        requires piece { length piece.now ≤ PIECE }
        requires short { end_of self.old + length piece.now ≤ MOST_BYTES }
        ensures first { self.new.first ≡ self.old.first }
        ensures bytes { OnOk result (self.new.lines ++ self.new.rest ≡ self.old.rest ++ piece.now) }
        ensures whole { OnOk result (IsWhole self.new.lines) }
        ensures err { OnErr result (self.new ≡ self.old) }
    {
        let before = self.bytes.len();
        self.bytes.extend_from_slice(piece)?;
        let whole = whole_lines(&self.bytes, before);
        self.whole = whole;
        Ok(())
    }

    // Reads one piece more, and lends the lines that end in it; at the end of the file all that is left. Answers
    // whether the file has ended.
    fn read_piece<D: Depot>(&mut self, depot: &mut D, name: &str) -> Result<bool, LoadError>
        requires { self.old.lines ≡ [] }
        ensures lines { IsTrue D.told → (file : List ℕ) → map.get (D.files depot.old) name.now ≡ Some file
            → lines_ahead file self.new ≡ lines_ahead file self.old }
        ensures ended { IsTrue D.told → (file : List ℕ) → map.get (D.files depot.old) name.now ≡ Some file
            → result ≡ Ok true → lines_ahead file self.new ≡ lines_of self.new.lines }
        ensures more { result ≡ Ok false → end_of self.old < end_of self.new }
        ensures first { self.new.first ≡ self.old.first }
        ensures short { end_of self.new ≤ MOST_BYTES }
        ensures refused { IsTrue D.told → IfErr result (λ e. Loads (map.get (D.files depot.old) name.now) (Err e)) }
        ensures same { D.files depot.new ≡ D.files depot.old }
        ensures absent { IsErrOf result LoadError.Absent
            → Increased (D.counts depot.old name.now).absences (D.counts depot.new name.now).absences }
        ensures failed { IsErrOf result LoadError.Failed
            → Increased (D.counts depot.old name.now).read_faults (D.counts depot.new name.now).read_faults }
        ensures later { NonDecreasing (D.counts depot.old) (D.counts depot.new) }
    {
        let end = self.end();
        let mut piece = [0u8; PIECE];
        let count = depot.read(name, end, &mut piece)?;
        if count == 0 {
            self.lend_rest();
            return Ok(true);
        }
        if end + count as u64 > MOST_BYTES {
            return Err(LoadError::TooLong);
        }
        self.hold(&piece[..count])?;
        Ok(false)
    }

    /// Passes the lines that are lent, and lends those that come next, if there are any. An error passes no others, so
    /// that a later call goes on where this one stopped. The file is to be the one that was opened.
    pub fn advance<D: Depot>(&mut self, depot: &mut D, name: &str) -> Result<bool, LoadError>
        ensures lines { IsTrue D.told → (file : List ℕ) → map.get (D.files depot.old) name.now ≡ Some file
            → lines_after file self.old ≡ lines_of self.new.lines ++ lines_after file self.new }
        ensures end { IsTrue D.told → (file : List ℕ) → map.get (D.files depot.old) name.now ≡ Some file
            → result ≡ Ok false → lines_after file self.old ≡ [] }
        ensures some { result ≡ Ok true → 0 < length self.new.lines }
        ensures none { result ≡ Ok false → self.new.lines ≡ [] }
        ensures first { self.new.first ≡ self.old.first + length self.old.lines }
        ensures refused { IsTrue D.told → IfErr result (λ e. Loads (map.get (D.files depot.old) name.now) (Err e)) }
        ensures same { D.files depot.new ≡ D.files depot.old }
        ensures absent { IsErrOf result LoadError.Absent
            → Increased (D.counts depot.old name.now).absences (D.counts depot.new name.now).absences }
        ensures failed { IsErrOf result LoadError.Failed
            → Increased (D.counts depot.old name.now).read_faults (D.counts depot.new name.now).read_faults }
        ensures later { NonDecreasing (D.counts depot.old) (D.counts depot.new) }
    {
        self.pass();
        while self.lines().is_empty() {
            if self.read_piece(depot, name)? {
                return Ok(!self.lines().is_empty());
            }
        }
        Ok(true)
    }
}
