// Numbers and texts into a sink, through a buffer.
ghost use Rattle.std.specs.Prelude.{◌≡◌, ◌+◌, ◌≤◌, [], ◌∷◌, ◌++◌, length, take, codes, decimal, IsTrue, OnOk, OnErr};
ghost use Rattle.wg_outside.specs.Puts.{Puts};
ghost use Rattle.wg_lines.specs.Printing.{Prints, pair_line};
ghost use Rattle.wg_outside.specs.Refusals.{SinkRefusals};
ghost use Rattle.wg_lines.specs.declared.lines.TheConstants.{BUFFER, MOST_PIECE, MOST_START};

use std::marker::Model;
use wg_num::decimal_at;
use wg_outside::{Sink, WriteError, write_all};

// The bytes that may wait.
const BUFFER: usize = 8192;

/// The most bytes that are printed at once: more than two numbers take, and what stands between and behind them.
pub const MOST_PIECE: usize = 128;

/// Room for a number and a space.
pub const MOST_START: usize = 24;

/// Numbers and bytes on their way into a sink: those that were printed and have not gone out yet.
///
/// It holds up to 8192 bytes itself and takes no memory. They go out when there is no room for another line, and all
/// that is left with [`flush`](Lines::flush). The sink is that of each call: always hand in the same one. A call that
/// answers an error leaves nothing that waits: what the sink did not take is lost.
#[derive(Debug, Drop)]
pub struct Lines {
    // the bytes that wait are the first `len`
    bytes: [u8; BUFFER],
    len: usize,
}

impl Model for Lines {
    ghost use Rattle.std.specs.Prelude.{List, ℕ, ◌≤◌, take};
    ghost use Rattle.wg_lines.specs.declared.lines.TheConstants.{BUFFER};

    ghost Value = { List ℕ };

    ghost view = { λ l. take l.len l.bytes };

    ghost invariant = { λ l. l.len ≤ BUFFER };
}

// Puts the start of a line at a place. All of it is copied, which costs less than a copy of any other length.
#[inline(always)]
fn put_start(bytes: &mut [u8; BUFFER], at: usize, start: &[u8; MOST_START])
    requires { at + MOST_START ≤ BUFFER }
    ensures { take (at + MOST_START) bytes.new ≡ take at bytes.old ++ start.now }
{
    let end = at + MOST_START;
    bytes[at..end].copy_from_slice(start);
}

impl Lines {
    /// Nothing waits.
    pub fn new() -> Lines
        ensures { result ≡ [] }
    {
        Lines {
            bytes: [0; BUFFER],
            len: 0,
        }
    }

    // How many bytes wait.
    #[inline(always)]
    fn len(&self) -> usize
        ensures value { result ≡ length self.now }
        ensures within { result ≤ BUFFER }
    {
        self.len
    }

    // Lets a text wait.
    #[inline(always)]
    fn hold(&mut self, text: &[u8])
        requires { length self.old + length text.now ≤ BUFFER }
        ensures { self.new ≡ self.old ++ text.now }
    {
        let end = self.len + text.len();
        self.bytes[self.len..end].copy_from_slice(text);
        self.len = end;
    }

    // Lets a number wait, which takes up to 20 digits.
    #[inline(always)]
    fn hold_number(&mut self, number: u64)
        requires { length self.old + 20 ≤ BUFFER }
        ensures value { self.new ≡ self.old ++ decimal number }
        ensures few { length self.new ≤ length self.old + 20 }
    {
        let count = decimal_at(number, &mut self.bytes[self.len..]);
        self.len += count;
    }

    // Sends all out if there is no room for one more line.
    #[inline(always)]
    fn make_room<S: Sink>(&mut self, sink: &mut S) -> Result<(), WriteError>
        ensures room { OnOk result (length self.new + MOST_PIECE ≤ BUFFER) }
        ensures prints { IsTrue S.told → Prints [] (S.taken sink.old) (S.taken sink.new) self.old self.new result }
        ensures empty { OnErr result (self.new ≡ []) }
        ensures later { S.later sink.old sink.new }
        ensures refusals { SinkRefusals ⟦<S as Sink>⟧ sink.old sink.new result }
    {
        if self.len() + MOST_PIECE <= BUFFER {
            return Ok(());
        }
        self.flush(sink)
    }

    /// Prints a number in decimal digits.
    #[inline(always)]
    pub fn number<S: Sink>(&mut self, sink: &mut S, number: u64) -> Result<(), WriteError>
        ensures prints { IsTrue S.told → Prints (decimal number) (S.taken sink.old) (S.taken sink.new) self.old self.new
            result }
        ensures empty { OnErr result (self.new ≡ []) }
        ensures later { S.later sink.old sink.new }
        ensures refusals { SinkRefusals ⟦<S as Sink>⟧ sink.old sink.new result }
    {
        match self.make_room(sink) {
            Ok(()) => {
                self.hold_number(number);
                Ok(())
            }
            Err(e) => Err(e),
        }
    }

    /// Prints a byte.
    pub fn byte<S: Sink>(&mut self, sink: &mut S, byte: u8) -> Result<(), WriteError>
        ensures prints { IsTrue S.told → Prints (byte ∷ []) (S.taken sink.old) (S.taken sink.new) self.old self.new
            result }
        ensures empty { OnErr result (self.new ≡ []) }
        ensures later { S.later sink.old sink.new }
        ensures refusals { SinkRefusals ⟦<S as Sink>⟧ sink.old sink.new result }
    {
        match self.make_room(sink) {
            Ok(()) => {
                self.hold(&[byte]);
                Ok(())
            }
            Err(e) => Err(e),
        }
    }

    /// Prints a short text.
    pub fn text<S: Sink>(&mut self, sink: &mut S, text: &[u8]) -> Result<(), WriteError>
        requires { length text.now ≤ MOST_PIECE }
        ensures prints { IsTrue S.told → Prints text.now (S.taken sink.old) (S.taken sink.new) self.old self.new
            result }
        ensures empty { OnErr result (self.new ≡ []) }
        ensures later { S.later sink.old sink.new }
        ensures refusals { SinkRefusals ⟦<S as Sink>⟧ sink.old sink.new result }
    {
        match self.make_room(sink) {
            Ok(()) => {
                self.hold(text);
                Ok(())
            }
            Err(e) => Err(e),
        }
    }

    /// Prints a line of two numbers, parted by a space.
    #[inline(always)]
    pub fn pair<S: Sink>(&mut self, sink: &mut S, first: u64, second: u64) -> Result<(), WriteError>
        ensures prints { IsTrue S.told → Prints (pair_line (first, second)) (S.taken sink.old) (S.taken sink.new)
            self.old self.new result }
        ensures empty { OnErr result (self.new ≡ []) }
        ensures later { S.later sink.old sink.new }
        ensures refusals { SinkRefusals ⟦<S as Sink>⟧ sink.old sink.new result }
    {
        match self.make_room(sink) {
            Ok(()) => {
                self.hold_pair(first, second);
                Ok(())
            }
            Err(e) => Err(e),
        }
    }

    /// Prints such a line, if the first `count` bytes of `start` are its first number and the space: they were made
    /// once for many lines.
    #[inline(always)]
    pub fn pair_after<S: Sink>(
        &mut self,
        sink: &mut S,
        start: &[u8; MOST_START],
        count: usize,
        second: u64,
    ) -> Result<(), WriteError>
        requires { count ≤ MOST_START }
        ensures prints { IsTrue S.told → Prints (take count start.now ++ decimal second ++ codes "\n")
            (S.taken sink.old) (S.taken sink.new) self.old self.new result }
        ensures empty { OnErr result (self.new ≡ []) }
        ensures later { S.later sink.old sink.new }
        ensures refusals { SinkRefusals ⟦<S as Sink>⟧ sink.old sink.new result }
    {
        match self.make_room(sink) {
            Ok(()) => {
                self.hold_pair_after(start, count, second);
                Ok(())
            }
            Err(e) => Err(e),
        }
    }

    // Lets a line's last number and its end wait.
    #[inline(always)]
    fn hold_end(&mut self, second: u64)
        requires { length self.old + MOST_START ≤ BUFFER }
        ensures value { self.new ≡ self.old ++ decimal second ++ codes "\n" }
    {
        self.hold_number(second);
        self.hold(b"\n");
    }

    // Lets a line wait that begins with the first `count` bytes of `start`.
    #[inline(always)]
    fn hold_pair_after(&mut self, start: &[u8; MOST_START], count: usize, second: u64)
        requires start { count ≤ MOST_START }
        requires room { length self.old + MOST_PIECE ≤ BUFFER }
        ensures { self.new ≡ self.old ++ (take count start.now ++ decimal second ++ codes "\n") }
    {
        let from = self.len;
        put_start(&mut self.bytes, from, start);
        let at = from + count;
        let end = at + decimal_at(second, &mut self.bytes[at..]);
        self.bytes[end] = b'\n';
        self.len = end + 1;
    }

    // Lets a line of two numbers wait.
    #[inline(always)]
    fn hold_pair(&mut self, first: u64, second: u64)
        requires { length self.old + MOST_PIECE ≤ BUFFER }
        ensures { self.new ≡ self.old ++ pair_line (first, second) }
    {
        self.hold_number(first);
        self.hold(b" ");
        self.hold_end(second);
    }

    /// Sends all out.
    #[cold]
    #[inline(never)]
    pub fn flush<S: Sink>(&mut self, sink: &mut S) -> Result<(), WriteError>
        ensures puts { IsTrue S.told → Puts self.old (S.taken sink.old) (S.taken sink.new) result }
        ensures empty { self.new ≡ [] }
        ensures later { S.later sink.old sink.new }
        ensures refusals { SinkRefusals ⟦<S as Sink>⟧ sink.old sink.new result }
    {
        let len = self.len;
        self.len = 0;
        write_all(sink, &self.bytes[..len])
    }
}
