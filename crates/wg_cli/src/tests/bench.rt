//! What a case runs over: files and outputs in memory, and how the last run ended.

use super::ending::{Ending, is_text, words_of};
use super::spelling::{bits_of, lists_of, number_and_rest, text_of, word_and_rest};
use std::alloc::{AllocError, Global};
use wg_io::{MemoryDepot, MemorySink, ZeroDepot};
use wg_outside::{List8, LoadError, read_whole};

// Later than any call of a case.
const NEVER: u64 = 1_000_000_000;

pub struct Bench {
    alloc: Global,
    piece: u64,
    depot: MemoryDepot,
    write: u64,
    report: u64,
    last: Ending,
}

impl Drop for Bench {
    fn drop(self) {
        let Bench {
            alloc,
            piece,
            depot,
            write,
            report,
            last,
        } = self;
    }
}

impl Bench {
    /// No files, where each call moves at most so many bytes, and at least one.
    pub fn new(alloc: Global, piece: u64) -> Bench {
        Bench {
            alloc,
            piece,
            depot: MemoryDepot::new(alloc, piece.max(1)),
            write: NEVER,
            report: NEVER,
            last: Ending::none(alloc),
        }
    }

    /// How the last run ended.
    pub fn last(&self) -> &Ending {
        &self.last
    }

    /// Does a step of a case, and answers whether it is a step, and if it expects something, whether it is so.
    pub fn step(&mut self, line: &str) -> Result<bool, AllocError> {
        let (word, rest) = word_and_rest(line);
        match word {
            "run" => self.run(rest),
            "run-zeros" => self.run_over_zeros(rest),
            "text" | "bits" | "lists" => self.put(word, rest),
            _ => self.step_of_files(word, rest),
        }
    }

    fn step_of_files(&mut self, word: &str, rest: &str) -> Result<bool, AllocError> {
        match word {
            "save" => self.save(rest),
            "change" => self.change(rest),
            "holds" => self.holds(rest),
            "holds-bits" => self.holds_bits(rest),
            "lacks" => self.lacks(rest),
            "prints-file" => self.prints_file(rest),
            _ => self.last.is_so(self.alloc, word, rest),
        }
    }

    /// Whether there is the file that a step would give.
    pub fn has(&mut self, step: &str) -> Result<bool, AllocError> {
        let (word, rest) = word_and_rest(step);
        match word {
            "text" => self.holds(rest),
            "bits" => self.holds_bits(rest),
            _ => Ok(false),
        }
    }

    /// Has the call of this kind and number fail, counted from 1. Whether there is such a kind.
    pub fn fail(&mut self, call: &str, k: u64) -> bool {
        let k = k.clamp(1, NEVER);
        match call {
            "read" => self.depot.fail_read(k),
            "create" => self.depot.fail_create(k),
            "append" => self.depot.fail_append(k),
            "write" => self.write = k,
            "report" => self.report = k,
            _ => return false,
        }
        true
    }

    // Gives the depot a file.
    fn put(&mut self, word: &str, rest: &str) -> Result<bool, AllocError> {
        let (name, spelled) = word_and_rest(rest);
        let Some(bytes) = self.bytes_for(word, spelled)? else {
            return Ok(false);
        };
        self.depot.put_file(name, bytes.as_slice())?;
        Ok(true)
    }

    fn bytes_for(&self, word: &str, spelled: &str) -> Result<Option<Vec<u8>>, AllocError> {
        match word {
            "bits" => bits_of(self.alloc, spelled),
            "lists" => lists_of(self.alloc, spelled),
            _ => text_of(self.alloc, spelled),
        }
    }

    // Gives the depot a file of what the last run printed.
    fn save(&mut self, name: &str) -> Result<bool, AllocError> {
        self.depot.put_file(name, self.last.printed())?;
        Ok(true)
    }

    // Has a file go on with these letters at a place, instead of as many bytes that stand there.
    fn change(&mut self, rest: &str) -> Result<bool, AllocError> {
        let (name, rest) = word_and_rest(rest);
        let Some((at, letters)) = number_and_rest(rest) else {
            return Ok(false);
        };
        let Some(found) = self.file(name)? else {
            return Ok(false);
        };
        let Some(bytes) = changed(self.alloc, found.as_slice(), at, letters)? else {
            return Ok(false);
        };
        self.depot.put_file(name, bytes.as_slice())?;
        Ok(true)
    }

    // Runs a line of words.
    fn run(&mut self, line: &str) -> Result<bool, AllocError> {
        let words = words_of(self.alloc, line)?;
        let out = sink_with_fault(self.alloc, self.piece, self.write);
        let err = sink_with_fault(self.alloc, self.piece, self.report);
        self.last = Ending::of(self.alloc, &words, &mut self.depot, out, err);
        self.clear_faults();
        Ok(true)
    }

    // Runs a line of words over one file of so many zeros.
    fn run_over_zeros(&mut self, rest: &str) -> Result<bool, AllocError> {
        let (name, rest) = word_and_rest(rest);
        let Some((length, line)) = number_and_rest(rest) else {
            return Ok(false);
        };
        let words = words_of(self.alloc, line)?;
        let out = sink_with_fault(self.alloc, self.piece, NEVER);
        let err = sink_with_fault(self.alloc, self.piece, NEVER);
        let mut depot = ZeroDepot::new(name, length);
        self.last = Ending::of(self.alloc, &words, &mut depot, out, err);
        Ok(true)
    }

    // No call fails from here on.
    fn clear_faults(&mut self) {
        self.write = NEVER;
        self.report = NEVER;
        self.depot.fail_read(NEVER);
        self.depot.fail_create(NEVER);
        self.depot.fail_append(NEVER);
    }

    // What a file holds. None: it is not there.
    fn file(&mut self, name: &str) -> Result<Option<List8>, AllocError> {
        match read_whole(self.alloc, &mut self.depot, name) {
            Ok(found) => Ok(Some(found)),
            Err(LoadError::Memory) => Err(AllocError),
            Err(_) => Ok(None),
        }
    }

    fn holds(&mut self, rest: &str) -> Result<bool, AllocError> {
        let (name, spelled) = word_and_rest(rest);
        match self.file(name)? {
            Some(found) => is_text(self.alloc, spelled, found.as_slice()),
            None => Ok(false),
        }
    }

    fn holds_bits(&mut self, rest: &str) -> Result<bool, AllocError> {
        let (name, spelled) = word_and_rest(rest);
        let Some(wanted) = bits_of(self.alloc, spelled)? else {
            return Ok(false);
        };
        match self.file(name)? {
            Some(found) => Ok(wanted.as_slice() == found.as_slice()),
            None => Ok(false),
        }
    }

    fn lacks(&mut self, name: &str) -> Result<bool, AllocError> {
        Ok(self.file(name)?.is_none())
    }

    // Whether the last run printed what a file holds.
    fn prints_file(&mut self, name: &str) -> Result<bool, AllocError> {
        match self.file(name)? {
            Some(found) => Ok(self.last.is_done() && self.last.printed() == found.as_slice()),
            None => Ok(false),
        }
    }
}

// The bytes with these letters at a place. None: there are not so many bytes.
fn changed(
    alloc: Global,
    bytes: &[u8],
    at: u64,
    letters: &str,
) -> Result<Option<Vec<u8>>, AllocError> {
    let Some((front, rest)) = bytes.split_at_checked(at as usize) else {
        return Ok(None);
    };
    let Some((_, back)) = rest.split_at_checked(letters.len()) else {
        return Ok(None);
    };
    let mut all = Vec::new(alloc);
    all.extend_from_slice(front)?;
    all.extend_from_slice(letters.as_bytes())?;
    all.extend_from_slice(back)?;
    Ok(Some(all))
}

fn sink_with_fault(alloc: Global, piece: u64, write: u64) -> MemorySink {
    let mut sink = MemorySink::new(alloc, piece.max(1));
    sink.fail_write(write.clamp(1, NEVER));
    sink
}
