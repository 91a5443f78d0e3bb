//! How a run of the program ends, and what it tells.

use super::spelling::{number_and_rest, text_of};
use crate::run;
use std::alloc::{AllocError, Global};
use wg_io::MemorySink;
use wg_outside::Depot;
use wg_words::Words;

/// The exit status of a run, and what went to its two outputs.
pub struct Ending {
    status: u8,
    out: MemorySink,
    err: MemorySink,
}

impl Drop for Ending {
    fn drop(self) {
        let Ending { status, out, err } = self;
    }
}

impl Ending {
    /// Of a run over a depot and these outputs.
    pub fn of<D: Depot>(
        alloc: Global,
        words: &Words,
        depot: &mut D,
        mut out: MemorySink,
        mut err: MemorySink,
    ) -> Ending {
        let status = run(alloc, words, depot, &mut out, &mut err).code();
        Ending { status, out, err }
    }

    /// Of no run.
    pub fn none(alloc: Global) -> Ending {
        Ending {
            status: 255,
            out: MemorySink::new(alloc, 1),
            err: MemorySink::new(alloc, 1),
        }
    }

    pub fn status(&self) -> u8 {
        self.status
    }

    /// What was printed.
    pub fn printed(&self) -> &[u8] {
        self.out.bytes()
    }

    /// What was reported.
    pub fn reported(&self) -> &[u8] {
        self.err.bytes()
    }

    /// Whether it is as a step says.
    pub fn is_so(&self, alloc: Global, word: &str, rest: &str) -> Result<bool, AllocError> {
        match word {
            "prints" => Ok(self.is_done() && is_text(alloc, rest, self.printed())?),
            "begins" => Ok(self.is_done() && begins(alloc, rest, self.printed())?),
            "refuses" => self.refuses(alloc, rest),
            "status" => Ok(rest.parse::<u8>().ok() == Some(self.status)),
            _ => self.has_told(alloc, word, rest),
        }
    }

    fn has_told(&self, alloc: Global, word: &str, rest: &str) -> Result<bool, AllocError> {
        match word {
            "reports" => is_text(alloc, rest, self.reported()),
            "prints-only" => is_part(alloc, rest, self.printed()),
            "reports-only" => is_part(alloc, rest, self.reported()),
            _ => Ok(false),
        }
    }

    /// Whether the status is 0 and nothing was reported.
    pub fn is_done(&self) -> bool {
        self.status == 0 && self.reported().is_empty()
    }

    // Whether it has this status and report, and nothing was printed.
    fn refuses(&self, alloc: Global, rest: &str) -> Result<bool, AllocError> {
        let Some((status, report)) = number_and_rest(rest) else {
            return Ok(false);
        };
        let is_alike = u64::from(self.status) == status && self.printed().is_empty();
        Ok(is_alike && is_text(alloc, report, self.reported())?)
    }
}

/// The words of a line, parted by blanks; an empty line has none, and `''` is the empty word.
pub fn words_of(alloc: Global, line: &str) -> Result<Words, AllocError> {
    let mut words = Words::new(alloc);
    for word in line.split(' ') {
        match word {
            "" => {}
            "''" => words.push("")?,
            _ => words.push(word)?,
        }
    }
    Ok(words)
}

/// Whether these bytes are spelled so.
pub fn is_text(alloc: Global, spelled: &str, found: &[u8]) -> Result<bool, AllocError> {
    match text_of(alloc, spelled)? {
        Some(wanted) => Ok(wanted.as_slice() == found),
        None => Ok(false),
    }
}

// Whether the bytes begin so.
fn begins(alloc: Global, spelled: &str, found: &[u8]) -> Result<bool, AllocError> {
    match text_of(alloc, spelled)? {
        Some(wanted) => Ok(found.starts_with(wanted.as_slice())),
        None => Ok(false),
    }
}

// Whether the bytes are so many of the first that are spelled.
fn is_part(alloc: Global, rest: &str, found: &[u8]) -> Result<bool, AllocError> {
    let Some((count, spelled)) = number_and_rest(rest) else {
        return Ok(false);
    };
    match text_of(alloc, spelled)? {
        Some(whole) => Ok(found.len() as u64 == count && whole.starts_with(found)),
        None => Ok(false),
    }
}
