//! Cases, a row at a time.

use super::bench::Bench;
use super::spelling::{number_and_rest, word_and_rest};
use std::alloc::{AllocError, Global};
use std::{mem, str};

/// How many bytes a call moves if nothing is cut. Cases that say themselves how many move are gone through once,
/// with the others at this number.
pub const WHOLE: u64 = 4096;

// A step that later rows use under this name. A `$` in it stands for the base of their files, and `&` for a text.
#[derive(Drop)]
struct Kept {
    name: String,
    step: String,
}

/// The case that is under way. Its steps up to the first run are remembered, to be done again.
pub struct Cases {
    alloc: Global,
    piece: u64,
    kept: Vec<Kept>,
    name: String,
    begun: String,
    row: String,
    is_left_out: bool,
    case_piece: u64,
    bench: Bench,
    steps: Vec<String>,
    has_run: bool,
}

impl Drop for Cases {
    fn drop(self) {
        let Cases {
            alloc,
            piece,
            kept,
            name,
            begun,
            row,
            is_left_out,
            case_piece,
            bench,
            steps,
            has_run,
        } = self;
    }
}

impl Cases {
    /// Cases in which a call moves at most so many bytes, if they do not say otherwise.
    pub fn new(alloc: Global, piece: u64) -> Cases {
        Cases {
            alloc,
            piece,
            kept: Vec::new(alloc),
            name: String::new(alloc),
            begun: String::new(alloc),
            row: String::new(alloc),
            is_left_out: false,
            case_piece: piece,
            bench: Bench::new(alloc, piece),
            steps: Vec::new(alloc),
            has_run: false,
        }
    }

    /// What to tell of the last row: its case, and how the last run ended.
    pub fn told_of_row(&self) -> Result<String, AllocError> {
        let row = self.row.as_str();
        let name = self.name.as_str();
        let status = self.bench.last().status();
        let out = str::from_utf8(self.bench.last().printed()).unwrap_or("no text");
        let err = str::from_utf8(self.bench.last().reported()).unwrap_or("no text");
        format!(in self.alloc; "{name}: {row}\nstatus {status}, printed:\n{out}reported:\n{err}\n")
    }

    /// Does what the row says that ends in this line, and answers whether it says something that is so. A line that
    /// ends in a backslash goes on in the next.
    pub fn line(&mut self, line: &str) -> Result<bool, AllocError> {
        let line = line.trim_start();
        if let Some(part) = line.strip_suffix('\\') {
            self.begun.push_str(part)?;
            return Ok(true);
        }
        self.begun.push_str(line)?;
        self.row = mem::replace(&mut self.begun, String::new(self.alloc));
        let row = self.row.clone()?;
        self.row(row.as_str())
    }

    fn row(&mut self, row: &str) -> Result<bool, AllocError> {
        let (word, rest) = word_and_rest(row);
        match word {
            "" | "#" => Ok(true),
            "let" => self.keep(rest),
            "case" => self.begin(rest),
            _ => Ok(self.is_left_out || self.act(row)?),
        }
    }

    fn keep(&mut self, rest: &str) -> Result<bool, AllocError> {
        let (name, step) = word_and_rest(rest);
        let kept = Kept {
            name: String::from_str(self.alloc, name)?,
            step: String::from_str(self.alloc, step)?,
        };
        self.kept.push(kept)?;
        Ok(true)
    }

    fn begin(&mut self, name: &str) -> Result<bool, AllocError> {
        self.name = String::from_str(self.alloc, name)?;
        self.is_left_out = false;
        self.restart(self.piece);
        Ok(true)
    }

    // Begins a case in which a call moves at most so many bytes.
    fn restart(&mut self, piece: u64) {
        self.case_piece = piece;
        self.bench = Bench::new(self.alloc, piece);
        self.steps = Vec::new(self.alloc);
        self.has_run = false;
    }

    fn act(&mut self, row: &str) -> Result<bool, AllocError> {
        let (word, rest) = word_and_rest(row);
        match word {
            "use" => self.use_kept(rest),
            _ => self.step(row),
        }
    }

    // Does each step that is kept under a name, up to one that is not so.
    fn use_kept(&mut self, rest: &str) -> Result<bool, AllocError> {
        let steps = self.steps_of(rest)?;
        for step in steps.iter() {
            if !self.step(step.as_str())? {
                self.row = step.clone()?;
                return Ok(false);
            }
        }
        Ok(!steps.is_empty())
    }

    // The steps that are kept under a name, for a base and a text.
    fn steps_of(&self, rest: &str) -> Result<Vec<String>, AllocError> {
        let (name, rest) = word_and_rest(rest);
        let (base, text) = word_and_rest(rest);
        let mut steps = Vec::new(self.alloc);
        for kept in self.kept.iter() {
            if kept.name.as_str() == name {
                let step = kept.step.as_str().replace(self.alloc, '$', base)?;
                steps.push(step.as_str().replace(self.alloc, '&', text)?)?;
            }
        }
        Ok(steps)
    }

    fn step(&mut self, step: &str) -> Result<bool, AllocError> {
        let (word, rest) = word_and_rest(step);
        match word {
            "pieces" => Ok(self.set_pieces(rest)),
            "stands" => self.stands(rest),
            "failing" => self.fail(rest),
            "each" => self.each(rest),
            _ => self.step_of_bench(step),
        }
    }

    fn set_pieces(&mut self, rest: &str) -> bool {
        let Some((piece, _)) = number_and_rest(rest) else {
            return false;
        };
        self.is_left_out = self.piece != WHOLE;
        self.restart(piece);
        true
    }

    fn step_of_bench(&mut self, step: &str) -> Result<bool, AllocError> {
        if !self.has_run {
            self.steps.push(String::from_str(self.alloc, step)?)?;
            self.has_run = is_run(step);
        }
        self.bench.step(step)
    }

    // Whether there are the files that the steps of this name give.
    fn stands(&mut self, rest: &str) -> Result<bool, AllocError> {
        let steps = self.steps_of(rest)?;
        for step in steps.iter() {
            if !self.bench.has(step.as_str())? {
                return Ok(false);
            }
        }
        Ok(!steps.is_empty())
    }

    // Begins anew and does the first run once more, if the call of this kind and number fails.
    fn fail(&mut self, rest: &str) -> Result<bool, AllocError> {
        let (call, number) = word_and_rest(rest);
        match number_and_rest(number) {
            Some((k, _)) => self.run_again(call, k),
            None => Ok(false),
        }
    }

    fn run_again(&mut self, call: &str, k: u64) -> Result<bool, AllocError> {
        let mut bench = Bench::new(self.alloc, self.case_piece);
        let is_call = bench.fail(call, k);
        for step in self.steps.iter() {
            bench.step(step.as_str())?;
        }
        self.bench = bench;
        Ok(is_call && self.has_run)
    }

    // Whether a step is so after each run in which a call of this kind fails, for the numbers of the call from one to
    // another.
    fn each(&mut self, rest: &str) -> Result<bool, AllocError> {
        let (call, rest) = word_and_rest(rest);
        let Some((first, rest)) = number_and_rest(rest) else {
            return Ok(false);
        };
        let (to, rest) = word_and_rest(rest);
        let Some((last, step)) = number_and_rest(rest) else {
            return Ok(false);
        };
        if to != "to" || first == 0 || last < first {
            return Ok(false);
        }
        for before in first - 1..last {
            if !self.is_so_after(call, before, step)? {
                return Ok(false);
            }
        }
        Ok(true)
    }

    // Whether a step is so after a run in which the call fails that comes after so many.
    fn is_so_after(&mut self, call: &str, before: u64, step: &str) -> Result<bool, AllocError> {
        let count = format!(in self.alloc; "{before}")?;
        let step = step.replace(self.alloc, '$', count.as_str())?;
        Ok(self.run_again(call, before.saturating_add(1))? && self.bench.step(step.as_str())?)
    }
}

fn is_run(step: &str) -> bool {
    word_and_rest(step).0 == "run"
}
