// A text of numbers, each on a line of its own.

ghost use Rattle.std.specs.Prelude.{◌≡◌, ◌<◌, ◌≤◌, All, Some, OnOk, IfOk, IfErr, length};
ghost use Rattle.wg_arcs.specs.NumberTexts.{AreListed};
ghost use Rattle.wg_arcs.specs.Numbers.{judged, numbers_on, numbers_of, AreRead, AreAdded, IsRefused};

use crate::words::{entry, sole_number};
use crate::{NumbersError, NumbersFault, NumbersKind};
use std::alloc::Global;
use wg_graph::List;
use wg_num::first_line;

// Adds a number of this line.
fn add(numbers: &mut List, line: u64, number: u64, n: u64, limit: u64) -> Result<(), NumbersError>
    ensures added { OnOk result (AreAdded (judged n limit line (length numbers.old) (Some number)) numbers.old
        numbers.new) }
    ensures few { OnOk result (length numbers.new ≤ n) }
    ensures below { OnOk result (All (λ v. v < limit) numbers.old → All (λ v. v < limit) numbers.new) }
    ensures err { IfErr result (IsRefused (judged n limit line (length numbers.old) (Some number))) }
{
    if number >= limit {
        return Err(NumbersError::Fault(NumbersFault::Line {
            line,
            kind: NumbersKind::Range,
        }));
    }
    if numbers.as_slice().len() as u64 >= n {
        return Err(NumbersError::Fault(NumbersFault::Line {
            line,
            kind: NumbersKind::TooMany,
        }));
    }
    numbers.push(number)?;
    Ok(())
}

// Adds the number of a line, if it has one.
fn read_line(
    numbers: &mut List,
    line: u64,
    text: &[u8],
    n: u64,
    limit: u64,
) -> Result<(), NumbersError>
    ensures added { OnOk result (AreAdded (numbers_on n limit line (length numbers.old) text.now) numbers.old
        numbers.new) }
    ensures few { OnOk result (length numbers.old ≤ n → length numbers.new ≤ n) }
    ensures below { OnOk result (All (λ v. v < limit) numbers.old → All (λ v. v < limit) numbers.new) }
    ensures err { IfErr result (IsRefused (numbers_on n limit line (length numbers.old) text.now)) }
{
    let (first, rest) = match entry(text) {
        Some(words) => words,
        None => return Ok(()),
    };
    match sole_number(first, rest) {
        Some(number) => add(numbers, line, number, n, limit),
        None => Err(NumbersError::Fault(NumbersFault::Line {
            line,
            kind: NumbersKind::Shape,
        })),
    }
}

/// Reads a text of `n` numbers below a limit, or names its first fault. It takes memory as the numbers come, and one
/// pass over the text.
pub fn read_numbers(alloc: Global, bytes: &[u8], n: u64, limit: u64) -> Result<List, NumbersError>
    ensures read { AreRead (numbers_of n limit bytes.now) result }
    ensures listed { AreListed n limit bytes.now result }
    ensures count { IfOk result (λ list. length list ≡ n) }
    ensures below { IfOk result (λ list. All (λ v. v < limit) list) }
{
    let mut numbers = List::new(alloc);
    let mut rest = bytes;
    let mut line = 0;
    'lines: while !rest.is_empty() {
        line += 1;
        let (text, after) = first_line(rest);
        read_line(&mut numbers, line, text, n, limit)?;
        rest = after;
    }
    let found = numbers.as_slice().len() as u64;
    if found < n {
        return Err(NumbersError::Fault(NumbersFault::Count(found)));
    }
    Ok(numbers)
}
