//! How a row spells bytes and numbers.

use std::alloc::{AllocError, Global};

/// The bytes of a spelled text: `|` is the end of a line, `%` and two digits of base 16 are the byte of this number,
/// and each other letter stands for itself. None: a `%` is not followed so.
pub fn text_of(alloc: Global, spelled: &str) -> Result<Option<Vec<u8>>, AllocError> {
    let mut bytes = Vec::new(alloc);
    for (place, part) in spelled.split('%').enumerate() {
        if place == 0 {
            push_plain(&mut bytes, part)?;
        } else if !push_coded(&mut bytes, part)? {
            return Ok(None);
        }
    }
    Ok(Some(bytes))
}

fn push_plain(bytes: &mut Vec<u8>, part: &str) -> Result<(), AllocError> {
    for letter in part.bytes() {
        let byte = if letter == b'|' { b'\n' } else { letter };
        bytes.push(byte)?;
    }
    Ok(())
}

// Whether the part begins with the number of a byte.
fn push_coded(bytes: &mut Vec<u8>, part: &str) -> Result<bool, AllocError> {
    let Some((number, plain)) = part.split_at_checked(2) else {
        return Ok(false);
    };
    let Ok(byte) = u8::from_str_radix(number, 16) else {
        return Ok(false);
    };
    bytes.push(byte)?;
    push_plain(bytes, plain)?;
    Ok(true)
}

/// The bytes of spelled bits: ones and zeros, which blanks may part, and zeros up to a whole byte. After each `*`
/// stands how often the bits behind it come. None: something else is there.
pub fn bits_of(alloc: Global, spelled: &str) -> Result<Option<Vec<u8>>, AllocError> {
    let mut bits = String::new(alloc);
    for (place, part) in spelled.split('*').enumerate() {
        if place == 0 {
            bits.push_str(part)?;
        } else if !push_repeated(&mut bits, part)? {
            return Ok(None);
        }
    }
    packed(alloc, bits.as_str())
}

// Whether the part begins with a number.
fn push_repeated(bits: &mut String, part: &str) -> Result<bool, AllocError> {
    let Some((count, repeated)) = number_and_rest(part) else {
        return Ok(false);
    };
    for _ in 0..count {
        bits.push_str(repeated)?;
    }
    Ok(true)
}

fn packed(alloc: Global, bits: &str) -> Result<Option<Vec<u8>>, AllocError> {
    let mut bytes = Vec::new(alloc);
    let mut byte = 0;
    let mut weight = 128;
    for letter in bits.bytes() {
        match letter {
            b' ' => continue,
            b'0' => {}
            b'1' => byte |= weight,
            _ => return Ok(None),
        }
        weight /= 2;
        if weight == 0 {
            bytes.push(byte)?;
            byte = 0;
            weight = 128;
        }
    }
    if weight < 128 {
        bytes.push(byte)?;
    }
    Ok(Some(bytes))
}

/// The arc list of so many pages with so many successors each, which lie so far apart and begin at the page's number
/// modulo the last number. None: there are not four numbers.
pub fn lists_of(alloc: Global, spelled: &str) -> Result<Option<Vec<u8>>, AllocError> {
    let Some((pages, rest)) = number_and_rest(spelled) else {
        return Ok(None);
    };
    let Some((count, rest)) = number_and_rest(rest) else {
        return Ok(None);
    };
    let Some((apart, rest)) = number_and_rest(rest) else {
        return Ok(None);
    };
    let Some((turn, _)) = number_and_rest(rest) else {
        return Ok(None);
    };
    let mut text = String::new(alloc);
    for page in 0..pages {
        push_list(alloc, &mut text, page, count, apart, page % turn.max(1))?;
    }
    Ok(Some(text.into_bytes()))
}

// A line for each arc of a page.
fn push_list(
    alloc: Global,
    text: &mut String,
    page: u64,
    count: u64,
    apart: u64,
    first: u64,
) -> Result<(), AllocError> {
    for k in 0..count {
        let successor = apart.saturating_mul(k).saturating_add(first);
        text.push_str(format!(in alloc; "{page} {successor}\n")?.as_str())?;
    }
    Ok(())
}

/// A line's first word, and what follows the blank after it.
pub fn word_and_rest(line: &str) -> (&str, &str) {
    line.split_once(' ').unwrap_or((line, ""))
}

/// The number that a line begins with, and what follows the blank after it.
pub fn number_and_rest(line: &str) -> Option<(u64, &str)> {
    let (word, rest) = word_and_rest(line);
    let number = word.parse::<u64>().ok()?;
    Some((number, rest))
}
