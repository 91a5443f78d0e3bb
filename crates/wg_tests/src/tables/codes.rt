// Words of the five codes, read and written, and numbers of either sign.
ghost use Rattle.std.specs.Prelude.{IfSome};
ghost use Rattle.wg_params.specs.Codes.{IsCode};

use std::alloc::Global;
use std::process::Abort;
use std::test::Fail;
use wg_bits::{Bits, Cursor, Writer};
use wg_codes::{Read, fold, holds, length, read, unfold, write};
use wg_io::{Depot, SteadyDepot};
use wg_params::{Code, MOST_ZETA};
use wg_vectors::{FOLDS, NO_WORDS, VECTORS, Vector, bytes_of};

// The bits of a text, of at most 128, behind zeros.
fn packed(text: &[u8]) -> [u8; 16] {
    let mut bytes = [0; 16];
    for (i, bit) in text.iter().rev().enumerate() {
        if i < 128 && *bit == b'1' {
            bytes[15 - i / 8] |= 1 << (i % 8);
        }
    }
    bytes
}

// The code, if it is one that the calls take.
fn tried(code: Code) -> Option<Code>
    ensures { IfSome result (λ code. IsCode code) }
{
    match code {
        Code::Zeta(k) => {
            if k == 0 || k > MOST_ZETA {
                return None;
            }
            Some(Code::Zeta(k))
        }
        code => Some(code),
    }
}

// What stands at the bits of a text, after which there are none, and how far the cursor goes.
fn found(code: Code, text: &[u8]) -> Option<(Read, u64)> {
    let code = tried(code)?;
    if text.len() > 128 {
        return None;
    }
    let before = (128 - text.len()) as u64;
    let bytes = packed(text);
    let mut cursor = Cursor::new(Bits::of(&bytes), 0);
    if cursor.remaining() < before {
        return None;
    }
    cursor.advance(before);
    let result = read(code, &mut cursor);
    Some((result, cursor.at().saturating_sub(before)))
}

// All bits of the text are needed, and then this stands there.
fn stands(rt: &impl Abort, code: Code, text: &str, read: Read, length: u64) {
    let bits = text.as_bytes();
    assert!(rt; found(code, bits) == Some((read, length)), "{text}");
    for count in 0..bits.len() {
        assert!(rt;
            found(code, &bits[..count]) == Some((Read::Cut, 0)),
            "{text}"
        );
    }
}

// Writes the word of a value into a file, and tells how many bits it has.
fn put_word<D: Depot>(rt: &impl Abort, code: Code, value: u64, depot: &mut D) -> Result<u64, Fail> {
    let Some(code) = tried(code) else {
        return Err("no code".into());
    };
    assert!(rt; holds(code, value));
    let mut writer = Writer::new();
    write(code, value, &mut writer, depot, "word")?;
    writer.finish(depot, "word")?;
    Ok(length(code, value))
}

// The word of the value is written, and zeros after it that fill the last byte.
fn is_written(rt: &impl Abort, alloc: Global, vector: &Vector) -> Result<(), Fail> {
    let word = vector.word;
    let mut depot = SteadyDepot::new(alloc, 3);
    let bits = put_word(rt, vector.code, vector.value, &mut depot)?;
    assert!(rt; bits == word.len() as u64, "{word}");
    let bytes = bytes_of(alloc, word)?;
    assert!(rt; depot.file("word") == Some(bytes.as_slice()), "{word}");
    Ok(())
}

#[test]
fn each_word_is_written(rt: HostRuntime) -> Result<(), Fail> {
    for vector in &VECTORS {
        is_written(&rt, rt.alloc(), vector)?;
    }
    Ok(())
}

#[test]
fn words_of_each_code(rt: HostRuntime) {
    for vector in &VECTORS {
        let word = vector.word;
        let read = Read::Value(vector.value);
        stands(&rt, vector.code, word, read, word.len() as u64);
    }
    for row in &NO_WORDS {
        stands(&rt, row.code, row.bits, Read::NoWord, 0);
    }
}

#[test]
fn numbers_of_either_sign(rt: HostRuntime) {
    for row in &FOLDS {
        assert!(rt; fold(row.number) == row.value);
        assert!(rt; unfold(row.value) == row.number);
    }
}
