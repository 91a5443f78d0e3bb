// Words of the five codes, and numbers with their folds.

use wg_params::Code;

/// The word of a value in a code.
#[derive(Clone, Copy, Debug)]
pub struct Vector {
    /// The code.
    pub code: Code,
    /// The value.
    pub value: u64,
    /// Its word, as a text of ones and zeros.
    pub word: &'static str,
}

/// The shortest bits that no word of a code begins with, and no end cuts: with one bit less there would still be one.
#[derive(Clone, Copy, Debug)]
pub struct NoWord {
    /// The code.
    pub code: Code,
    /// The bits, as a text of ones and zeros.
    pub bits: &'static str,
}

/// A whole number, and the value that it folds to.
#[derive(Clone, Copy, Debug)]
pub struct Folded {
    /// The number.
    pub number: i64,
    /// Its value.
    pub value: u64,
}

/// The values 0 to 3, 7, 8, 15 and 63 in each code, zeta with k = 3, and 0 to 3 in zeta with k = 2.
pub const VECTORS: [Vector; 44] = [
    Vector {
        code: Code::Unary,
        value: 0,
        word: "1",
    },
    Vector {
        code: Code::Unary,
        value: 1,
        word: "01",
    },
    Vector {
        code: Code::Unary,
        value: 2,
        word: "001",
    },
    Vector {
        code: Code::Unary,
        value: 3,
        word: "0001",
    },
    Vector {
        code: Code::Unary,
        value: 7,
        word: "00000001",
    },
    Vector {
        code: Code::Unary,
        value: 8,
        word: "000000001",
    },
    Vector {
        code: Code::Unary,
        value: 15,
        word: "0000000000000001",
    },
    Vector {
        code: Code::Unary,
        value: 63,
        word: "0000000000000000000000000000000000000000000000000000000000000001",
    },
    Vector {
        code: Code::Gamma,
        value: 0,
        word: "1",
    },
    Vector {
        code: Code::Gamma,
        value: 1,
        word: "010",
    },
    Vector {
        code: Code::Gamma,
        value: 2,
        word: "011",
    },
    Vector {
        code: Code::Gamma,
        value: 3,
        word: "00100",
    },
    Vector {
        code: Code::Gamma,
        value: 7,
        word: "0001000",
    },
    Vector {
        code: Code::Gamma,
        value: 8,
        word: "0001001",
    },
    Vector {
        code: Code::Gamma,
        value: 15,
        word: "000010000",
    },
    Vector {
        code: Code::Gamma,
        value: 63,
        word: "0000001000000",
    },
    Vector {
        code: Code::Delta,
        value: 0,
        word: "1",
    },
    Vector {
        code: Code::Delta,
        value: 1,
        word: "0100",
    },
    Vector {
        code: Code::Delta,
        value: 2,
        word: "0101",
    },
    Vector {
        code: Code::Delta,
        value: 3,
        word: "01100",
    },
    Vector {
        code: Code::Delta,
        value: 7,
        word: "00100000",
    },
    Vector {
        code: Code::Delta,
        value: 8,
        word: "00100001",
    },
    Vector {
        code: Code::Delta,
        value: 15,
        word: "001010000",
    },
    Vector {
        code: Code::Delta,
        value: 63,
        word: "00111000000",
    },
    Vector {
        code: Code::Zeta(3),
        value: 0,
        word: "100",
    },
    Vector {
        code: Code::Zeta(3),
        value: 1,
        word: "1010",
    },
    Vector {
        code: Code::Zeta(3),
        value: 2,
        word: "1011",
    },
    Vector {
        code: Code::Zeta(3),
        value: 3,
        word: "1100",
    },
    Vector {
        code: Code::Zeta(3),
        value: 7,
        word: "0100000",
    },
    Vector {
        code: Code::Zeta(3),
        value: 8,
        word: "0100001",
    },
    Vector {
        code: Code::Zeta(3),
        value: 15,
        word: "01010000",
    },
    Vector {
        code: Code::Zeta(3),
        value: 63,
        word: "00100000000",
    },
    Vector {
        code: Code::Nibble,
        value: 0,
        word: "1000",
    },
    Vector {
        code: Code::Nibble,
        value: 1,
        word: "1001",
    },
    Vector {
        code: Code::Nibble,
        value: 2,
        word: "1010",
    },
    Vector {
        code: Code::Nibble,
        value: 3,
        word: "1011",
    },
    Vector {
        code: Code::Nibble,
        value: 7,
        word: "1111",
    },
    Vector {
        code: Code::Nibble,
        value: 8,
        word: "00011000",
    },
    Vector {
        code: Code::Nibble,
        value: 15,
        word: "00011111",
    },
    Vector {
        code: Code::Nibble,
        value: 63,
        word: "01111111",
    },
    Vector {
        code: Code::Zeta(2),
        value: 0,
        word: "10",
    },
    Vector {
        code: Code::Zeta(2),
        value: 1,
        word: "110",
    },
    Vector {
        code: Code::Zeta(2),
        value: 2,
        word: "111",
    },
    Vector {
        code: Code::Zeta(2),
        value: 3,
        word: "01000",
    },
];

/// Where a code has no word: after 63 zeros of gamma, 6 of delta, 63 / k of zeta; after a leading zero digit of nibble,
/// and where its 21st digit is not marked as the last. Unary has no row, since it takes 2^32 zeros to say so.
pub const NO_WORDS: [NoWord; 8] = [
    NoWord {
        code: Code::Gamma,
        bits: "000000000000000000000000000000000000000000000000000000000000000",
    },
    NoWord {
        code: Code::Delta,
        bits: "000000",
    },
    NoWord {
        code: Code::Zeta(1),
        bits: "000000000000000000000000000000000000000000000000000000000000000",
    },
    NoWord {
        code: Code::Zeta(2),
        bits: "0000000000000000000000000000000",
    },
    NoWord {
        code: Code::Zeta(3),
        bits: "000000000000000000000",
    },
    NoWord {
        code: Code::Zeta(31),
        bits: "00",
    },
    NoWord {
        code: Code::Nibble,
        bits: "0000",
    },
    NoWord {
        code: Code::Nibble,
        bits: "000100000000000000000000000000000000000000000000000000000000000000000000000000000",
    },
];

/// The numbers around 0, and the least that there is.
pub const FOLDS: [Folded; 6] = [
    Folded {
        number: 0,
        value: 0,
    },
    Folded {
        number: -1,
        value: 1,
    },
    Folded {
        number: 1,
        value: 2,
    },
    Folded {
        number: -2,
        value: 3,
    },
    Folded {
        number: 2,
        value: 4,
    },
    Folded {
        number: i64::MIN,
        value: u64::MAX,
    },
];
