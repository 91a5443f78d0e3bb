ghost use Rattle.std.specs.Prelude.{◌≡◌, ◌+◌, ◌≤◌, ◌++◌, [], length, decimal};

use arrayvec::ArrayVec;
use std::marker::Model;
use wg_num::decimal_into;

/// The most bytes of a text.
pub const MOST_TEXT: usize = 192;

/// A short text, built from the front in a buffer of its own.
#[derive(Debug, Drop)]
pub struct Text {
    bytes: ArrayVec<u8, MOST_TEXT>,
}

impl Model for Text {
    ghost use Rattle.std.specs.Prelude.{List, ℕ};

    ghost Value = { List ℕ };

    ghost view = { λ a. a.bytes.items };
}

impl Text {
    pub fn new() -> Text
        ensures { result ≡ [] }
    {
        Text {
            bytes: ArrayVec::new(),
        }
    }

    /// The text with a piece more.
    pub fn with(mut self, piece: &str) -> Text
        requires { length self + length piece.now ≤ MOST_TEXT }
        ensures text { result ≡ self ++ piece.now }
        ensures length { length result ≡ length self + length piece.now }
    {
        let _ = self.bytes.try_extend_from_slice(piece.as_bytes());
        self
    }

    /// The text with some bytes more.
    pub fn with_bytes(mut self, piece: &[u8]) -> Text
        requires { length self + length piece.now ≤ MOST_TEXT }
        ensures text { result ≡ self ++ piece.now }
        ensures length { length result ≡ length self + length piece.now }
    {
        let _ = self.bytes.try_extend_from_slice(piece);
        self
    }

    /// The text with a number more.
    pub fn with_number(mut self, value: u64) -> Text
        requires { length self + 20 ≤ MOST_TEXT }
        ensures text { result ≡ self ++ decimal value }
        ensures length { length result ≤ length self + 20 }
    {
        let mut digits = [0; 20];
        let count = decimal_into(value, &mut digits);
        let _ = self.bytes.try_extend_from_slice(&digits[..count]);
        self
    }

    pub fn as_bytes(&self) -> &[u8]
        ensures { result.now ≡ self.now }
    {
        self.bytes.as_slice()
    }
}
