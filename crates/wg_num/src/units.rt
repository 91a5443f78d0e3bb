ghost use Rattle.std.specs.Prelude.{◌≡◌, ℕ, ◌≤◌, IfSome, Some, ◌++◌, length, take, drop};
ghost use Rattle.std.specs.Option.{SomeIff};
ghost use Rattle.std.specs.Str.Parse.{AllDigits};
ghost use Rattle.wg_num.specs.declared.units.TheConstants.{UNITS};
ghost use Rattle.wg_num.specs.Units.{last_digits, text_of_units, value_of_units, units_of};

use crate::decimal::value_of;
use std::marker::Model;

/// So many units of 10^-24 make 1.
pub const UNITS: u128 = 1_000_000_000_000_000_000_000_000;

// The twelve digits of each half of the 24 write less than this.
const HALF: u64 = 1_000_000_000_000;

/// The text of a part of 1 in units of 10^-24: `0` or `1`, a point, 24 digits. It holds its 26 bytes itself.
#[derive(Clone, Debug, Drop)]
pub struct UnitsText {
    bytes: [u8; 26],
}

impl Model for UnitsText {
    ghost use Rattle.std.specs.Prelude.{List, ℕ};

    ghost Value = { List ℕ };

    ghost view = { λ t. t.bytes };
}

impl UnitsText {
    /// The 26 bytes.
    pub fn as_slice(&self) -> &[u8]
        ensures { result.now ≡ self.now }
    {
        self.bytes.as_slice()
    }
}

// Writes the last digits of a number, as many as there is room for.
#[inline(always)]
fn write_digits(value: u64, to: &mut [u8])
    ensures { to.new ≡ last_digits (length to.old) value }
{
    let mut rest = value;
    for index in (0..to.len()).rev() {
        to[index] = b'0' + (rest % 10) as u8;
        rest /= 10;
    }
}

/// The text of so many units of 10^-24. Another number of units has another text.
pub fn units_text(value: u128) -> UnitsText
    requires { value ≤ UNITS }
    ensures text { result ≡ text_of_units value }
    ensures exact { (other : ℕ) → other ≤ UNITS → result ≡ text_of_units other → other ≡ value }
{
    let high = (value / u128::from(HALF)) as u64;
    let low = (value % u128::from(HALF)) as u64;
    let mut bytes = [b'.'; 26];
    bytes[0] = b'0' + (high / HALF) as u8;
    write_digits(low, &mut bytes[14..]);
    write_digits(high, &mut bytes[2..14]);
    UnitsText { bytes }
}

// What the first byte and those after the second write, if they are digits.
#[inline(always)]
fn digits_of(text: &[u8]) -> Option<u128>
    requires { length text.now ≡ 26 }
    ensures { SomeIff result (AllDigits 10 (take 1 text.now ++ drop 2 text.now)) (value_of_units text.now) }
{
    let whole = value_of(&text[..1])?;
    let high = value_of(&text[2..14])?;
    let low = value_of(&text[14..])?;
    Some(u128::from(whole * HALF + high) * u128::from(HALF) + u128::from(low))
}

/// The units of 10^-24, at most 1 whole, whose text this is, if it is one.
pub fn read_units(text: &[u8]) -> Option<u128>
    ensures value { result ≡ units_of text.now }
    ensures read { IfSome result (λ v. text.now ≡ text_of_units v) }
    ensures within { IfSome result (λ v. v ≤ UNITS) }
    ensures exact { (v : ℕ) → v ≤ UNITS → text.now ≡ text_of_units v → result ≡ Some v }
{
    if text.len() != 26 {
        return None;
    }
    if text[1] != b'.' {
        return None;
    }
    let value = digits_of(text)?;
    if value > UNITS {
        return None;
    }
    Some(value)
}
