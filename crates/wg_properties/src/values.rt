ghost use Rattle.std.specs.Prelude.{◌≡◌, ◌≢◌, ◌<◌, ◌∷◌, [], length, Some, None, IfOk, IfErr, OnOk, option_copied, option_map};
ghost use Rattle.std.specs.List.{last_or};
ghost use Rattle.wg_params.specs.declared.key.Key.{Key};
ghost use Rattle.wg_num.specs.Lines.{lines_of};
ghost use Rattle.wg_properties.specs.Pairs.{first_continued, pairs_of, values_of, value_of};
ghost use Rattle.wg_properties.specs.Values.{place_of, value_at};
ghost use Rattle.wg_properties.specs.Words.{name_of};
ghost use Rattle.wg_properties.specs.declared.fault.PropFault.TheVariants as fault;

use crate::PropFault;
use crate::keys::key_of;
use crate::pairs::{is_continued, is_skipped, key_and_value};
use std::marker::Model;
use wg_num::{first_line, without_blanks_before};
use wg_params::Key;

/// The value of each key in a properties text, if it has one.
#[derive(Drop)]
pub struct Values<'a> {
    values: [Option<&'a [u8]>; 10],
}

impl<'a> Model for Values<'a> {
    ghost use Rattle.std.specs.Prelude.{◌≡◌, ℕ, List, Option, map, option_copied, length};

    ghost Value = { List (Option (List ℕ)) };

    ghost view = { λ v. map option_copied v.values };

    ghost invariant = { λ v. length v.values ≡ 10 };
}

fn place_of(key: Key) -> usize
    ensures place { result ≡ place_of key }
    ensures within { result < 10 }
{
    match key {
        Key::GraphClass => 0,
        Key::Version => 1,
        Key::Endianness => 2,
        Key::Nodes => 3,
        Key::Arcs => 4,
        Key::WindowSize => 5,
        Key::MaxRefCount => 6,
        Key::MinIntervalLength => 7,
        Key::ZetaK => 8,
        Key::CompressionFlags => 9,
    }
}

impl<'a> Values<'a> {
    fn new() -> Values<'a>
        ensures { (k : Key) → value_at result k ≡ None }
    {
        Values { values: [None; 10] }
    }

    /// The last value of a key.
    pub fn get(&self, key: Key) -> Option<&'a [u8]>
        ensures { option_copied result ≡ value_at self.now key }
    {
        self.values[place_of(key)]
    }

    fn set(&mut self, key: Key, value: &'a [u8])
        ensures set { value_at self.new key ≡ Some value.now }
        ensures others { (k : Key) → k ≢ key → value_at self.new k ≡ value_at self.old k }
    {
        self.values[place_of(key)] = Some(value);
    }

    // Keeps the value that a line has for its key.
    fn read_line(&mut self, line: &'a [u8])
        ensures { (k : Key) → value_at self.new k
            ≡ last_or (value_at self.old k) (values_of (name_of k) (pairs_of (line.now ∷ []))) }
    {
        let pair = without_blanks_before(line);
        if is_skipped(pair) {
            return;
        }
        let (name, value) = key_and_value(pair);
        if let Some(key) = key_of(name) {
            self.set(key, value);
        }
    }

    /// Reads all lines in one pass; the error names the first that would go on in the next.
    pub fn read(text: &'a [u8]) -> Result<Values<'a>, PropFault>
        ensures values { IfOk result (λ v. (k : Key)
            → value_at v k ≡ value_of (name_of k) (pairs_of (lines_of text.now))) }
        ensures ok { OnOk result (first_continued (lines_of text.now) ≡ None) }
        ensures line { IfErr result (λ e. option_map fault.Line (first_continued (lines_of text.now)) ≡ Some e) }
    {
        let mut values = Values::new();
        let mut rest = text;
        let mut number: u64 = 0;
        while !rest.is_empty() {
            let (line, after) = first_line(rest);
            number += 1;
            if is_continued(line) {
                return Err(PropFault::Line(number));
            }
            values.read_line(line);
            rest = after;
        }
        Ok(values)
    }
}
