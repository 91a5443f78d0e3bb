ghost use Rattle.std.specs.Prelude.{◌≡◌, ℕ, ◌+◌, ◌<◌, ◌≤◌, [], ◌∷◌, ◌++◌, length, get_or, OnOk, OnErr, IfSome, IfNone};
ghost use Rattle.wg_offsets.specs.Places.{ArePlaces, last_place, record_length, IsFirstMismatch, AgreeInLengths};
ghost use Rattle.wg_offsets.specs.declared.places.TheConstants.{MOST_PLACE};

use std::alloc::{AllocError, Global};
use std::marker::Model;
use wg_outside::MOST_BYTES;

/// The last offset that a record may begin or end at: the end of the longest graph file, in bits.
pub const MOST_PLACE: u64 = 8 * MOST_BYTES;

/// The offsets of records, in bits, and last the offset after them.
#[derive(Clone, Debug, Drop)]
pub struct Offsets {
    places: Vec<u64>,
}

impl Model for Offsets {
    ghost use Rattle.std.specs.Prelude.{List, ℕ};
    ghost use Rattle.wg_offsets.specs.Places.{ArePlaces};

    ghost Value = { List ℕ };

    ghost view = { λ o. o.places.items };

    ghost invariant = { λ o. ArePlaces o.places.items };
}

impl PartialEq for Offsets {
    ghost use Rattle.std.specs.Prelude.{bytes_eq};
    ghost use Rattle.std.specs.Cmp.{partial_equiv_from_equiv};
    ghost use Rattle.std.specs.Cmp.Lexicographic.{nat_list_eq_equiv};

    ghost eq = { bytes_eq };

    ghost laws = { partial_equiv_from_equiv nat_list_eq_equiv };

    fn eq(&self, other: &Offsets) -> bool {
        self.places == other.places
    }
}

impl Eq for Offsets {
    ghost use Rattle.std.specs.Cmp.Lexicographic.{nat_list_eq_equiv};

    ghost laws = { nat_list_eq_equiv };
}

impl Offsets {
    /// No places, and no memory yet.
    pub fn new(alloc: Global) -> Offsets
        ensures { result ≡ [] }
    {
        Offsets {
            places: Vec::new(alloc),
        }
    }

    /// Adds the next offset, in constant time on average.
    pub fn push(&mut self, offset: u64) -> Result<(), AllocError>
        requires first { self.old ≡ [] → offset ≡ 0 }
        requires later { last_place self.old ≤ offset }
        requires within { offset ≤ MOST_PLACE }
        ensures ok { OnOk result (self.new ≡ self.old ++ offset ∷ []) }
        ensures err { OnErr result (self.new ≡ self.old) }
    {
        self.places.push(offset)?;
        Ok(())
    }

    /// How many places there are: one more than there are records.
    pub fn len(&self) -> u64
        ensures value { result ≡ length self.now }
        ensures places { ArePlaces self.now }
    {
        self.places.len() as u64
    }

    /// The offset of record `x`, or the offset after the last record.
    pub fn place(&self, x: u64) -> u64
        requires { x < length self.now }
        ensures value { result ≡ get_or self.now x 0 }
        ensures within { result ≤ MOST_PLACE }
    {
        self.places[x as usize]
    }

    /// The offset after the last record, or 0 if there are no places.
    pub fn end(&self) -> u64
        ensures { result ≡ last_place self.now }
    {
        match self.places.len() {
            0 => 0,
            count => self.places[count - 1],
        }
    }

    // How many bits record `x` has.
    fn record_length(&self, x: u64) -> u64
        requires { x + 1 < length self.now }
        ensures { result ≡ record_length self.now x }
    {
        self.places[x as usize + 1] - self.places[x as usize]
    }

    /// The first page whose record has another length in the others than here, with its length here and its length
    /// there, in bits. It takes one pass.
    pub fn first_mismatch(&self, other: &Offsets) -> Option<(u64, u64, u64)>
        requires { length self.now ≡ length other.now }
        ensures none { IfNone result (AgreeInLengths self.now other.now) }
        ensures some { IfSome result (λ m. IsFirstMismatch self.now other.now m.0 m.1 m.2) }
    {
        for page in 0..self.len().saturating_sub(1) {
            let here = self.record_length(page);
            let there = other.record_length(page);
            if here != there {
                return Some((page, here, there));
            }
        }
        None
    }
}
