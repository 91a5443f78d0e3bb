//! Marks for the numbers of a list.
ghost use Rattle.std.specs.Prelude.{◌≡◌, ◌%◌, ◌<◌, ◌≤◌, true, length, get_or};
ghost use Rattle.wg_graph.specs.Numbers.{is_in};
ghost use Rattle.wg_blocks.specs.Canonical.{mask_of};
ghost use Rattle.wg_marks.specs.Common.{IsShort};
ghost use Rattle.wg_marks.specs.Masks.{mask_bits};
ghost use Rattle.wg_marks.specs.Marked.{IsMarked};

const SLOTS: usize = 4096;

// a set of places is one word
const MOST: usize = 64;

/// A table of the places of a list's numbers, by the low bits of the numbers.
#[derive(Debug, Drop)]
pub struct Marks {
    places: [u8; SLOTS],
}

// The slot of a number.
#[inline(always)]
fn slot(number: u64) -> usize
    ensures { result ≡ number % 4096 }
{
    (number % 4096) as usize
}

// Whether a list has 1 to 64 numbers.
#[inline(always)]
pub(crate) fn is_short(list: &[u64]) -> bool
    ensures { result ≡ true → IsShort list.now }
{
    !list.is_empty() && list.len() <= MOST
}

impl Marks {
    /// No list is marked.
    pub fn new() -> Marks {
        Marks { places: [0; SLOTS] }
    }

    /// Marks the numbers of a list, if they are 1 to 64. What was marked before needs no clearing.
    pub fn mark(&mut self, list: &[u64]) {
        if !is_short(list) {
            return;
        }
        let mut place = 0;
        while place < list.len() {
            self.places[slot(list[place])] = place as u8;
            place += 1;
        }
    }

    // Whether each number of the list has a slot of its own.
    pub(crate) fn has(&self, list: &[u64]) -> bool
        ensures { result ≡ true → IsMarked self.now.places list.now }
    {
        let mut all = true;
        for (i, number) in list.iter().enumerate() {
            all &= self.places[slot(*number)] as usize == i;
        }
        all
    }

    // Where the number stands in the list, if it does: else some place, and false.
    #[inline(always)]
    fn find(&self, list: &[u64], number: u64) -> (usize, bool)
        requires some { 0 < length list.now }
        requires marked { IsMarked self.now.places list.now }
        ensures within { result.0 < length list.now }
        ensures found { result.1 ≡ is_in number list.now }
        ensures there { result.1 ≡ true → get_or list.now result.0 0 ≡ number }
    {
        let place = (self.places[slot(number)] as usize).min(list.len() - 1);
        (place, list[place] == number)
    }

    // Which members of the referenced list stand in the list, and which numbers of the list stand in the other.
    #[inline(always)]
    pub(crate) fn members(&self, list: &[u64], referenced: &[u64]) -> (u64, u64)
        requires some { 0 < length list.now }
        requires short { length list.now ≤ 64 }
        requires few { length referenced.now ≤ 64 }
        requires marked { IsMarked self.now.places list.now }
        ensures theirs { mask_bits (length referenced.now) result.0 ≡ mask_of list.now referenced.now }
        ensures ours { mask_bits (length list.now) result.1 ≡ mask_of referenced.now list.now }
    {
        let mut theirs = 0;
        let mut ours = 0;
        let mut left = referenced.len();
        while left > 0 {
            left -= 1;
            let (place, found) = self.find(list, referenced[left]);
            theirs = theirs << 1 | found as u64;
            ours |= (found as u64) << place;
        }
        (theirs, ours)
    }
}
