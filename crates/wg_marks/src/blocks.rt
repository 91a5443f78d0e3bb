//! The copy blocks, one by one.
ghost use Rattle.std.specs.Prelude.{◌≡◌, ◌≤◌, ◌<◌, ◌++◌, true, length, option_to_list, None, []};
ghost use Rattle.wg_blocks.specs.Canonical.{mask_runs, without_last};
ghost use Rattle.wg_marks.specs.Masks.{mask_bits};

use crate::bits::changes;
use std::marker::Model;

/// The copy blocks that are left, by the bits where they end.
///
/// It is seen as the list of these blocks.
#[derive(Debug, Drop)]
pub struct BlocksLeft {
    // a bit for each block that is left, where it ends
    left: u64,
    // where the block before them ends
    last: u32,
}

impl Model for BlocksLeft {
    ghost use Rattle.std.specs.Prelude.{List, ℕ};
    ghost use Rattle.wg_graph.specs.Ascending.{Ascends};
    ghost use Rattle.wg_marks.specs.Masks.{places, gaps_from};

    ghost Value = { List ℕ };

    ghost view = { λ c. gaps_from c.last (places 64 0 c.left) };

    ghost invariant = { λ c. Ascends c.last (places 64 0 c.left) };
}

impl BlocksLeft {
    /// Before the first block of a mask of so many bits.
    #[inline(always)]
    pub fn of(mask: u64, width: usize) -> BlocksLeft
        requires some { 0 < width }
        requires most { width ≤ 64 }
        ensures blocks { result ≡ without_last (mask_runs true (mask_bits width mask)) }
        ensures few { length result ≤ 64 }
    {
        BlocksLeft {
            left: changes(mask, width),
            last: 0,
        }
    }

    /// The next block, by its own length.
    #[inline(always)]
    pub fn next(&mut self) -> Option<u64>
        ensures split { self.old ≡ option_to_list result ++ self.new }
        ensures end { result ≡ None → self.old ≡ [] }
    {
        if self.left == 0 {
            return None;
        }
        let place = self.left.trailing_zeros();
        let block = place - self.last;
        self.left &= self.left - 1;
        self.last = place;
        Some(u64::from(block))
    }
}
