// What copy blocks take.
ghost use Rattle.std.specs.Prelude.{◌≡◌, ℕ, ◌+◌, ◌-◌, ◌<◌, ◌^◌, ◌==◌, if◌then◌else◌, List, Bool, [], ◌∷◌};
ghost use Rattle.wg_params.specs.Codes.{IsCode};
ghost use Rattle.wg_blocks.specs.Canonical.{mask_of, canonical_blocks};
ghost use Rattle.wg_greedy.specs.Fields.{copy_fields};
ghost use Rattle.wg_encoder.specs.Cost.{room_after};
ghost use Rattle.wg_encoder.specs.Dues.{dues_of_blocks, block_dues, IsWithin};

use crate::cost::room_after;
use wg_blocks::MaskRun;
use wg_params::{Code, Params};

/// How many blocks there are so far, and the run that goes on. Without a reference none is written.
#[derive(Clone, Copy)]
pub(crate) struct BlockTally {
    pub is_written: bool,
    pub counts: Code,
    pub code: Code,
    pub count: u64,
    pub run: MaskRun,
}

impl BlockTally {
    pub(crate) fn new(params: &Params, reference: u64) -> BlockTally
        ensures fields { (referenced list : List ℕ)
            → block_dues result (mask_of list referenced) ≡ copy_fields params.now reference referenced list }
        ensures blocks { (referenced list : List ℕ)
            → dues_of_blocks result (canonical_blocks list referenced) ≡ copy_fields params.now reference referenced list }
        ensures within { IsWithin result 0 }
    {
        BlockTally {
            is_written: reference > 0,
            counts: params.block_counts(),
            code: params.blocks(),
            count: 0,
            run: MaskRun::first(),
        }
    }

    /// Goes on to the next member of the referenced list, and answers what is left of the room.
    #[inline(always)]
    pub(crate) fn add(&mut self, room: u64, copied: bool) -> u64
        requires { (i : ℕ) × (i < 2 ^ 62) × IsWithin self.old i }
        ensures fields { (mask : List Bool) → room_after result (block_dues self.new mask)
            ≡ room_after room (block_dues self.old (copied ∷ mask)) }
        ensures within { (i : ℕ) → IsWithin self.old i → IsWithin self.new (i + 1) }
    {
        match self.run.step(copied) {
            Some(block) => self.add_block(room, block),
            None => room,
        }
    }

    /// Adds a block: the first one is stored as it is, later ones less 1.
    #[inline(always)]
    pub(crate) fn add_block(&mut self, room: u64, block: u64) -> u64
        requires few { self.old.count < 2 ^ 62 }
        requires code { IsCode self.old.code }
        ensures fields { (blocks : List ℕ) → room_after result (dues_of_blocks self.new blocks)
            ≡ room_after room (dues_of_blocks self.old (block ∷ blocks)) }
        ensures same { self.new ≡ record self.old { count = self.old.count + 1 } }
    {
        let stored = stored_block(self.count, block);
        self.count += 1;
        if self.is_written {
            return room_after(room, self.code, stored);
        }
        room
    }

    /// What is left of the room if no member comes any more.
    #[inline(always)]
    pub(crate) fn last(&self, room: u64) -> u64
        requires { (i : ℕ) × IsWithin self.now i }
        ensures { result ≡ room_after room (block_dues self.now []) }
    {
        if self.is_written {
            return room_after(room, self.counts, self.count);
        }
        room
    }
}

#[inline(always)]
pub(crate) fn stored_block(count: u64, block: u64) -> u64
    ensures { result ≡ (if count == 0 then block else block - 1) }
{
    if count == 0 {
        block
    } else {
        block.saturating_sub(1)
    }
}
