// What a list takes by a reference, if it is known what it has in common with the list that is referred to.
ghost use Rattle.std.specs.Prelude.{◌≡◌, ℕ, ◌<◌, ◌≤◌, ◌^◌, ◌++◌, List};
ghost use Rattle.wg_params.specs.Codes.{IsCode};
ghost use Rattle.wg_graph.specs.Ascending.{Ascends, Below};
ghost use Rattle.wg_blocks.specs.Canonical.{mask_of};
ghost use Rattle.wg_marks.specs.Masks.{mask_bits};
ghost use Rattle.wg_marks.specs.Spans.{IsWithoutRows};
ghost use Rattle.wg_marks.specs.Common.{IsCommon};
ghost use Rattle.wg_greedy.specs.Fields.{extras, copy_fields, extra_fields};
ghost use Rattle.wg_encoder.specs.Cost.{room_after};
ghost use Rattle.wg_encoder.specs.Dues.{residual_dues};

use crate::blocks::BlockTally;
use crate::cost::room_after;
use crate::extras::ExtraTally;
use crate::residuals::ResidualTally;
use wg_marks::{BlocksLeft, Common, Extras};
use wg_params::{Code, Params};

// By the copy blocks of a mask of so many bits.
#[inline(always)]
fn room_after_blocks(params: &Params, reference: u64, width: usize, mask: u64, room: u64) -> u64
    requires some { 0 < width }
    requires most { width ≤ 64 }
    ensures { (list referenced : List ℕ) → mask_bits width mask ≡ mask_of list referenced
        → result ≡ room_after room (copy_fields params.now reference referenced list) }
{
    let mut tally = BlockTally::new(params, reference);
    let mut blocks = BlocksLeft::of(mask, width);
    let mut room = room;
    while let Some(block) = blocks.next() {
        room = tally.add_block(room, block);
        if room == 0 {
            return 0;
        }
    }
    tally.last(room)
}

// By extras, some of which may be intervals.
#[inline(always)]
fn room_after_runs(params: &Params, page: u64, extras: Extras<'_>, room: u64) -> u64
    requires page { page < 2 ^ 62 }
    requires up { Ascends 0 extras }
    requires low { Below (2 ^ 62) extras }
    ensures { result ≡ room_after room (extra_fields params.now page extras.entry) }
{
    let mut tally = ExtraTally::new(params, page);
    let mut extras = extras;
    let mut room = room;
    while let Some(number) = extras.next() {
        room = tally.add(room, number);
        if room == 0 {
            return 0;
        }
    }
    tally.last(room)
}

// By residuals that come after these.
#[inline(always)]
fn room_after_rest(tally: ResidualTally, extras: Extras<'_>, room: u64) -> u64
    requires page { tally.page < 2 ^ 62 }
    requires code { IsCode tally.code }
    requires low { Below (2 ^ 62) extras }
    ensures { result ≡ room_after room (residual_dues tally extras.entry) }
{
    let mut tally = tally;
    let mut extras = extras;
    let mut room = room;
    while let Some(number) = extras.next() {
        room = tally.add(room, number);
        if room == 0 {
            return 0;
        }
    }
    room
}

// By extras without an interval: they are all residuals.
#[inline(always)]
fn room_after_residuals(params: &Params, page: u64, extras: Extras<'_>, room: u64) -> u64
    requires page { page < 2 ^ 62 }
    requires low { Below (2 ^ 62) extras }
    requires least { params.now.interval ≡ 4 }
    requires rows { IsWithoutRows extras }
    ensures { result ≡ room_after room (extra_fields params.now page extras.entry) }
{
    let mut extras = extras;
    let mut tally = ResidualTally {
        page,
        code: params.residuals(),
        last: None,
    };
    match extras.next() {
        Some(first) => {
            let room = tally.add(room_after(room, Code::Gamma, 0), first);
            room_after_rest(tally, extras, room)
        }
        None => room,
    }
}

// By what is not copied.
#[inline(always)]
fn room_after_extras(params: &Params, page: u64, list: &[u64], common: Common, room: u64) -> u64
    requires page { page < 2 ^ 62 }
    requires list { Ascends 0 list.now }
    requires low { Below (2 ^ 62) list.now }
    requires common { (referenced : List ℕ) × IsCommon list.now referenced common }
    ensures { (referenced : List ℕ) → IsCommon list.now referenced common
        → result ≡ room_after room (extra_fields params.now page (extras list.now referenced)) }
{
    let extras = Extras::of(list, common.ours);
    if params.interval() == 4 && !common.rows {
        return room_after_residuals(params, page, extras, room);
    }
    room_after_runs(params, page, extras, room)
}

/// How much of the room is left by the blocks of a list and by what is not copied. It takes one step for each block and
/// for each number that is not copied, and ends as soon as nothing is left.
pub(crate) fn room_after_common(
    params: &Params,
    page: u64,
    reference: u64,
    referenced: &[u64],
    list: &[u64],
    common: Common,
    room: u64,
) -> u64
    requires page { page < 2 ^ 62 }
    requires list { Ascends 0 list.now }
    requires low { Below (2 ^ 62) list.now }
    requires common { IsCommon list.now referenced.now common }
    ensures { result ≡ room_after room (copy_fields params.now reference referenced.now list.now
        ++ extra_fields params.now page (extras list.now referenced.now)) }
{
    let room = room_after_blocks(params, reference, referenced.len(), common.theirs, room);
    if room == 0 {
        return 0;
    }
    room_after_extras(params, page, list, common, room)
}
