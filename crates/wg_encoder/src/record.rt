// What a whole record takes.
ghost use Rattle.std.specs.Prelude.{◌≡◌, ◌<◌, ◌^◌};
ghost use Rattle.std.specs.Option.{ForSome};
ghost use Rattle.wg_marks.specs.Common.{IsCommon};
ghost use Rattle.wg_graph.specs.Ascending.{Ascends, Below};
ghost use Rattle.wg_greedy.specs.Fields.{reference_fields, list_fields, record_fields};
ghost use Rattle.wg_encoder.specs.Cost.{cost_of, room_after, IsFewer};

use crate::common::room_after_common;
use crate::cost::room_after;
use crate::lists::room_after_lists;
use wg_marks::Common;
use wg_params::Params;

#[inline(always)]
fn room_after_reference(params: &Params, reference: u64, room: u64) -> u64
    ensures { result ≡ room_after room (reference_fields params.now reference) }
{
    if params.window() > 0 {
        return room_after(room, params.references(), reference);
    }
    room
}

fn room_after_list(
    params: &Params,
    page: u64,
    reference: u64,
    referenced: &[u64],
    list: &[u64],
    common: Option<Common>,
    room: u64,
) -> u64
    requires page { page < 2 ^ 62 }
    requires list { Ascends 0 list.now }
    requires low { Below (2 ^ 62) list.now }
    requires referenced { Ascends 0 referenced.now }
    requires common { ForSome common (IsCommon list.now referenced.now) }
    ensures { result ≡ room_after room (list_fields params.now page reference referenced.now list.now) }
{
    if list.is_empty() {
        return room;
    }
    let room = room_after_reference(params, reference, room);
    match common {
        Some(common) => {
            room_after_common(params, page, reference, referenced, list, common, room)
        }
        None => room_after_lists(params, page, reference, referenced, list, room),
    }
}

/// How many bits the canonical record of a page takes by a reference, where `referenced` is the list that this names,
/// empty for 0, if that is wanted only below `most`; none if it is no less, or some value of the record has no
/// word in its code. It takes no memory, and one pass over the two lists, which ends at so many bits. If it is known
/// what they have in common, the pass is over the blocks, and over the numbers that are not copied.
pub(crate) fn record_cost(
    params: &Params,
    page: u64,
    reference: u64,
    referenced: &[u64],
    list: &[u64],
    common: Option<Common>,
    most: u64,
) -> Option<u64>
    requires page { page < 2 ^ 62 }
    requires list { Ascends 0 list.now }
    requires low { Below (2 ^ 62) list.now }
    requires referenced { Ascends 0 referenced.now }
    requires common { ForSome common (IsCommon list.now referenced.now) }
    ensures { IsFewer most (cost_of (record_fields params.now page reference referenced.now list.now)) result }
{
    let room = room_after(most, params.outdegrees(), list.len() as u64);
    let left = room_after_list(params, page, reference, referenced, list, common, room);
    if left == 0 {
        return None;
    }
    Some(most - left)
}
