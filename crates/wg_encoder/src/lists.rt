// The pass over a list and the list that it refers to.
ghost use Rattle.std.specs.Prelude.{◌≡◌, ◌<◌, ◌^◌, ◌++◌};
ghost use Rattle.wg_graph.specs.Ascending.{Ascends, Below};
ghost use Rattle.wg_greedy.specs.Fields.{extras, copy_fields, extra_fields};
ghost use Rattle.wg_encoder.specs.Cost.{room_after};

use crate::blocks::BlockTally;
use crate::extras::ExtraTally;
use wg_graph::Members;
use wg_params::Params;

// no member of a list is as high
const HIGH: u64 = 1 << 62;

/// How much of the room is left by the blocks of a list and by what is not copied. It takes one pass over both lists:
/// between two members of the referenced list, those of the list are not copied. The pass ends as soon as nothing is
/// left.
pub(crate) fn room_after_lists(
    params: &Params,
    page: u64,
    reference: u64,
    referenced: &[u64],
    list: &[u64],
    room: u64,
) -> u64
    requires page { page < 2 ^ 62 }
    requires list { Ascends 0 list.now }
    requires low { Below (2 ^ 62) list.now }
    requires referenced { Ascends 0 referenced.now }
    ensures { result ≡ room_after room (copy_fields params.now reference referenced.now list.now
        ++ extra_fields params.now page (extras list.now referenced.now)) }
{
    let mut members = Members::of(list);
    let mut blocks = BlockTally::new(params, reference);
    let mut extras = ExtraTally::new(params, page);
    let mut room = room;
    for y in referenced {
        room = extras.add_below(room, &mut members, *y);
        if room == 0 {
            return 0;
        }
        room = blocks.add(room, members.take(*y));
    }
    room = extras.add_below(room, &mut members, HIGH);
    blocks.last(extras.last(room))
}
