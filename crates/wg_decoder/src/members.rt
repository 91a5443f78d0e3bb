//! The members of a record whose head has been read.
ghost use Rattle.std.specs.Prelude.{◌≡◌, ◌<◌, ◌≤◌, Bool, List as ListOf, [], length, OnOk};
ghost use Rattle.wg_graph.specs.Ascending.{Ascends, Below};
ghost use Rattle.wg_grammar.specs.Errors.{OnFault, OnRefusal};
ghost use Rattle.wg_decoder.specs.Stages.Members.{AreMembers, AreNoMembers};
ghost use Rattle.wg_decoder.specs.Spare.{NoneLonger};

use crate::copying::{chosen, copied};
use crate::heads::Head;
use crate::intervals::intervals;
use crate::residuals::with_residuals;
use crate::room::first_room;
use crate::spares::{Spares, reserve};
use crate::uniting::union;
use wg_grammar::{Fault, ReadError, Source};
use wg_graph::List;
use wg_params::Params;

/// Fills an empty list with that of a record with this head, whose reference names the list `named`. It may be shorter
/// than the outdegree, if a number stands twice. Memory is taken as numbers come, and not by the outdegree.
#[inline(always)]
pub fn members<S: Source>(
    list: &mut List,
    spares: &mut Spares,
    params: &Params,
    page: u64,
    head: Head,
    named: &[u64],
    source: &mut S,
) -> Result<(), ReadError<Fault, S::Refusal>>
    requires empty { list.old ≡ [] }
    requires page { page < params.now.nodes }
    requires some { 0 < head.outdegree }
    requires there { head.reference ≤ params.now.window }
    requires named_ascends { Ascends 0 named.now }
    requires named_below { Below params.now.nodes named.now }
    ensures later { S.later source.old source.new }
    ensures refused { OnRefusal result (S.caused source.old source.new) }
    ensures reads { (bits : ListOf Bool) → S.reads_from source.old bits
        → OnOk result (AreMembers params.now page head.outdegree head.reference named.now bits
        (S.offset source.old) list.new (S.offset source.new)) }
    ensures fault { (bits : ListOf Bool) → S.reads_from source.old bits
        → OnFault result (λ e. AreNoMembers params.now page head.outdegree head.reference named.now bits
        (S.offset source.old) e) }
    ensures ascends { OnOk result (Ascends 0 list.new) }
    ensures below { OnOk result (Below params.now.nodes list.new) }
    ensures few { OnOk result (length list.new ≤ head.outdegree) }
    ensures short { NoneLonger params.now.nodes spares.old → NoneLonger params.now.nodes spares.new }
{
    let whole = copied(
        &mut spares.copied,
        params,
        page,
        head.outdegree,
        head.reference,
        named,
        source,
    )?;
    let members = chosen(whole, named, &spares.copied);
    let extra = head.outdegree - members.len() as u64;
    intervals(&mut spares.inside, params, page, extra, source)?;
    let inside = spares.inside.as_slice();
    let missing = extra - inside.len() as u64;
    let others = union(&mut spares.united, members, inside)?;
    reserve(list, others.len() + first_room(missing))?;
    with_residuals(list, params, page, missing, others, source)
}
