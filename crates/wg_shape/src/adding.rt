//! A union's list, added to a graph in the making.
ghost use Rattle.std.specs.Prelude.{◌≡◌, ℕ, ◌+◌, ◌<◌, ◌≤◌, [], length, IfErr, OnErr, OnOk};
ghost use Rattle.wg_params.specs.declared.limits.TheConstants.{MOST_ARCS};
ghost use Rattle.wg_graph.specs.Ascending.{Below};
ghost use Rattle.wg_graph.specs.Digraph.{successors, arc_count};
ghost use Rattle.wg_shape.specs.Added.{Added};

use crate::{Coming, Merge, ShapeError};
use wg_graph::GraphBuilder;
use wg_params::MOST_ARCS;

/// Makes the numbers of both lists the successors of a page, in time in proportion to them on average. No later page is
/// begun yet, and the page has no successors. After an error it has some of the first numbers.
pub fn add_union<A: Coming, B: Coming>(
    builder: &mut GraphBuilder,
    page: u64,
    mut numbers: Merge<A, B>,
) -> Result<(), ShapeError>
    requires page { page < builder.old.nodes }
    requires last { length builder.old.lists ≤ page + 1 }
    requires none { successors builder.old page ≡ [] }
    requires below { Below builder.old.nodes numbers }
    ensures added { OnOk result (Added numbers page (length numbers) builder.old builder.new) }
    ensures some { OnErr result ((k : ℕ) × Added numbers page k builder.old builder.new) }
    ensures fits { OnOk result (arc_count builder.old + length numbers ≤ MOST_ARCS) }
    ensures too_many { IfErr result (λ e. e ≡ ShapeError.TooManyArcs
        → MOST_ARCS < arc_count builder.old + length numbers) }
{
    let mut room = MOST_ARCS - builder.arcs();
    'numbers: while let Some(number) = Coming::next(&mut numbers) {
        if room == 0 {
            return Err(ShapeError::TooManyArcs);
        }
        builder.push(page, number)?;
        room -= 1;
    }
    Ok(())
}
