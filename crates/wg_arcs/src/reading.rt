ghost use Rattle.std.specs.Prelude.{◌≡◌, ◌≤◌, ◌++◌, None, length, OnOk, IfSome, option_to_list};
ghost use Rattle.std.specs.List.{last_or};
ghost use Rattle.wg_params.specs.declared.limits.TheConstants.{MOST_PAGES};
ghost use Rattle.wg_graph.specs.Arcs.{arcs_of};
ghost use Rattle.wg_arcs.specs.Reading.{IsRead};
ghost use Rattle.wg_arcs.specs.Growing.{Begins, MayCome};

use crate::{ArcLines, ArcsError};
use std::alloc::{AllocError, Global};
use wg_graph::{Graph, GraphBuilder};

// Adds the arc of a line, if it has one.
#[inline(always)]
fn add(builder: &mut GraphBuilder, arc: Option<(u64, u64)>) -> Result<(), AllocError>
    requires begun { Begins builder.old.nodes builder.old.lists }
    requires comes { IfSome arc (MayCome builder.old.nodes (last_or None (arcs_of builder.old))
        (length (arcs_of builder.old))) }
    ensures nodes { OnOk result (builder.new.nodes ≡ builder.old.nodes) }
    ensures begun { OnOk result (Begins builder.new.nodes builder.new.lists) }
    ensures arcs { OnOk result (arcs_of builder.new ≡ arcs_of builder.old ++ option_to_list arc) }
{
    match arc {
        Some((u, v)) => builder.push(u, v),
        None => Ok(()),
    }
}

/// Reads the text of a graph of `n` pages, or names its first faulty line. Memory is taken as the arcs come, and at the
/// end 8 bytes for each page; it costs a pass over the text.
pub fn read(alloc: Global, bytes: &[u8], n: u64) -> Result<Graph, ArcsError>
    requires { n ≤ MOST_PAGES }
    ensures { IsRead n bytes.now result }
{
    let mut builder = GraphBuilder::new(alloc, n)?;
    let mut reading = ArcLines::new(n);
    let mut rest = bytes;
    'lines: while !rest.is_empty() {
        let (arc, after) = reading.read_first(rest)?;
        add(&mut builder, arc)?;
        rest = after;
    }
    Ok(builder.finish()?)
}
