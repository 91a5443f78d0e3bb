//! The classes of pages.
ghost use Rattle.std.specs.Prelude.{◌≡◌, ◌⊎◌, IfErr, IfOk, length};
ghost use Rattle.wg_graph.specs.Ascending.{Below};
ghost use Rattle.wg_outcomes.specs.Answers.{Steps};
ghost use Rattle.wg_outcomes.specs.Judged.{with_map};
ghost use Rattle.wg_readings.specs.Loading.{IsBadMap};

use std::alloc::Global;
use wg_arcs::{NumbersError, read_numbers};
use wg_graph::List;
use wg_outcomes::{Ending, Status};

/// The classes of so many pages that a text gives, each below the limit.
pub fn classes_of_text(alloc: Global, bytes: &[u8], nodes: u64, limit: u64) -> Result<List, Ending>
    ensures steps { Steps (with_map nodes limit bytes.now) result }
    ensures only { IfErr result (λ e. (e.status ≡ Status.Memory) ⊎ IsBadMap nodes e) }
    ensures each { IfOk result (λ classes. length classes ≡ nodes) }
    ensures below { IfOk result (λ classes. Below limit classes) }
{
    match read_numbers(alloc, bytes, nodes, limit) {
        Ok(classes) => Ok(classes),
        Err(NumbersError::Fault(fault)) => Err(Ending {
            status: Status::BadMap(fault),
            promised: nodes,
        }),
        Err(NumbersError::Memory) => Err(Ending::of(Status::Memory)),
    }
}
