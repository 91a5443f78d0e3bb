//! Archives whose three files are validated before a job goes on with their graph.
ghost use Rattle.std.specs.Prelude.{◌≤◌, length};
ghost use Rattle.wg_outside.specs.declared.limits.TheConstants.{MOST_BYTES};
ghost use Rattle.wg_transforms.specs.Loaded.{JudgesArchiveBy, LoadsArchiveBy, LoadsSecondBy};

use std::alloc::Global;
use wg_outcomes::{Ending, Input, as_second};
use wg_outside::{Depot, List8};
use wg_params::Params;
use wg_readings::{judge_offsets, load, load_params, passed_of_graph};
use wg_words::Name;

/// The parameters of an archive, the bytes of its graph file, and its greatest outdegree.
#[derive(Drop)]
pub struct Loaded {
    pub params: Params,
    pub bytes: List8,
    pub greatest: u64,
}

// Validates the graph file of an archive, which is held, and then its offsets file; it gives the greatest outdegree.
fn judge_archive<D: Depot>(
    alloc: Global,
    params: &Params,
    bytes: &[u8],
    depot: &mut D,
    base: &Name,
) -> Result<u64, Ending>
    requires { length bytes.now ≤ MOST_BYTES }
    ensures { JudgesArchiveBy ⟦<D as Depot>⟧ base.now params.now bytes.now depot.old depot.new result }
{
    let found = passed_of_graph(alloc, params, bytes)?;
    judge_offsets(alloc, params, &found.offsets, depot, base)?;
    Ok(found.greatest)
}

/// Reads and validates the three files of an archive, as `check` does, and keeps the bytes of its graph file. Until the
/// offsets are validated, of which it holds a piece, it holds 8 bytes a page besides.
pub fn load_archive<D: Depot>(alloc: Global, depot: &mut D, base: &Name) -> Result<Loaded, Ending>
    ensures { LoadsArchiveBy ⟦<D as Depot>⟧ base.now depot.old depot.new result }
{
    let params = load_params(alloc, depot, base)?;
    let bytes = load(alloc, depot, base, Input::Graph)?;
    let greatest = judge_archive(alloc, &params, bytes.as_slice(), depot, base)?;
    Ok(Loaded {
        params,
        bytes,
        greatest,
    })
}

/// Like [`load_archive`], for the second archive of a job: if it ends the job, the second is named.
pub fn load_second<D: Depot>(alloc: Global, depot: &mut D, base: &Name) -> Result<Loaded, Ending>
    ensures { LoadsSecondBy ⟦<D as Depot>⟧ base.now depot.old depot.new result }
{
    match load_archive(alloc, depot, base) {
        Ok(loaded) => Ok(loaded),
        Err(ending) => Err(as_second(ending)),
    }
}
