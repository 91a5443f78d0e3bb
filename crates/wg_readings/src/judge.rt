//! The files of an archive, validated as they are read in pieces.
ghost use Rattle.std.specs.Prelude.{◌≡◌, ◌+◌, length};
ghost use Rattle.wg_readings.specs.Loading.{JudgesFilesBy, JudgesGraphBy, JudgesOffsetsBy};

use crate::pairing::{begin_pairing, end_pairing, open_offsets, pair_next};
use crate::records::{end_records, next_record, open_graph};
use std::alloc::Global;
use wg_offsets::Offsets;
use wg_outcomes::Ending;
use wg_outside::Depot;
use wg_params::Params;
use wg_words::Name;

/// Validates the records of a graph file, and what follows them.
pub fn judge_graph<D: Depot>(
    alloc: Global,
    params: &Params,
    depot: &mut D,
    base: &Name,
) -> Result<(), Ending>
    ensures { JudgesGraphBy ⟦<D as Depot>⟧ base.now params.now depot.old depot.new result }
{
    let mut reader = open_graph(alloc, params, base)?;
    for _page in 0..params.nodes() {
        next_record(&mut reader, depot, params)?;
    }
    end_records(&mut reader, depot, params)?;
    Ok(())
}

/// Validates the graph and the offsets, and answers how many bits the records have. After an error of the offsets file
/// that file is read no further, and the error is reported once the graph is validated to its end: a fault of the graph
/// comes before it.
pub fn judge_files<D: Depot>(
    alloc: Global,
    params: &Params,
    depot: &mut D,
    base: &Name,
) -> Result<u64, Ending>
    ensures { JudgesFilesBy ⟦<D as Depot>⟧ base.now params.now depot.old depot.new result }
{
    let mut reader = open_graph(alloc, params, base)?;
    let mut pairing = open_offsets(alloc, params, base)?;
    begin_pairing(&mut pairing, depot, params);
    for _page in 0..params.nodes() {
        next_record(&mut reader, depot, params)?;
        pair_next(&mut pairing, depot, params, reader.at());
    }
    let bits = reader.at();
    end_records(&mut reader, depot, params)?;
    end_pairing(&mut pairing, depot, params)?;
    Ok(bits)
}

/// Validates the offsets file of an archive, and checks whether it stores the lengths of the records with these
/// offsets, of which there is one for each page and one more. It goes through the file once, and holds a piece of it.
pub fn judge_offsets<D: Depot>(
    alloc: Global,
    params: &Params,
    offsets: &Offsets,
    depot: &mut D,
    base: &Name,
) -> Result<(), Ending>
    requires { length offsets.now ≡ params.now.nodes + 1 }
    ensures { JudgesOffsetsBy ⟦<D as Depot>⟧ base.now params.now offsets.now depot.old depot.new result }
{
    let mut pairing = open_offsets(alloc, params, base)?;
    // tells that they begin at 0 and never fall
    offsets.len();
    begin_pairing(&mut pairing, depot, params);
    for page in 0..params.nodes() {
        let here = offsets.place(page + 1);
        pair_next(&mut pairing, depot, params, here);
    }
    end_pairing(&mut pairing, depot, params)
}
