//! The ends of a job at the second archive that it reads.
ghost use Rattle.std.specs.Prelude.{◌≡◌};
ghost use Rattle.wg_outcomes.specs.Second.{second_input, as_second, second_ending};

use crate::{Ending, Input, SecondFault, Status};

/// The file of the second archive that corresponds to one of the first.
pub fn second_input(input: Input) -> Input
    ensures { result ≡ second_input input }
{
    match input {
        Input::Properties => Input::SecondProperties,
        Input::Graph => Input::SecondGraph,
        Input::Offsets => Input::SecondOffsets,
        other => other,
    }
}

// An end at a file of an archive, as one at that file of the second archive.
fn second_status(status: Status) -> Status
    ensures { result ≡ as_second status }
{
    match status {
        Status::ReadFault(input) => Status::ReadFault(second_input(input)),
        Status::Missing(input) => Status::Missing(second_input(input)),
        Status::OverLimit(input) => Status::OverLimit(second_input(input)),
        Status::BadProperties(fault) => Status::BadSecond(SecondFault::Properties(fault)),
        Status::BadArchive(fault) => Status::BadSecond(SecondFault::Archive(fault)),
        other => other,
    }
}

/// How a job ends at its second archive, if it would have ended like this had the archive been its first.
pub fn as_second(ending: Ending) -> Ending
    ensures { result ≡ second_ending ending }
{
    Ending {
        status: second_status(ending.status),
        promised: ending.promised,
    }
}
