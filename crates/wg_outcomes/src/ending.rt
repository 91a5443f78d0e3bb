ghost use Rattle.std.specs.Prelude.{◌≡◌};

use crate::Status;
use crate::outputs::output_ending;
use std::alloc::AllocError;
use wg_outside::WriteError;

/// The status that ends a job, with what the properties promise if the line on standard error names it: the number of
/// arcs beside fewer that were found, or of pages beside fewer numbers.
#[derive(Clone, Copy, Debug)]
pub struct Ending {
    pub status: Status,
    pub promised: u64,
}

impl Ending {
    /// An ending whose line names nothing that is promised.
    pub fn of(status: Status) -> Ending
        ensures status { result.status ≡ status }
        ensures promised { result.promised ≡ 0 }
    {
        Ending {
            status,
            promised: 0,
        }
    }
}

impl From<AllocError> for Ending {
    ghost use Rattle.wg_outcomes.specs.declared.status.Status.TheVariants.{Memory};

    ghost from_gives = { λ _ e. e ≡ record { status = Memory; promised = 0 } };

    fn from(_error: AllocError) -> Self {
        Ending::of(Status::Memory)
    }
}

/// A write that failed is one of the output.
impl From<WriteError> for Ending {
    ghost use Rattle.wg_outcomes.specs.Answers.{unput};

    ghost from_gives = { λ w e. e ≡ unput w };

    fn from(error: WriteError) -> Self {
        output_ending(error)
    }
}
