//! How a job ends that one of its outputs stopped.
ghost use Rattle.std.specs.Prelude.{◌≡◌};
ghost use Rattle.wg_outside.specs.declared.output.Output.TheVariants.{Out};
ghost use Rattle.wg_outcomes.specs.Answers.{IsUnput, unput};
ghost use Rattle.wg_outcomes.specs.Written.{IsStoppedAt};

use crate::{Ending, Status};
use wg_outside::{Output, WriteError};

/// How a job ends whose output the sink does not take.
pub fn output_ending(error: WriteError) -> Ending
    ensures value { result ≡ unput error }
    ensures only { IsUnput result.status }
    ensures fault { result.status ≡ Status.WriteFault Out → error ≡ WriteError.Failed }
    ensures want { result.status ≡ Status.Memory → error ≡ WriteError.Memory }
{
    match error {
        WriteError::Failed => Ending::of(Status::WriteFault(Output::Out)),
        WriteError::Memory => Ending::of(Status::Memory),
    }
}

/// How a job ends that a call on one of its files stopped.
pub fn writing_ending(output: Output, error: WriteError) -> Ending
    ensures only { IsStoppedAt output result.status }
    ensures fault { result.status ≡ Status.WriteFault output → error ≡ WriteError.Failed }
    ensures want { result.status ≡ Status.Memory → error ≡ WriteError.Memory }
{
    match error {
        WriteError::Failed => Ending::of(Status::WriteFault(output)),
        WriteError::Memory => Ending::of(Status::Memory),
    }
}
