// Why an archive was not written whole.
ghost use Rattle.std.specs.Prelude.{◌≡◌};
ghost use Rattle.wg_encoder.specs.declared.error.EncodeError.TheVariants as errors;

use std::alloc::AllocError;
use thiserror::Error;
use wg_outside::Output;

/// Why the files of an archive were not written whole: a call on the named one failed, or memory ran out.
#[derive(Clone, Copy, Debug, PartialEq, Eq, Error)]
pub enum EncodeError {
    #[error("write failed: {file}", file = file_name(*.0))]
    Failed(Output),
    #[error("out of memory")]
    Memory,
}

// The file, as it is named in an error.
fn file_name(output: Output) -> &'static str {
    match output {
        Output::Properties => "properties file",
        Output::Graph => "graph file",
        Output::Offsets => "offsets file",
        Output::Certificate => "certificate",
        Output::Out => "output",
    }
}

impl From<AllocError> for EncodeError {
    ghost from_gives = { λ _ e. e ≡ errors.Memory };

    fn from(_error: AllocError) -> Self {
        EncodeError::Memory
    }
}
