ghost use Rattle.std.specs.Prelude.{◌≡◌};
ghost use Rattle.wg_shape.specs.declared.error.ShapeError.TheVariants as errors;

use std::alloc::AllocError;
use thiserror::Error;

/// Why a list was not added to a graph.
#[derive(Clone, Copy, Debug, PartialEq, Eq, Error)]
pub enum ShapeError {
    /// The graph would have more than 2^40 arcs.
    #[error("too many arcs")]
    TooManyArcs,
    /// There was no memory for an arc.
    #[error("out of memory")]
    Memory,
}

impl From<AllocError> for ShapeError {
    ghost from_gives = { λ _ e. e ≡ errors.Memory };

    fn from(_error: AllocError) -> Self {
        ShapeError::Memory
    }
}
