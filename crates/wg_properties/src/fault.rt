use thiserror::Error;
use wg_params::{Key, key_name};

/// The first fault of a properties text: a line, counted from 1, that would go on in the next; then, in the order in
/// which the keys are declared, a key that is missing, one whose value is no number or is out of its limits, or another
/// value that is not accepted. A flag is counted from 1 among the flags.
#[derive(Clone, Copy, Debug, PartialEq, Eq, Error)]
pub enum PropFault {
    #[error("line {0} would go on in the next")]
    Line(u64),
    #[error("{name} is missing", name = key_name(*.0))]
    Missing(Key),
    #[error("{name} is no number", name = key_name(*.0))]
    Number(Key),
    #[error("{name} is out of its limits", name = key_name(*.0))]
    Range(Key),
    #[error("the graph is of another class")]
    Class,
    #[error("the format is of another version")]
    Version,
    #[error("flag {0} is unknown")]
    Flag(u64),
    #[error("the bytes are in another order")]
    Endian,
}
