use crate::Field;
use wg_params::Code;

/// What comes next in a record.
#[derive(Clone, Copy, Debug, PartialEq, Eq)]
pub enum Need {
    /// A word of this field, in this code.
    Read(Field, Code),
    /// The check of how many members are copied.
    Check,
    /// Nothing: all fields have been read.
    End,
}
