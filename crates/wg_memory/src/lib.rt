//! Archives that lie in memory, read into arrays that the caller lends.
#![tactic(auto)]

mod arrays;
mod checking;
mod lists;
mod many;
mod offsets;
mod outdegrees;
mod placed;
mod range;
mod ranking;
mod records;
mod spot;
mod verifying;
mod wide;
mod words;
mod writing;

pub use checking::{check, check_offsets};
pub use lists::read_lists;
pub use many::{Stop, Stopped, successors_of};
pub use offsets::read_offsets;
pub use outdegrees::read_outdegrees;
pub use placed::Fall;
pub use range::read_range;
pub use ranking::{RankError, copied, lists_of, rank};
pub use spot::successors;
pub use verifying::{VerifyError, verify};
pub use wide::{put_wide, wide_of};
pub use writing::{Unwritten, write_offsets};
