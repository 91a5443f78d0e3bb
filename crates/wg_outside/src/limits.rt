/// The most bytes of a file that is read: 2^46.
pub const MOST_BYTES: u64 = 70_368_744_177_664;
