/// What the records of a graph come to.
#[derive(Clone, Copy, Debug, PartialEq, Eq)]
pub struct Summary {
    /// How many bits they have.
    pub bits: u64,
    /// How many of them have a reference above 0.
    pub referring: u64,
}
