//! What a reader says.

/// A word, by its value and its length in bits.
#[derive(Clone, Copy, Debug)]
pub struct Word {
    /// The number that it stands for.
    pub value: u64,
    /// How many bits it has.
    pub bits: u64,
}

/// What stands at some bits. For every code and all bits it is exactly one of these.
#[derive(Clone, Copy, Debug, PartialEq, Eq)]
pub enum Read {
    /// The word of this value, and maybe more.
    Value(u64),
    /// A word that the end of the bits cuts off, and nothing else.
    Cut,
    /// What no word begins with.
    NoWord,
}
