/// A code for whole numbers, by its name in BVGraph's documentation. The number of `Zeta` is its parameter k.
#[derive(Clone, Copy, Debug, PartialEq, Eq)]
pub enum Code {
    /// As many zero bits as the number says, then a one.
    Unary,
    /// With y one more than the number: the unary word of the index of its highest one, then the bits below that.
    Gamma,
    /// With y one more than the number: the gamma word of the index of its highest one, then the bits below that.
    Delta,
    /// The unary word of that index by k, then the bits below, in k bits for each that is counted, or one fewer.
    Zeta(u32),
    /// The digits in base 8, the highest first, each behind a bit that is one at the last.
    Nibble,
}
