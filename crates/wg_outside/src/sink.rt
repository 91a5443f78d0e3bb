// Where bytes go.
ghost use Rattle.std.specs.Prelude.{◌≡◌, ◌<◌, ◌≤◌, ℕ, Bool, List, ◌++◌, length, take, IsTrue, IfOk, OnErr, IsErrOf};
ghost use Rattle.wg_outside.specs.Outside.{Increased};

use crate::WriteError;

/// Where bytes go, one piece after the other.
pub trait Sink {
    /// Whether `taken` is what it has taken. It is a constant of the type.
    ghost told: { Bool };

    /// The bytes that it has taken, the first of them first.
    ghost taken: { Self → List ℕ };

    /// How often a write failed.
    ghost faults: { Self → ℕ };

    /// How often a write found no memory.
    ghost wants: { Self → ℕ };

    /// The second comes of the first by writing on.
    ghost later: { Self → Self → Type 0 };

    /// Takes a prefix of the piece, at least one byte, and answers its length.
    fn write(&mut self, piece: &[u8]) -> Result<usize, WriteError>
        requires { 0 < length piece.now }
        ensures count { IfOk result (λ count. (0 < count) × (count ≤ length piece.now)) }
        ensures ok { IsTrue told → IfOk result (λ count. taken self.new ≡ taken self.old ++ take count piece.now) }
        ensures err { OnErr result (taken self.new ≡ taken self.old) }
        ensures failed { IsErrOf result WriteError.Failed → Increased (faults self.old) (faults self.new) }
        ensures memory { IsErrOf result WriteError.Memory → Increased (wants self.old) (wants self.new) }
        ensures later { later self.old self.new };

    ghost stays: { (a : Self) → later a a };

    ghost goes_on: { (a b c : Self) → later a b → later b c → later a c };

    ghost onward: { (a b : Self) → later a b → (faults a ≤ faults b) × (wants a ≤ wants b) };
}
