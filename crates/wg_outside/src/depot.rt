// Files by their names.
ghost use Rattle.std.specs.Prelude.{◌≡◌, ◌<◌, ◌≤◌, ℕ, Bool, List, length, take, IsTrue, IfOk, OnOk, OnErr, IsErrOf};
ghost use Rattle.std.specs.FinMap as map;
ghost use Rattle.wg_outside.specs.Outside.{Files, Counts, NonDecreasing, Increased, appended, created};
ghost use Rattle.wg_outside.specs.Reads.{Reads};

use thiserror::Error;

/// Why a read gave nothing.
#[derive(Clone, Copy, Debug, PartialEq, Eq, Error)]
pub enum ReadError {
    #[error("read failed")]
    Failed,
    #[error("no such file")]
    Absent,
    #[error("out of memory")]
    Memory,
}

/// Why nothing was written.
#[derive(Clone, Copy, Debug, PartialEq, Eq, Error)]
pub enum WriteError {
    #[error("write failed")]
    Failed,
    #[error("out of memory")]
    Memory,
}

/// Files by their names, which are read and added to in pieces.
///
/// A depot in memory can tell what it holds, and one of the system's files cannot: what others write there meanwhile is
/// not ours to say. So each clause on bytes stands under `told`. What holds of every depot is that it owns up to what
/// it refuses: an error comes only if a count rose. An implementation may keep one count for all names.
pub trait Depot {
    /// Whether `files` is what is there. It is a constant of the type.
    ghost told: { Bool };

    /// The bytes of each file, by the bytes of its name. Only `create` and `append` change them, and these only the
    /// file that they name.
    ghost files: { Self → Files };

    /// How often the calls on a name were refused: `read_faults` counts the reads and `write_faults` the calls of
    /// `create` and `append` that failed, `absences` the reads that found no such file, and `wants` the calls of all
    /// three that found no memory.
    ghost counts: { Self → List ℕ → Counts };

    /// Reads bytes of a file from the offset `at` on into the front of `buf`, and answers how many: none at or past the
    /// file's end, and else at least one, maybe fewer than there is room for.
    fn read(&mut self, name: &str, at: u64, buf: &mut [u8]) -> Result<usize, ReadError>
        requires { 0 < length buf.old }
        ensures count { IfOk result (λ count. count ≤ length buf.new) }
        ensures bytes { IsTrue told → Reads (map.get (files self.old) name.now) at buf.new result }
        ensures same { files self.new ≡ files self.old }
        ensures absent { IsErrOf result ReadError.Absent
            → Increased (counts self.old name.now).absences (counts self.new name.now).absences }
        ensures failed { IsErrOf result ReadError.Failed
            → Increased (counts self.old name.now).read_faults (counts self.new name.now).read_faults }
        ensures memory { IsErrOf result ReadError.Memory
            → Increased (counts self.old name.now).wants (counts self.new name.now).wants }
        ensures later { NonDecreasing (counts self.old) (counts self.new) };

    /// Leaves an empty file of this name, whatever it held.
    fn create(&mut self, name: &str) -> Result<(), WriteError>
        ensures ok { IsTrue told → OnOk result (files self.new ≡ created (files self.old) name.now) }
        ensures err { OnErr result (files self.new ≡ files self.old) }
        ensures failed { IsErrOf result WriteError.Failed
            → Increased (counts self.old name.now).write_faults (counts self.new name.now).write_faults }
        ensures memory { IsErrOf result WriteError.Memory
            → Increased (counts self.old name.now).wants (counts self.new name.now).wants }
        ensures later { NonDecreasing (counts self.old) (counts self.new) };

    /// Adds a prefix of the piece, at least one byte, to the end of a file, and answers its length. An absent file is
    /// begun.
    fn append(&mut self, name: &str, piece: &[u8]) -> Result<usize, WriteError>
        requires { 0 < length piece.now }
        ensures count { IfOk result (λ count. (0 < count) × (count ≤ length piece.now)) }
        ensures ok { IsTrue told → IfOk result (λ count.
            files self.new ≡ appended (files self.old) name.now (take count piece.now)) }
        ensures err { OnErr result (files self.new ≡ files self.old) }
        ensures failed { IsErrOf result WriteError.Failed
            → Increased (counts self.old name.now).write_faults (counts self.new name.now).write_faults }
        ensures memory { IsErrOf result WriteError.Memory
            → Increased (counts self.old name.now).wants (counts self.new name.now).wants }
        ensures later { NonDecreasing (counts self.old) (counts self.new) };
}
