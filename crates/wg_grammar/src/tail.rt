ghost use Rattle.std.specs.Prelude.{◌≡◌, ◌≤◌, IfSome, IfNone};
ghost use Rattle.wg_grammar.specs.Archive.{IsTail, IsTailFault};

use wg_bits::Cursor;

/// The most bits that may follow the last record of a graph file, or the last word of an offsets file.
pub const MOST_TAIL: u64 = 127;

/// The first bit from the cursor on that no tail has: a one, or one bit too many. The cursor moves over zero bits.
pub fn tail_fault(cursor: &mut Cursor<'_>) -> Option<u64>
    ensures none { IfNone result (IsTail cursor.old.bits cursor.old.at) }
    ensures some { IfSome result (λ at. IsTailFault cursor.old.bits cursor.old.at at) }
    ensures bits { cursor.new.bits ≡ cursor.old.bits }
    ensures onward { cursor.old.at ≤ cursor.new.at }
{
    let start = cursor.at();
    let zeros = cursor.zeros(MOST_TAIL + 1);
    if zeros > MOST_TAIL {
        return Some(start + MOST_TAIL);
    }
    if cursor.remaining() > 0 {
        return Some(start + zeros);
    }
    None
}
