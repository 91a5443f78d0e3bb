//! Whether some of the numbers that are not copied are four or more in a row.
ghost use Rattle.std.specs.Prelude.{◌≡◌, ◌^◌, ◌<◌, ◌≤◌, ℕ, false, length};
ghost use Rattle.std.specs.Int.{bit_at};
ghost use Rattle.wg_graph.specs.Ascending.{Ascends};
ghost use Rattle.wg_marks.specs.Spans.{members_at, TellsNext, AreFour, IsWithoutRows};

// Which numbers of a list are followed by the next number: bit i tells of number i.
pub(crate) fn follows(list: &[u64]) -> u64
    requires { length list.now ≤ 64 }
    ensures { TellsNext list.now result }
{
    let mut next = 0;
    let mut after = 0;
    let mut left = list.len();
    while left > 0 {
        left -= 1;
        let number = list[left];
        next = next << 1 | (number.wrapping_add(1) == after) as u64;
        after = number;
    }
    next
}

// The places where four in a row begin.
#[inline(always)]
fn fours(left: u64, next: u64) -> u64
    ensures { (i : ℕ) → AreFour left next i → bit_at result i ≡ 1 }
{
    let pairs = left & left >> 1 & next;
    pairs & pairs >> 1 & pairs >> 2
}

// Whether there may be an interval of four or more. If not, all are residuals.
#[inline(always)]
pub(crate) fn has_spans(list: &[u64], left: u64, next: u64) -> bool
    requires short { length list.now ≤ 64 }
    requires up { Ascends 0 list.now }
    requires within { left < 2 ^ length list.now }
    requires next { TellsNext list.now next }
    ensures { result ≡ false → IsWithoutRows (members_at list.now left) }
{
    fours(left, next) != 0
}
