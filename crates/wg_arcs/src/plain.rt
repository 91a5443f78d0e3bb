// Lines in their plain form, as the text of a graph has them.
ghost use Rattle.std.specs.Prelude.{◌≡◌, ℕ, ◌+◌, ◌<◌, ◌≤◌, ◌^◌, ◌∷◌, ◌++◌, slice_index, codes, decimal, length, drop, IfSome, IsTrue};
ghost use Rattle.wg_arcs.specs.Text.{arc_line};

use wg_num::leading_15_digits;

// The text after its first byte, if that is this one.
#[inline(always)]
fn after(text: &[u8], byte: u8) -> Option<&[u8]>
    ensures { IfSome result (λ rest. text.now ≡ byte ∷ rest.now) }
{
    if !text.is_empty() && text[0] == byte {
        return Some(&text[1..]);
    }
    None
}

/// The arc of the first line and the text after it, if the line is two numbers, one space between them, and its end.
/// It goes over the line once.
#[inline(always)]
pub fn plain_arc(text: &[u8]) -> Option<(u64, u64, &[u8])>
    ensures line { IfSome result (λ r. text.now ≡ arc_line (r.0, r.1) ++ r.2.now) }
    ensures low { IfSome result (λ r. (r.0 < 2 ^ 64) × (r.1 < 2 ^ 64)) }
{
    let (from, from_end) = leading_15_digits(text)?;
    let second = after(&text[from_end..], b' ')?;
    let (to, to_end) = leading_15_digits(second)?;
    let rest = after(&second[to_end..], b'\n')?;
    Some((from, to, rest))
}

// Whether two texts have the same four bytes at a place. They are compared as one number.
#[inline(always)]
fn same_four(text: &[u8], other: &[u8], at: usize) -> bool
    requires text { at + 4 ≤ length text.now }
    requires other { at + 4 ≤ length other.now }
    ensures { IsTrue result → (i : ℕ) → i < 4 → slice_index text.now (at + i) ≡ slice_index other.now (at + i) }
{
    let here = u32::from_le_bytes([text[at], text[at + 1], text[at + 2], text[at + 3]]);
    let there = u32::from_le_bytes([other[at], other[at + 1], other[at + 2], other[at + 3]]);
    here == there
}

// Whether a text begins with another one. Of four to eight bytes the first four and the last four are compared, and few
// others one by one, which is sooner done than a call.
#[inline(always)]
fn begins_with(text: &[u8], front: &[u8]) -> bool
    ensures front { IsTrue result → text.now ≡ front.now ++ drop (length front.now) text.now }
    ensures within { IsTrue result → length front.now ≤ length text.now }
{
    if text.len() < front.len() {
        return false;
    }
    if 4 <= front.len() && front.len() <= 8 {
        if !same_four(text, front, 0) {
            return false;
        }
        return same_four(text, front, front.len() - 4);
    }
    for index in 0..front.len() {
        if text[index] != front[index] {
            return false;
        }
    }
    true
}

/// The second number of the first line and the text after it, if the line is in that form and begins with `start`:
/// the digits of this page, and a space. It goes over the line once.
#[inline(always)]
pub fn plain_arc_of<'a>(page: u64, start: &[u8], text: &'a [u8]) -> Option<(u64, &'a [u8])>
    requires { start.now ≡ decimal page ++ codes " " }
    ensures line { IfSome result (λ r. text.now ≡ arc_line (page, r.0) ++ r.1.now) }
    ensures low { IfSome result (λ r. (page < 2 ^ 64) × (r.0 < 2 ^ 64)) }
{
    if !begins_with(text, start) {
        return None;
    }
    let second = &text[start.len()..];
    let (to, to_end) = leading_15_digits(second)?;
    let rest = after(&second[to_end..], b'\n')?;
    Some((to, rest))
}
