//! What the codes share: a word's head in unary, and a field of bits behind it.
ghost use Rattle.std.specs.Prelude.{◌≡◌, ◌+◌, ◌-◌, ◌^◌, ◌<◌, ◌≤◌, false, ◌++◌, length, IfSome, IfNone, is_err};
ghost use Rattle.wg_bits.specs.Bits.{rest, moved, low_bits};
ghost use Rattle.wg_bits.specs.Written.{Sends};
ghost use Rattle.wg_codes.specs.Words.{highest, unary};
ghost use Rattle.wg_codes.specs.Parts.{IsNumberAt};

use wg_bits::{Cursor, Writer};
use wg_outside::{Depot, WriteError};

// The index of the highest one, the lowest index being 0; 0 for no one at all.
#[inline(always)]
pub fn highest_one(y: u64) -> u32
    ensures index { result ≡ highest y }
    ensures small { result ≤ 63 }
{
    63 - y.max(1).leading_zeros()
}

// One less than the number whose highest one stands at `index`, of which the lower bits come next.
pub fn number(cursor: &mut Cursor<'_>, index: u32) -> Option<u64>
    requires { index ≤ 62 }
    ensures none { IfNone result ((length (rest cursor.old) < index) × (cursor.new ≡ cursor.old)) }
    ensures some { IfSome result (λ v. IsNumberAt index v (rest cursor.old) (rest cursor.new)
        × (cursor.new ≡ moved cursor.old index)) }
{
    let low = cursor.take(index)?;
    Some((1 << index) - 1 + low)
}

// A head in unary, and behind it a field of `width` bits. The one of the head is put as a bit more of the field, and
// its zeros with them, if all of these fit a word.
#[inline(always)]
pub fn put_headed<D: Depot>(
    writer: &mut Writer,
    depot: &mut D,
    name: &str,
    head: u64,
    field: u64,
    width: u32,
) -> Result<(), WriteError>
    requires ready { writer.old.failed ≡ false }
    requires width { width ≤ 63 }
    requires field { field < 2 ^ width }
    ensures sends { Sends ⟦<D as Depot>⟧ depot.old depot.new name.now writer.old.bits
        (unary head ++ low_bits width field) writer.new.bits result }
    ensures failed { writer.new.failed ≡ is_err result }
{
    if head <= 63 - width as u64 {
        return writer.put(depot, name, (1 << width) + field, head as u32 + width + 1);
    }
    put_in_two(writer, depot, name, head, field, width)
}

// Writes a head of any length and its field in two calls: the zeros first.
#[cold]
#[inline(never)]
fn put_in_two<D: Depot>(
    writer: &mut Writer,
    depot: &mut D,
    name: &str,
    head: u64,
    field: u64,
    width: u32,
) -> Result<(), WriteError>
    requires ready { writer.old.failed ≡ false }
    requires width { width ≤ 63 }
    requires field { field < 2 ^ width }
    ensures sends { Sends ⟦<D as Depot>⟧ depot.old depot.new name.now writer.old.bits
        (unary head ++ low_bits width field) writer.new.bits result }
    ensures failed { writer.new.failed ≡ is_err result }
{
    match writer.zeros(depot, name, head) {
        Ok(()) => writer.put(depot, name, (1 << width) + field, width + 1),
        Err(e) => Err(e),
    }
}
