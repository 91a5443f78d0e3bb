// The pages as they are ranked and their upper bounds rising, over slices; and the first pages alone.

ghost use Rattle.std.specs.Prelude.{◌≡◌, ℕ, ◌*◌, ◌≤◌, ◌<◌, length, slice_index, take, drop};
ghost use Rattle.std.specs.List.{range_with_len};
ghost use Rattle.wg_order.specs.Order.{IsRanking};
ghost use Rattle.wg_order.specs.Front.{AreFirst, count_lower, first_in};
ghost use Rattle.wg_order.specs.Inside.{IsRising};

use crate::counting::count_lower;
use crate::sorting::{rank, rank_first, sort_rising};

// Lists the pages by their numbers.
fn number(pages: &mut [u128])
    ensures { pages.new ≡ range_with_len 0 (length pages.old) }
{
    for v in 0..pages.len() {
        pages[v] = v as u128;
    }
}

// Leaves in `sorted` all pages as they are ranked, and then all upper bounds rising.
pub(crate) fn arrange(low: &[u128], high: &[u128], sorted: &mut [u128])
    requires high_pages { length high.now ≡ length low.now }
    requires sorted_pages { length sorted.old ≡ 2 * length low.now }
    ensures ranking { IsRanking low.now high.now (take (length low.now) sorted.new) }
    ensures rising { IsRising high.now (drop (length low.now) sorted.new) }
{
    let (ranked, rising) = sorted.split_at_mut(low.len());
    number(ranked);
    rank(ranked, low, high);
    sort_rising(rising, high);
}

// Leaves in the second half of `room` so many first pages of the ranking, in their order, and in the first half for
// each of these how many pages are surely below it.
pub(crate) fn arrange_first(low: &[u128], high: &[u128], room: &mut [u128], count: usize)
    requires high_pages { length high.now ≡ length low.now }
    requires room_pages { length room.old ≡ 2 * length low.now }
    requires few { count ≤ length low.now }
    ensures front { AreFirst low.now high.now (first_in count (length low.now) room.new) }
    ensures lower { (i : ℕ) → i < count → slice_index room.new i
        ≡ count_lower low.now high.now (slice_index (first_in count (length low.now) room.new) i) }
{
    let (pages, rest) = room.split_at_mut(low.len());
    number(pages);
    rank_first(pages, low, high, &mut rest[..count]);
    count_lower(&rest[..count], low, high, &mut pages[..count]);
}
