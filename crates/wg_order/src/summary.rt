ghost use Rattle.std.specs.Prelude.{◌≡◌, ◌<◌, true, List, [], ℕ, length, slice_get};
ghost use Rattle.wg_graph.specs.Digraph.{Digraph, IsGraph};
ghost use Rattle.wg_rank.specs.Intervals.{AreBoundsOf};
ghost use Rattle.wg_order.specs.Inside.{IsFalling, IsRising};
ghost use Rattle.wg_order.specs.Order.{IsRanking, Positions};
ghost use Rattle.wg_order.specs.Summary.{is_sure, sure_pages, summary_of};
ghost use Rattle.wg_order.specs.Surely.{IsSurely};

use crate::counting::{count_below, count_higher};
use crate::sorting::{compare, sort_falling, sort_rising};
use wg_rank::Bounds;

/// What a ranking of pages comes to.
#[derive(Clone, Copy, Debug, Drop)]
pub struct RankingSummary {
    /// The first page, if there is any.
    pub first: Option<u64>,
    /// How many pages have one position alone.
    pub sure: u64,
}

impl RankingSummary {
    /// That of the ranking by these bounds, which it takes over. The pages need not be ranked for it: it takes time for
    /// two sorts of numbers, and no memory, as these are sorted where rounds added up what flows to the pages.
    pub fn of(bounds: Bounds) -> RankingSummary
        ensures is { (s : Positions) → s.low ≡ bounds.low → s.high ≡ bounds.high → IsRanking s.low s.high s.pages
            → result ≡ summary_of s }
        ensures surely { (g : Digraph) → IsGraph g → AreBoundsOf bounds g → (s : Positions) → s.low ≡ bounds.low
            → s.high ≡ bounds.high → IsSurely s bounds g }
    {
        let (low, high, mut sorted) = bounds.into_parts();
        let (falling, rising) = sorted.split_at_mut(low.len());
        sort_falling(falling, &low);
        sort_rising(rising, &high);
        RankingSummary {
            first: first_page(&low, &high),
            sure: count_sure(&low, &high, falling, rising),
        }
    }
}

// The first page of the ranking.
fn first_page(low: &[u128], high: &[u128]) -> Option<u64>
    ensures { (pages : List ℕ) → IsRanking low.now high.now pages → result ≡ slice_get pages 0 }
{
    if low.is_empty() {
        return None;
    }
    let mut first = 0;
    for page in 1..low.len() {
        if compare(low, high, page as u128, first as u128).is_lt() {
            first = page;
        }
    }
    Some(first as u64)
}

// Whether page `v` has one position alone.
fn has_one(low: &[u128], high: &[u128], falling: &[u128], rising: &[u128], v: usize) -> bool
    requires page { v < length low.now }
    requires high_pages { length high.now ≡ length low.now }
    requires falling { IsFalling low.now falling.now }
    requires rising { IsRising high.now rising.now }
    ensures { result ≡ is_sure (record { filled = true; low = low.now; high = high.now; pages = [] }) v }
{
    1 + count_higher(falling, high[v]) == low.len() - count_below(rising, low[v])
}

// How many pages have one position alone.
fn count_sure(low: &[u128], high: &[u128], falling: &[u128], rising: &[u128]) -> u64
    requires high_pages { length high.now ≡ length low.now }
    requires falling { IsFalling low.now falling.now }
    requires rising { IsRising high.now rising.now }
    ensures { result ≡ sure_pages (record { filled = true; low = low.now; high = high.now; pages = [] }) }
{
    let mut sure = 0;
    for v in 0..low.len() {
        if has_one(low, high, falling, rising, v) {
            sure += 1;
        }
    }
    sure
}
