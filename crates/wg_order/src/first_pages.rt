ghost use Rattle.std.specs.Prelude.{◌≡◌, ℕ, ◌<◌, ◌≤◌, List, length, slice_index, take};
ghost use Rattle.wg_params.specs.declared.limits.TheConstants.{MOST_PAGES};
ghost use Rattle.wg_graph.specs.Digraph.{Digraph, IsGraph};
ghost use Rattle.wg_rank.specs.Intervals.{AreBoundsOf, by_page};
ghost use Rattle.wg_rank.specs.declared.limits.TheConstants.{UNITS};
ghost use Rattle.wg_order.specs.Front.{AreFirst};
ghost use Rattle.wg_order.specs.Order.{best, worst, IsRanking};
ghost use Rattle.wg_order.specs.Surely.{IsSurely};

use crate::arranging::arrange_first;
use crate::counting::count_surely_above;
use std::marker::Model;
use wg_rank::Bounds;

/// The first pages of the ranking by bounds, found without sorting the others. It holds the 64 bytes for each page of
/// the graph that the bounds held.
#[derive(Debug)]
pub struct FirstPages {
    count: usize,
    low: Vec<u128>,
    high: Vec<u128>,
    // In the first half, for each of the first pages, how many pages are surely below it; in the second half the first
    // pages as they are ranked.
    room: Vec<u128>,
}

impl Drop for FirstPages {
    fn drop(self) {
        let FirstPages {
            count,
            low,
            high,
            room,
        } = self;
    }
}

impl Model for FirstPages {
    ghost use Rattle.wg_order.specs.Order.{Positions};
    ghost use Rattle.wg_order.specs.Front.{positions_of, IsKept};

    ghost Value = { Positions };

    ghost view = { positions_of };

    ghost invariant = { IsKept };
}

impl FirstPages {
    /// The first `count` pages of the ranking by these bounds, which it takes over. It takes no memory, as it works
    /// where rounds added up what flows to the pages. It takes time for one selection among all pages, a sort of the
    /// first, and one look at each upper bound, with a binary search among the first pages for those that are below the
    /// lower bound of one.
    pub fn of(bounds: Bounds, count: u64) -> FirstPages
        requires few { count ≤ length bounds.low }
        ensures count { length result.pages ≡ count }
        ensures low { result.low ≡ bounds.low }
        ensures high { result.high ≡ bounds.high }
        ensures pages { (ranked : List ℕ) → IsRanking bounds.low bounds.high ranked
            → result.pages ≡ take count ranked }
        ensures surely { (g : Digraph) → IsGraph g → AreBoundsOf bounds g → IsSurely result bounds g }
    {
        let (low, high, mut room) = bounds.into_parts();
        let count = count as usize;
        arrange_first(&low, &high, &mut room, count);
        FirstPages {
            count,
            low,
            high,
            room,
        }
    }

    /// How many pages it has.
    pub fn len(&self) -> u64
        ensures { result ≡ length self.now.pages }
    {
        self.count as u64
    }

    /// The page at place `i`, counted from 0.
    pub fn page(&self, i: u64) -> u64
        requires { i < length self.now.pages }
        ensures value { result ≡ slice_index self.now.pages i }
        ensures within { result < length self.now.low }
    {
        self.first()[i as usize] as u64
    }

    /// The lower bound of the page at place `i`, in units of 10^-24.
    pub fn low(&self, i: u64) -> u128
        requires { i < length self.now.pages }
        ensures value { result ≡ by_page self.now.low (slice_index self.now.pages i) }
        ensures within { result ≤ UNITS }
    {
        self.low[self.page(i) as usize]
    }

    /// The upper bound of the page at place `i`, in units of 10^-24.
    pub fn high(&self, i: u64) -> u128
        requires { i < length self.now.pages }
        ensures value { result ≡ by_page self.now.high (slice_index self.now.pages i) }
        ensures within { result ≤ UNITS }
    {
        self.high[self.page(i) as usize]
    }

    /// The first position, counted from 1, that the bounds leave to the page at place `i`. It takes time in the
    /// logarithm of the first pages, if the page's lower bound is not above its upper one, as is so of all bounds of a
    /// graph; else it looks at all pages.
    pub fn best(&self, i: u64) -> u64
        requires { i < length self.now.pages }
        ensures { result ≡ best self.now (slice_index self.now.pages i) }
    {
        1 + count_surely_above(self.first(), &self.low, &self.high, i as usize) as u64
    }

    /// The last position, counted from 1, that the bounds leave to the page at place `i`.
    pub fn worst(&self, i: u64) -> u64
        requires { i < length self.now.pages }
        ensures { result ≡ worst self.now (slice_index self.now.pages i) }
    {
        (self.low.len() as u128 - self.room[i as usize]) as u64
    }

    // The first pages as they are ranked.
    fn first(&self) -> &[u128]
        ensures value { result.now ≡ self.now.pages }
        ensures front { AreFirst self.now.low self.now.high result.now }
        ensures few { length self.now.low ≤ MOST_PAGES }
    {
        &self.room[self.low.len()..][..self.count]
    }
}
