ghost use Rattle.std.specs.Prelude.{◌≡◌, ℕ, ◌<◌, ◌≤◌, ◌↔◌, true, false, IsTrue, length, slice_index, IfOk};
ghost use Rattle.wg_params.specs.declared.limits.TheConstants.{MOST_PAGES};
ghost use Rattle.wg_graph.specs.Digraph.{Digraph, IsGraph};
ghost use Rattle.wg_rank.specs.Intervals.{AreBoundsOf, by_page};
ghost use Rattle.wg_rank.specs.declared.limits.TheConstants.{UNITS};
ghost use Rattle.wg_order.specs.Inside.{IsRising};
ghost use Rattle.wg_order.specs.Order.{best, worst, IsRanking};
ghost use Rattle.wg_order.specs.Surely.{IsSurely};

use crate::arranging::arrange;
use crate::counting::{count_above, count_below};
use std::alloc::{AllocError, Global};
use std::marker::Model;
use wg_params::MOST_PAGES;
use wg_rank::Bounds;

/// Pages ranked by bounds. It holds 64 bytes for each page; those of a ranking that took bounds over are the bounds'
/// own.
#[derive(Debug)]
pub struct Ranking {
    filled: bool,
    low: Vec<u128>,
    high: Vec<u128>,
    // All pages as they are ranked, and then all upper bounds rising.
    sorted: Vec<u128>,
}

impl Drop for Ranking {
    fn drop(self) {
        let Ranking {
            filled,
            low,
            high,
            sorted,
        } = self;
    }
}

impl Model for Ranking {
    ghost use Rattle.wg_order.specs.Order.{Positions};
    ghost use Rattle.wg_order.specs.Inside.{positions_of, IsKept};

    ghost Value = { Positions };

    ghost view = { positions_of };

    ghost invariant = { IsKept };
}

impl Ranking {
    /// A ranking of `n` pages that is still to be filled. All memory of later calls is taken here. For more pages than
    /// a graph may have there is none.
    pub fn new(alloc: Global, n: u64) -> Result<Ranking, AllocError>
        ensures filled { IfOk result (λ r. r.filled ≡ false) }
        ensures pages { IfOk result (λ r. length r.low ≡ n) }
    {
        if n > MOST_PAGES {
            return Err(AllocError);
        }
        let n = n as usize;
        Ok(Ranking {
            filled: false,
            low: vec![in alloc; 0; n]?,
            high: vec![in alloc; 0; n]?,
            sorted: vec![in alloc; 0; 2 * n]?,
        })
    }

    /// The ranking of the pages by these bounds, which it takes over. It takes no memory, as the pages are sorted where
    /// rounds added up what flows to them, and time for two sorts.
    pub fn of(bounds: Bounds) -> Ranking
        ensures filled { result.filled ≡ true }
        ensures low { result.low ≡ bounds.low }
        ensures high { result.high ≡ bounds.high }
        ensures within { (v : ℕ) → v < length result.low → (by_page result.low v ≤ UNITS)
            × (by_page result.high v ≤ UNITS) }
        ensures ranking { IsRanking result.low result.high result.pages }
        ensures surely { (g : Digraph) → IsGraph g → AreBoundsOf bounds g → IsSurely result bounds g }
    {
        let (low, high, mut sorted) = bounds.into_parts();
        arrange(&low, &high, &mut sorted);
        Ranking {
            filled: true,
            low,
            high,
            sorted,
        }
    }

    /// Whether it was filled.
    pub fn filled(&self) -> bool
        ensures { IsTrue result ↔ self.now.filled ≡ true }
    {
        self.filled
    }

    /// The page at place `i`, counted from 0.
    pub fn page(&self, i: u64) -> u64
        requires place { i < length self.now.low }
        requires filled { self.now.filled ≡ true }
        ensures value { result ≡ slice_index self.now.pages i }
        ensures within { result < length self.now.low }
    {
        self.ranked()[i as usize] as u64
    }

    /// The lower bound of page `v`, in units of 10^-24.
    pub fn low(&self, v: u64) -> u128
        requires { v < length self.now.low }
        ensures { result ≡ slice_index self.now.low v }
    {
        self.low[v as usize]
    }

    /// The upper bound of page `v`, in units of 10^-24.
    pub fn high(&self, v: u64) -> u128
        requires { v < length self.now.low }
        ensures { result ≡ slice_index self.now.high v }
    {
        self.high[v as usize]
    }

    /// The first position, counted from 1, that the bounds leave to page `v`. It takes time in the logarithm of the
    /// pages.
    pub fn best(&self, v: u64) -> u64
        requires page { v < length self.now.low }
        requires filled { self.now.filled ≡ true }
        ensures { result ≡ best self.now v }
    {
        1 + count_above(self.ranked(), &self.low, self.high[v as usize]) as u64
    }

    /// The last position, counted from 1, that the bounds leave to page `v`. It takes time in the logarithm of the
    /// pages.
    pub fn worst(&self, v: u64) -> u64
        requires page { v < length self.now.low }
        requires filled { self.now.filled ≡ true }
        ensures { result ≡ worst self.now v }
    {
        (self.low.len() - count_below(self.rising(), self.low[v as usize])) as u64
    }

    /// Whether the bounds alone say that page `u` has a greater share than page `v`.
    pub fn surely_above(&self, u: u64, v: u64) -> bool
        requires u_page { u < length self.now.low }
        requires v_page { v < length self.now.low }
        requires filled { self.now.filled ≡ true }
        ensures { IsTrue result ↔ by_page self.now.high v < by_page self.now.low u }
    {
        self.low[u as usize] > self.high[v as usize]
    }

    /// Ranks the pages by these bounds, of as many pages, which it copies. It takes no memory, and time for two sorts.
    pub fn fill(&mut self, bounds: &Bounds)
        requires pages { length bounds.now.low ≡ length self.old.low }
        ensures filled { self.new.filled ≡ true }
        ensures low { self.new.low ≡ bounds.now.low }
        ensures high { self.new.high ≡ bounds.now.high }
        ensures ranking { IsRanking self.new.low self.new.high self.new.pages }
        ensures surely { (g : Digraph) → IsGraph g → AreBoundsOf bounds.now g → IsSurely self.new bounds.now g }
    {
        self.low.copy_from_slice(bounds.lower());
        self.high.copy_from_slice(bounds.upper());
        arrange(&self.low, &self.high, &mut self.sorted);
        self.filled = true;
    }

    // All pages as they are ranked.
    fn ranked(&self) -> &[u128]
        ensures value { result.now ≡ self.now.pages }
        ensures count { length result.now ≡ length self.now.low }
        ensures few { length self.now.low ≤ MOST_PAGES }
        ensures ranking { self.now.filled ≡ true → IsRanking self.now.low self.now.high result.now }
    {
        &self.sorted[..self.low.len()]
    }

    // All upper bounds, rising.
    fn rising(&self) -> &[u128]
        requires { self.now.filled ≡ true }
        ensures count { length result.now ≡ length self.now.low }
        ensures rising { IsRising self.now.high result.now }
    {
        &self.sorted[self.low.len()..]
    }
}
