//! What flows to each page, gathered in one pass along the lists.

ghost use Rattle.std.specs.Prelude.{◌≡◌, ℕ, ◌*◌, ◌<◌, ◌≤◌, List, length, slice_index, All};
ghost use Rattle.wg_params.specs.declared.limits.TheConstants.{MOST_PAGES};
ghost use Rattle.wg_graph.specs.Digraph.{Digraph, IsGraph};
ghost use Rattle.wg_rank.specs.Intervals.{by_page};
ghost use Rattle.wg_rank.specs.Inflows.{AreFlows};
ghost use Rattle.wg_rank.specs.Rank.{low_flow, high_flow, sum_dangling};
ghost use Rattle.wg_rank.specs.declared.limits.TheConstants.{UNITS};

use crate::divisor::Divisors;
use crate::inflows::{high_flow, low_flow};
use crate::spreading::{spread, spread_low};
use wg_graph::Lists;

/// Where a round gathers what flows to each page.
pub trait Gather {
    /// The graph.
    ghost graph: { Self → Digraph };

    /// These bounds were shared out last, below and above. Sums that were written down for each page stand in the list.
    ghost has_shared: { Self → List ℕ → (ℕ → ℕ) → (ℕ → ℕ) → Type 0 };

    /// Shares out the bounds of each page among its successors, below and above, and gives what the dangling pages
    /// hold. All is in units of 10^-24. `inflows` is room for two sums of each page, and may hold anything. A page's
    /// share is divided out once. It takes no memory, and its time is by the pages, and along lists by the arcs too.
    fn share(&mut self, low: &[u128], high: &[u128], inflows: &mut [u128]) -> (u128, u128)
        requires few { length low.now ≤ MOST_PAGES }
        requires pages { (graph self.old).nodes ≡ length low.now }
        requires high_pages { length high.now ≡ length low.now }
        requires inflow_pages { length inflows.old ≡ 2 * length low.now }
        requires low_units { All (λ x. x ≤ UNITS) low.now }
        requires high_units { All (λ x. x ≤ UNITS) high.now }
        ensures graph { graph self.new ≡ graph self.old }
        ensures proper { IsGraph (graph self.old) }
        ensures shared { has_shared self.new inflows.new (by_page low.now) (by_page high.now) }
        ensures low_dangling { result.0 ≡ sum_dangling (graph self.old) (by_page low.now) }
        ensures high_dangling { result.1 ≡ sum_dangling (graph self.old) (by_page high.now) }
        ensures low_dangling_room { result.0 ≤ MOST_PAGES * UNITS }
        ensures high_dangling_room { result.1 ≤ MOST_PAGES * UNITS };

    /// What flows to a page along arcs of the bounds that were shared out last, below and above. `inflows` is as it was
    /// left then. Its time is by the runs or arcs to the page; along lists they were all gone through before.
    fn flow(&self, inflows: &[u128], v: u64) -> (u128, u128)
        requires few { (graph self.now).nodes ≤ MOST_PAGES }
        requires page { v < (graph self.now).nodes }
        requires shared { (l : ℕ → ℕ) × (h : ℕ → ℕ) × has_shared self.now inflows.now l h }
        ensures low { (l h : ℕ → ℕ) → has_shared self.now inflows.now l h → result.0 ≡ low_flow (graph self.now) l v }
        ensures high { (l h : ℕ → ℕ) → has_shared self.now inflows.now l h
            → result.1 ≡ high_flow (graph self.now) h v }
        ensures low_room { result.0 ≤ MOST_PAGES * UNITS }
        ensures high_room { result.1 ≤ MOST_PAGES * UNITS };
}

// In one pass along the lists: a page's share is added to the sums of each of its successors.
impl<L: Lists> Gather for L {
    ghost graph = { L.graph };

    ghost has_shared = { λ lists inflows l h. AreFlows (L.graph lists) l h inflows };

    fn share(&mut self, low: &[u128], high: &[u128], inflows: &mut [u128]) -> (u128, u128) {
        // tells that they are those of a graph
        let _pages = self.nodes();
        self.begin();
        inflows.fill(0);
        let divisors = Divisors::new();
        let mut low_dangling = 0;
        let mut high_dangling = 0;
        for u in 0..low.len() {
            if let Some(list) = self.next_list() {
                let degree = list.len() as u64;
                if degree == 0 {
                    low_dangling += low[u];
                    high_dangling += high[u];
                } else {
                    let outdegree = divisors.get(degree);
                    let below = outdegree.quotient(low[u]);
                    let above = outdegree.quotient_up(high[u]);
                    spread(inflows, list, below, above);
                }
            }
        }
        (low_dangling, high_dangling)
    }

    #[inline(always)]
    fn flow(&self, inflows: &[u128], v: u64) -> (u128, u128) {
        (
            low_flow(inflows, v as usize),
            high_flow(inflows, v as usize),
        )
    }
}

// Gathers the sums of the lower bounds alone, if `inflows` has one sum for each page.
pub(crate) fn gather_low<L: Lists>(lists: &mut L, low: &[u128], inflows: &mut [u128]) -> u128
    requires few { length low.now ≤ MOST_PAGES }
    requires pages { (L.graph lists.old).nodes ≡ length low.now }
    requires inflow_pages { length inflows.old ≡ length low.now }
    requires units { All (λ x. x ≤ UNITS) low.now }
    requires empty { All (λ x. x ≡ 0) inflows.old }
    ensures graph { L.graph lists.new ≡ L.graph lists.old }
    ensures proper { IsGraph (L.graph lists.old) }
    ensures flow { (v : ℕ) → v < length low.now
        → slice_index inflows.new v ≡ low_flow (L.graph lists.old) (by_page low.now) v }
    ensures dangling { result ≡ sum_dangling (L.graph lists.old) (by_page low.now) }
    ensures room { All (λ x. x ≤ MOST_PAGES * UNITS) inflows.new }
    ensures dangling_room { result ≤ MOST_PAGES * UNITS }
{
    // tells that they are those of a graph
    let _pages = lists.nodes();
    lists.begin();
    let divisors = Divisors::new();
    let mut dangling = 0;
    for u in 0..low.len() {
        if let Some(list) = lists.next_list() {
            let degree = list.len() as u64;
            if degree == 0 {
                dangling += low[u];
            } else {
                spread_low(inflows, list, divisors.get(degree).quotient(low[u]));
            }
        }
    }
    dangling
}
