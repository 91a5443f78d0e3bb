//! What flows to each page, along what stands for the pages that link to it.
ghost use Rattle.std.specs.Prelude.{◌≡◌, ℕ, ◌+◌, ◌≤◌, List, length, All, IfOk};
ghost use Rattle.std.specs.List.{sum_by};
ghost use Rattle.wg_params.specs.declared.limits.TheConstants.{MOST_PAGES};
ghost use Rattle.wg_graph.specs.Digraph.{Digraph, IsGraph};
ghost use Rattle.wg_transpose.specs.Transposed.{predecessors};
ghost use Rattle.wg_transpose.specs.declared.run.TheConstants.{MOST_PAGES_IN_RUNS};
ghost use Rattle.wg_rank.specs.Sum.{sum_below};
ghost use Rattle.wg_rank.specs.Rank.{sum_dangling};
ghost use Rattle.wg_rank.specs.Intervals.{by_page};
ghost use Rattle.wg_rank.specs.Lanes.{in_lanes, page_lane, AreWritten};
ghost use Rattle.wg_rank.specs.Pulling.{low_share, high_share, given};
ghost use Rattle.wg_rank.specs.declared.limits.TheConstants.{UNITS};

use crate::divisor::Divisors;
use crate::gathering::Gather;
use crate::lanes::in_lanes;
use std::alloc::{AllocError, Global};
use std::marker::Model;
use std::simd::u64x4;
use wg_transpose::{InArc, InArcs};

/// How rounds go along what stands for the pages that link to each page: runs, or these pages one by one.
pub trait Along: InArc {
    /// What is written for a page, if the pages give this below and above, in lanes.
    ghost lane: { (ℕ → ℕ) → (ℕ → ℕ) → ℕ → List ℕ };

    /// What is written for a page that gives `given` to each of its successors, if all pages below it give `total`.
    fn lane_of(total: u64x4, given: u64x4) -> u64x4
        ensures { (low high : ℕ → ℕ) (u : ℕ) → total ≡ in_lanes (sum_below u) low high → given ≡ page_lane low high u
            → result ≡ lane low high u };

    /// What flows to a page along `arcs`, below and above, if `lanes` was written for all pages, and behind the last
    /// one what all of them give.
    fn flow(lanes: &[u64x4], arcs: &[Self]) -> (u128, u128)
        requires few { length lanes.now ≤ MOST_PAGES + 1 }
        requires written { (g : Digraph) × (v : ℕ) × (low : ℕ → ℕ) × (high : ℕ → ℕ)
            × (Self.pages arcs.now ≡ predecessors g v) × Self.proper g.nodes arcs.now
            × AreWritten lane g.nodes low high lanes.now }
        ensures low { (g : Digraph) (v : ℕ) (low high : ℕ → ℕ) → Self.pages arcs.now ≡ predecessors g v
            → Self.proper g.nodes arcs.now → AreWritten lane g.nodes low high lanes.now
            → result.0 ≡ sum_by low (predecessors g v) }
        ensures high { (g : Digraph) (v : ℕ) (low high : ℕ → ℕ) → Self.pages arcs.now ≡ predecessors g v
            → Self.proper g.nodes arcs.now → AreWritten lane g.nodes low high lanes.now
            → result.1 ≡ sum_by high (predecessors g v) };
}

/// What stands for the pages that link to each page of a graph, and the room for a round along it. It is seen as the
/// graph, and what its pages give to their successors. It holds 32 bytes for each page, and 32, beside the arcs.
#[derive(Debug)]
pub struct Pulling<T: Along> {
    arcs: InArcs<T>,
    // What is written for each page, and behind the last one what all of them give.
    lanes: Vec<u64x4>,
}

impl<T: Along> Drop for Pulling<T> {
    fn drop(self) {
        let Pulling { arcs, lanes } = self;
    }
}

impl<T: Along> Model for Pulling<T> {
    ghost use Rattle.std.specs.Prelude.{◌≡◌, ◌+◌, length};
    ghost use Rattle.wg_rank.specs.Pulling.{Pulled};

    ghost Value = { Pulled };

    ghost view = { λ p. record { graph = p.arcs; lanes = p.lanes.items } };

    ghost invariant = { λ p. length p.lanes.items ≡ p.arcs.nodes + 1 };
}

impl<T: Along> Pulling<T> {
    /// Takes the room of all rounds along these arcs.
    pub fn new(alloc: Global, arcs: InArcs<T>) -> Result<Pulling<T>, AllocError>
        ensures { IfOk result (λ p. p.graph ≡ arcs) }
    {
        let lanes = vec![in alloc; u64x4::splat(0); arcs.nodes() as usize + 1]?;
        Ok(Pulling { arcs, lanes })
    }

    /// How many pages the graph has.
    pub fn nodes(&self) -> u64
        ensures value { result ≡ self.now.graph.nodes }
        ensures within { result ≤ MOST_PAGES_IN_RUNS }
        ensures proper { IsGraph self.now.graph }
    {
        self.arcs.nodes()
    }
}

// It is written for each page what it gives, and what flows to a page is then had along what stands for the pages that
// link to it.
impl<T: Along> Gather for Pulling<T> {
    ghost graph = { λ p. p.graph };

    ghost has_shared = { λ p _ l h. AreWritten T.lane p.graph.nodes (given p.graph (low_share p.graph l))
        (given p.graph (high_share p.graph h)) p.lanes };

    fn share(&mut self, low: &[u128], high: &[u128], _inflows: &mut [u128]) -> (u128, u128) {
        // tells that the lists are those of a graph
        let _pages = self.arcs.nodes();
        share_out(&self.arcs, low, high, &mut self.lanes)
    }

    #[inline(always)]
    fn flow(&self, _inflows: &[u128], v: u64) -> (u128, u128) {
        T::flow(&self.lanes, self.arcs.of_page(v))
    }
}

// Writes for each page what it gives to each of its successors, and behind the last one what all of them give. A page
// without successors gives nothing there; the answer is what these hold, below and above.
fn share_out<T: Along>(
    arcs: &InArcs<T>,
    low: &[u128],
    high: &[u128],
    lanes: &mut [u64x4],
) -> (u128, u128)
    requires few { length low.now ≤ MOST_PAGES }
    requires pages { arcs.now.nodes ≡ length low.now }
    requires high_pages { length high.now ≡ length low.now }
    requires lane_pages { length lanes.old ≡ length low.now + 1 }
    requires low_units { All (λ x. x ≤ UNITS) low.now }
    requires high_units { All (λ x. x ≤ UNITS) high.now }
    ensures written { AreWritten T.lane arcs.now.nodes (given arcs.now (low_share arcs.now (by_page low.now)))
        (given arcs.now (high_share arcs.now (by_page high.now))) lanes.new }
    ensures low_dangling { result.0 ≡ sum_dangling arcs.now (by_page low.now) }
    ensures high_dangling { result.1 ≡ sum_dangling arcs.now (by_page high.now) }
{
    let divisors = Divisors::new();
    let mut total = u64x4::splat(0);
    let mut low_dangling = 0;
    let mut high_dangling = 0;
    for u in 0..low.len() {
        let degree = u64::from(arcs.degree(u as u64));
        if degree == 0 {
            low_dangling += low[u];
            high_dangling += high[u];
            lanes[u] = T::lane_of(total, u64x4::splat(0));
        } else {
            let outdegree = divisors.get(degree);
            let given = in_lanes(outdegree.quotient(low[u]), outdegree.quotient_up(high[u]));
            lanes[u] = T::lane_of(total, given);
            total += given;
        }
    }
    lanes[low.len()] = total;
    (low_dangling, high_dangling)
}
