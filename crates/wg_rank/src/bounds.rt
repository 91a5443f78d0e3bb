ghost use Rattle.std.specs.Prelude.{◌≡◌, ℕ, ◌+◌, ◌*◌, ◌<◌, ◌≤◌, length, replicate, slice_index, vec_len, IfOk};
ghost use Rattle.wg_params.specs.declared.limits.TheConstants.{MOST_PAGES, MOST_DAMPING, MOST_ROUNDS};
ghost use Rattle.wg_graph.specs.Digraph.{Digraph, arc_count};
ghost use Rattle.wg_rank.specs.Sum.{sum_below};
ghost use Rattle.wg_rank.specs.Rank.{gap};
ghost use Rattle.wg_rank.specs.Intervals.{AreBounds, IsTable, AreBoundsOf, next_low, next_high, by_page};
ghost use Rattle.wg_rank.specs.Certified.{IsCertified};
ghost use Rattle.wg_rank.specs.Weights.{AreWeights, weights_or_ones};
ghost use Rattle.wg_rank.specs.declared.limits.TheConstants.{UNITS};

use crate::advancing::advance;
use crate::{Gather, UNITS};
use std::alloc::{AllocError, Global};
use std::marker::Model;
use wg_graph::{List, Lists};

/// Bounds of the PageRank of each page, in units of 10^-24. They hold 64 bytes for each page, and 8 more if weights are
/// given.
#[derive(Debug)]
pub struct Bounds {
    // In thousandths.
    damping: u64,
    rounds: u64,
    // None if each page has the weight 1.
    weights: List,
    low: Vec<u128>,
    high: Vec<u128>,
    // Room for what flows to each page in a round, below and above, side by side, so that an arc reaches one place in
    // memory.
    inflows: Vec<u128>,
}

impl Drop for Bounds {
    fn drop(self) {
        let Bounds {
            damping,
            rounds,
            weights,
            low,
            high,
            inflows,
        } = self;
    }
}

impl Model for Bounds {
    ghost use Rattle.wg_rank.specs.BoundsInside.{intervals_of, AreKept};
    ghost use Rattle.wg_rank.specs.Intervals.{Intervals};

    ghost Value = { Intervals };

    ghost view = { intervals_of };

    ghost invariant = { AreKept };
}

impl Bounds {
    /// The bounds of `n` pages before the first round, 0 and 1, at a damping in thousandths. Teleport goes to each page
    /// alike. All memory of later rounds is taken here, but for the room of a [`crate::Pulling`].
    pub fn new(alloc: Global, n: u64, damping: u64) -> Result<Bounds, AllocError>
        requires pages { n ≤ MOST_PAGES }
        requires damping { damping ≤ MOST_DAMPING }
        ensures damping { IfOk result (λ b. b.damping ≡ damping) }
        ensures weights { IfOk result (λ b. b.weights ≡ replicate n 1) }
        ensures pages { IfOk result (λ b. length b.low ≡ n) }
        ensures rounds { IfOk result (λ b. b.rounds ≡ 0) }
        ensures holds { IfOk result (λ b. (g : Digraph) → g.nodes ≡ n → AreBoundsOf b g) }
    {
        Bounds::begin(alloc, n, damping, List::new(alloc))
    }

    /// Like [`Bounds::new`], but teleport goes to the pages by their weights, of which they keep a copy.
    pub fn weighted(
        alloc: Global,
        n: u64,
        damping: u64,
        weights: &List,
    ) -> Result<Bounds, AllocError>
        requires pages { n ≤ MOST_PAGES }
        requires damping { damping ≤ MOST_DAMPING }
        requires weights { AreWeights n weights.now }
        ensures damping { IfOk result (λ b. b.damping ≡ damping) }
        ensures weights { IfOk result (λ b. b.weights ≡ weights.now) }
        ensures pages { IfOk result (λ b. length b.low ≡ n) }
        ensures rounds { IfOk result (λ b. b.rounds ≡ 0) }
        ensures holds { IfOk result (λ b. (g : Digraph) → g.nodes ≡ n → AreBoundsOf b g) }
    {
        let mut held = List::new(alloc);
        held.extend(weights.as_slice())?;
        Bounds::begin(alloc, n, damping, held)
    }

    // The bounds before the first round, by these weights, or by the weight 1 if none are given.
    fn begin(alloc: Global, n: u64, damping: u64, weights: List) -> Result<Bounds, AllocError>
        requires pages { n ≤ MOST_PAGES }
        requires damping { damping ≤ MOST_DAMPING }
        requires weights { AreWeights n (weights_or_ones n weights) }
        ensures damping { IfOk result (λ b. b.damping ≡ damping) }
        ensures weights { IfOk result (λ b. b.weights ≡ weights_or_ones n weights) }
        ensures pages { IfOk result (λ b. length b.low ≡ n) }
        ensures rounds { IfOk result (λ b. b.rounds ≡ 0) }
        ensures holds { IfOk result (λ b. (g : Digraph) → g.nodes ≡ n → AreBoundsOf b g) }
    {
        let n = n as usize;
        Ok(Bounds {
            damping,
            rounds: 0,
            weights,
            low: vec![in alloc; 0; n]?,
            high: vec![in alloc; UNITS; n]?,
            inflows: vec![in alloc; 0; 2 * n]?,
        })
    }

    /// The damping, in thousandths.
    pub fn damping(&self) -> u64
        ensures value { result ≡ self.now.damping }
        ensures proper { AreBounds self.now }
    {
        self.damping
    }

    /// How many rounds are done.
    pub fn rounds(&self) -> u64
        ensures value { result ≡ self.now.rounds }
        ensures proper { AreBounds self.now }
    {
        self.rounds
    }

    /// The lower bounds of all pages, in units. They add up to at most 1.
    pub fn lower(&self) -> &[u128]
        ensures value { result.now ≡ self.now.low }
        ensures within { sum_below (length self.now.low) (by_page self.now.low) ≤ UNITS }
        ensures proper { AreBounds self.now }
    {
        &self.low
    }

    /// The upper bounds of all pages, in units.
    pub fn upper(&self) -> &[u128]
        ensures { result.now ≡ self.now.high }
    {
        &self.high
    }

    /// The lower bound of page `v`, in units.
    pub fn low(&self, v: u64) -> u128
        requires { v < length self.now.low }
        ensures value { result ≡ slice_index self.now.low v }
        ensures within { result ≤ UNITS }
    {
        self.low[v as usize]
    }

    /// The upper bound of page `v`, in units.
    pub fn high(&self, v: u64) -> u128
        requires { v < length self.now.low }
        ensures value { result ≡ slice_index self.now.high v }
        ensures within { result ≤ UNITS }
    {
        self.high[v as usize]
    }

    /// Gives up the bounds: the lower ones, the upper ones, and room for two numbers for each page, in which rounds
    /// added up what flows to it. Whoever takes them needs no memory of its own to go on.
    pub fn into_parts(self) -> (Vec<u128>, Vec<u128>, Vec<u128>)
        ensures low { result.0.items ≡ self.low }
        ensures high { result.1.items ≡ self.high }
        ensures room { vec_len result.2 ≡ 2 * length self.low }
        ensures within { (v : ℕ) → v < length self.low → (by_page self.low v ≤ UNITS) × (by_page self.high v ≤ UNITS) }
        ensures proper { AreBounds self }
    {
        let Bounds {
            damping: _,
            rounds: _,
            weights: _weights,
            low,
            high,
            inflows,
        } = self;
        (low, high, inflows)
    }

    /// Does one round, in one pass along the lists of a graph with as many pages. Each page's bounds are divided by its
    /// outdegree once, and for an arc it only adds. It takes no memory and cannot fail.
    pub fn round<L: Lists>(&mut self, lists: &mut L)
        requires pages { (L.graph lists.old).nodes ≡ length self.old.low }
        requires more { self.old.rounds < MOST_ROUNDS }
        ensures graph { L.graph lists.new ≡ L.graph lists.old }
        ensures damping { self.new.damping ≡ self.old.damping }
        ensures weights { self.new.weights ≡ self.old.weights }
        ensures rounds { self.new.rounds ≡ self.old.rounds + 1 }
        ensures low { IsTable self.new.low (L.graph lists.old).nodes (next_low (L.graph lists.old) self.old) }
        ensures high { IsTable self.new.high (L.graph lists.old).nodes (next_high (L.graph lists.old) self.old) }
        ensures holds { AreBoundsOf self.old (L.graph lists.old) → AreBoundsOf self.new (L.graph lists.old) }
        ensures certified { AreBoundsOf self.old (L.graph lists.old) → IsCertified self.new (L.graph lists.old) }
        ensures nested { AreBoundsOf self.old (L.graph lists.old) → (v : ℕ) → v < length self.old.low
            → (by_page self.old.low v ≤ by_page self.new.low v) × (by_page self.new.high v ≤ by_page self.old.high v) }
        ensures gap { let g = L.graph lists.old in AreBoundsOf self.old g → 0 < g.nodes
            → 1000 * gap g (by_page self.new.low)
            ≤ self.old.damping * gap g (by_page self.old.low) + self.old.damping * arc_count g + 3 * 1000 * g.nodes }
    {
        self.pull(lists);
    }

    /// Does one round by what is gathered along the lists, the runs or the in-lists of a graph with as many pages: each
    /// way leaves the same bounds. It takes no memory and cannot fail.
    pub fn pull<G: Gather>(&mut self, source: &mut G)
        requires pages { (G.graph source.old).nodes ≡ length self.old.low }
        requires more { self.old.rounds < MOST_ROUNDS }
        ensures graph { G.graph source.new ≡ G.graph source.old }
        ensures damping { self.new.damping ≡ self.old.damping }
        ensures weights { self.new.weights ≡ self.old.weights }
        ensures rounds { self.new.rounds ≡ self.old.rounds + 1 }
        ensures low { IsTable self.new.low (G.graph source.old).nodes (next_low (G.graph source.old) self.old) }
        ensures high { IsTable self.new.high (G.graph source.old).nodes (next_high (G.graph source.old) self.old) }
        ensures holds { AreBoundsOf self.old (G.graph source.old) → AreBoundsOf self.new (G.graph source.old) }
        ensures certified { AreBoundsOf self.old (G.graph source.old) → IsCertified self.new (G.graph source.old) }
        ensures nested { AreBoundsOf self.old (G.graph source.old) → (v : ℕ) → v < length self.old.low
            → (by_page self.old.low v ≤ by_page self.new.low v) × (by_page self.new.high v ≤ by_page self.old.high v) }
        ensures gap { let g = G.graph source.old in AreBoundsOf self.old g → 0 < g.nodes
            → 1000 * gap g (by_page self.new.low)
            ≤ self.old.damping * gap g (by_page self.old.low) + self.old.damping * arc_count g + 3 * 1000 * g.nodes }
    {
        self.rounds += 1;
        advance(
            source,
            self.damping,
            &mut self.low,
            &mut self.high,
            &mut self.inflows,
            self.weights.as_slice(),
        );
    }
}
