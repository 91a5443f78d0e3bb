// The successors of one page, as they are drawn.

ghost use Rattle.std.specs.Prelude.{◌≡◌, ◌+◌, ◌<◌, ◌≤◌, ◌^◌, [], length};
ghost use Rattle.wg_params.specs.declared.limits.TheConstants.{MOST_PAGES};
ghost use Rattle.wg_graph.specs.Ascending.{Ascends, Below};
ghost use Rattle.wg_vectors.specs.Generated.{drawn, after_draw, with_successor, with_copied, copying, begun, scattered, extended, with_interval, drafted};

use arrayvec::ArrayVec;
use std::marker::Model;
use wg_graph::GraphBuilder;

/// The most successors of a page of a generated graph: 64 that are copied, 3 that are drawn, and an interval of 11.
pub const MOST_SUCCESSORS: usize = 78;

// How many of them are copied at most.
const MOST_COPIED: usize = 64;

// How far before a page a list stands at most that it copies from.
const FARTHEST: u64 = 7;

/// The successors of a page so far, in a buffer of their own, and the state of the generator.
#[derive(Drop)]
pub struct Draft {
    list: ArrayVec<u64, MOST_SUCCESSORS>,
    state: u64,
}

impl Model for Draft {
    ghost use Rattle.wg_vectors.specs.Generated.{Drafted};

    ghost Value = { Drafted };

    ghost view = { λ d. record { list = d.list.items; state = d.state } };
}

impl Draft {
    pub fn new(seed: u64) -> Draft
        ensures list { result.list ≡ [] }
        ensures state { result.state ≡ seed }
    {
        Draft {
            list: ArrayVec::new(),
            state: seed,
        }
    }

    pub fn successors(&self) -> &[u64]
        ensures { result.now ≡ self.now.list }
    {
        self.list.as_slice()
    }

    // The next number.
    #[inline(always)]
    fn draw(&mut self) -> u64
        ensures value { result ≡ drawn self.old.state }
        ensures after { self.new ≡ after_draw self.old }
        ensures within { result < 2 ^ 31 }
    {
        self.state = self
            .state
            .wrapping_mul(6364136223846793005)
            .wrapping_add(1442695040888963407);
        self.state >> 33
    }

    // Puts a successor into its place, if it is not there yet.
    #[inline(always)]
    fn add(&mut self, successor: u64)
        requires ascends { Ascends 0 self.old.list }
        requires room { length self.old.list < MOST_SUCCESSORS }
        ensures after { self.new ≡ with_successor successor self.old }
        ensures ascends { Ascends 0 self.new.list }
        ensures few { length self.new.list ≤ length self.old.list + 1 }
    {
        if let Err(place) = self.list.as_slice().binary_search(&successor) {
            self.list.insert(place, successor);
        }
    }

    // Draws whether a member of an earlier list is copied.
    #[inline(always)]
    fn copy_one(&mut self, member: u64)
        requires ascends { Ascends 0 self.old.list }
        requires few { length self.old.list ≤ MOST_COPIED }
        ensures after { self.new ≡ with_copied member self.old }
        ensures ascends { Ascends 0 self.new.list }
        ensures few { length self.new.list ≤ MOST_COPIED }
    {
        if self.draw() % 8 != 0 && self.list.len() < MOST_COPIED {
            self.add(member);
        }
    }

    // Draws which members of an earlier list are copied.
    fn copy(&mut self, list: &[u64])
        requires ascends { Ascends 0 self.old.list }
        requires few { length self.old.list ≤ MOST_COPIED }
        ensures after { self.new ≡ copying list.now self.old }
        ensures ascends { Ascends 0 self.new.list }
        ensures few { length self.new.list ≤ MOST_COPIED }
    {
        for member in list {
            self.copy_one(*member);
        }
    }

    // The first step, for this page, which comes after those that are begun.
    fn begin(&mut self, before: &GraphBuilder, page: u64)
        requires { length before.now.lists ≡ page }
        ensures after { self.new ≡ begun before.now.lists self.old.state }
        ensures ascends { Ascends 0 self.new.list }
        ensures few { length self.new.list ≤ MOST_COPIED }
    {
        self.list.clear();
        if page > 0 && self.draw() % 4 != 0 {
            let distance = 1 + self.draw() % page.min(FARTHEST);
            self.copy(before.list_so_far(page - distance));
        }
    }

    // The second step.
    fn scatter(&mut self, pages: u64)
        requires some { 0 < pages }
        requires ascends { Ascends 0 self.old.list }
        requires room { length self.old.list + 3 ≤ MOST_SUCCESSORS }
        ensures after { self.new ≡ scattered pages self.old }
        ensures ascends { Ascends 0 self.new.list }
        ensures few { length self.new.list ≤ length self.old.list + 3 }
    {
        let count = self.draw() % 4;
        for _ in 0..count {
            let successor = self.draw() % pages;
            self.add(successor);
        }
    }

    // Adds the pages of an interval, up to the last page.
    fn add_interval(&mut self, pages: u64, left: u64, size: u64)
        requires there { left < pages }
        requires pages { pages ≤ MOST_PAGES }
        requires ascends { Ascends 0 self.old.list }
        requires room { length self.old.list + size ≤ MOST_SUCCESSORS }
        ensures after { self.new ≡ with_interval pages left size self.old }
        ensures ascends { Ascends 0 self.new.list }
        ensures few { length self.new.list ≤ length self.old.list + size }
    {
        for successor in left..(left + size).min(pages) {
            self.add(successor);
        }
    }

    // The third step.
    fn extend(&mut self, pages: u64)
        requires some { 0 < pages }
        requires pages { pages ≤ MOST_PAGES }
        requires ascends { Ascends 0 self.old.list }
        requires room { length self.old.list + 11 ≤ MOST_SUCCESSORS }
        ensures after { self.new ≡ extended pages self.old }
        ensures ascends { Ascends 0 self.new.list }
        ensures few { length self.new.list ≤ length self.old.list + 11 }
    {
        if self.draw() % 4 == 0 {
            let left = self.draw() % pages;
            let size = 4 + self.draw() % 8;
            self.add_interval(pages, left, size);
        }
    }

    /// Draws the successors of this page, which comes after those that are begun.
    pub fn draw_list(&mut self, before: &GraphBuilder, page: u64)
        requires next { length before.now.lists ≡ page }
        requires there { page < before.now.nodes }
        ensures after { self.new ≡ drafted before.now.nodes before.now.lists self.old.state }
        ensures ascends { Ascends 0 self.new.list }
        ensures below { Below before.now.nodes self.new.list }
        ensures few { length self.new.list ≤ MOST_SUCCESSORS }
    {
        let pages = before.nodes();
        self.begin(before, page);
        self.scatter(pages);
        self.extend(pages);
    }
}
