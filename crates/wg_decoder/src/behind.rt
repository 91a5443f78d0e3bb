//! What is known of the pages before one.
ghost use Rattle.std.specs.Prelude.{◌≡◌, ◌<◌, ◌≤◌, ℕ, List, length, get_or, replicate};
ghost use Rattle.wg_grammar.specs.Context.{Known, referenced, depth_of, no_page};
ghost use Rattle.wg_decoder.specs.Handed.{page_of};

use crate::Window;

/// What is known of the pages before one, the nearest first, by the references to them.
pub trait Behind {
    ghost pages: { Self → List Known };

    /// The list of the page that a reference names; empty for 0.
    fn list_at(&self, reference: u64) -> &[u64]
        requires { reference ≤ length (pages self.now) }
        ensures { result.now ≡ referenced (pages self.now) reference };

    /// How many references lead on from a page with this one: one more than from the page that it names; none for 0.
    fn depth_at(&self, page: u64, reference: u64) -> u64
        requires there { reference ≤ length (pages self.now) }
        requires depths { (i : ℕ) → i < reference → (get_or (pages self.now) i no_page).depth < page }
        ensures depth { result ≡ depth_of (pages self.now) reference }
        ensures within { result ≤ page };
}

impl Behind for Window {
    ghost pages = { λ w. w.behind };

    #[inline(always)]
    fn list_at(&self, reference: u64) -> &[u64] {
        match self.get(reference) {
            Some(list) => list.as_slice(),
            None => &[],
        }
    }

    #[inline(always)]
    fn depth_at(&self, page: u64, reference: u64) -> u64 {
        match self.depth(reference) {
            Some(depth) => depth + 1,
            None => 0,
        }
    }
}

// One page, if no other is known: each reference names it.
#[derive(Clone, Copy)]
pub struct Alone<'a> {
    pub window: u64,
    pub list: &'a [u64],
    pub depth: u64,
}

impl<'a> Behind for Alone<'a> {
    ghost pages = { λ a. replicate a.window (page_of a.list.now a.depth) };

    #[inline(always)]
    fn list_at(&self, reference: u64) -> &[u64] {
        if reference == 0 { &[] } else { self.list }
    }

    #[inline(always)]
    fn depth_at(&self, page: u64, reference: u64) -> u64 {
        if reference == 0 { 0 } else { self.depth + 1 }
    }
}
