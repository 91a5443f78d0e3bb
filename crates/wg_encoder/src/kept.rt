//! The lists that a reference may name.
ghost use Rattle.std.specs.Prelude.{◌≡◌, ◌-◌, ◌<◌, ◌≤◌, [], ◌∷◌, length, take, get_or, IfOk, OnOk};
ghost use Rattle.wg_grammar.specs.Context.{no_page, referenced};

use std::alloc::{AllocError, Global};
use std::marker::Model;
use wg_decoder::{Decoded, Spares, Window};
use wg_graph::List;
use wg_params::Params;

/// The lists of the pages before, with their depths, the nearest first; no more than a reference may reach.
///
/// Each list is a copy, with room for at most twice its numbers or for few; the list that left last gives its memory to
/// the next copy that fits there. An empty list has no memory, and nothing is kept of an archive without references.
#[derive(Debug, Drop)]
pub(crate) struct Kept {
    alloc: Global,
    most: u64,
    window: Window,
    spares: Spares,
}

impl Model for Kept {
    ghost use Rattle.std.specs.Prelude.{◌≡◌, ◌≤◌, length};
    ghost use Rattle.wg_decoder.specs.Remembered.{Remembered};

    ghost Value = { Remembered };

    ghost view = { λ k. k.window };

    ghost invariant = { λ k. (k.most ≡ k.window.window) × (length k.window.behind ≤ k.most) };
}

impl Kept {
    /// No pages, and no memory yet.
    pub(crate) fn new(alloc: Global, params: &Params) -> Kept
        ensures { result ≡ record { window = params.now.window; behind = [] } }
    {
        Kept {
            alloc,
            most: params.window(),
            window: Window::new(alloc, params),
            spares: Spares::new(alloc),
        }
    }

    /// The list that a reference names, empty for 0.
    #[inline(always)]
    pub(crate) fn list(&self, r: u64) -> &[u64]
        requires { r ≤ length self.now.behind }
        ensures { result.now ≡ referenced self.now.behind r }
    {
        if r == 0 {
            return &[];
        }
        match self.window.get(r) {
            Some(list) => list.as_slice(),
            None => unreachable!(),
        }
    }

    /// The depth of the page that a reference names.
    #[inline(always)]
    pub(crate) fn depth(&self, r: u64) -> u64
        requires some { 0 < r }
        requires there { r ≤ length self.now.behind }
        ensures { result ≡ (get_or self.now.behind (r - 1) no_page).depth }
    {
        match self.window.depth(r) {
            Some(depth) => depth,
            None => unreachable!(),
        }
    }

    // A copy to be kept; it takes no memory for no numbers.
    #[inline(always)]
    fn copy_of(&mut self, list: &[u64]) -> Result<List, AllocError>
        ensures copy { IfOk result (λ copy. copy ≡ list.now) }
        ensures same { self.new ≡ self.old }
    {
        if list.is_empty() {
            return Ok(List::new(self.alloc));
        }
        self.spares.copy_of(list)
    }

    // Keeps the memory of a list for the next copy, if it has some.
    #[inline(always)]
    fn take_furthest(&mut self, furthest: Option<Decoded>)
        ensures { self.new ≡ self.old }
    {
        if let Some(page) = furthest {
            if page.list.room() > 0 {
                self.spares.take_furthest(page.list);
            }
        }
    }

    /// Keeps the list of the page that comes next, and lets the furthest one go if there is one too many.
    #[inline(always)]
    pub(crate) fn keep(&mut self, list: &[u64], depth: u64) -> Result<(), AllocError>
        ensures window { self.new.window ≡ self.old.window }
        ensures behind { OnOk result (self.new.behind
            ≡ take self.old.window (record { list = list.now; depth = depth } ∷ self.old.behind)) }
    {
        if self.most == 0 {
            return Ok(());
        }
        let copy = self.copy_of(list)?;
        let furthest = self.window.exchange(copy, depth)?;
        self.take_furthest(furthest);
        Ok(())
    }
}
