//! What stands for the arcs that lead to one page.
ghost use Rattle.std.specs.Prelude.{◌≡◌, ℕ, ◌≤◌, ◌<◌, List, [], ◌++◌, length, All};
ghost use Rattle.wg_params.specs.declared.limits.TheConstants.{MOST_ARCS};
ghost use Rattle.wg_graph.specs.Ascending.{Ascends, Below};
ghost use Rattle.wg_transpose.specs.Runs.{runs_in, numbers_of_all, StandApart};
ghost use Rattle.wg_transpose.specs.Held.{run_mark, no_mark, no_run, AreBegun, IsNext};
ghost use Rattle.wg_transpose.specs.declared.run.TheConstants.{MOST_PAGES_IN_RUNS};
ghost use Rattle.wg_transpose.specs.Listed.{numbers_are, are_proper_runs, more_pages, pages_below};
ghost use Rattle.wg_transpose.specs.Grown.{more_runs};
ghost use Rattle.std.proofs.Common.{refl};

use crate::run::PageRun;

/// What stands for arcs that lead to one page: a page that links to it, or a run of such pages.
pub trait InArc: Copy {
    /// What stands for an ascending list of pages.
    ghost items: { List ℕ → List Self };

    /// The pages for which this stands.
    ghost pages: { List Self → List ℕ };

    /// This stands for pages below that one.
    ghost proper: { ℕ → List Self → Type 0 };

    /// What is noted of a list beside what stands for it.
    ghost mark: { List ℕ → ℕ };

    /// In place of what is not written yet.
    ghost none: { Self };

    /// Puts page `page` behind the others of list `target`, whose end is known, and so is where its last run ends, if
    /// these are runs.
    fn put(page: u32, target: usize, ends: &mut [u64], reach: &mut [u32], all: &mut [Self])
        requires few { length ends.old ≤ MOST_PAGES_IN_RUNS }
        requires room { length all.old ≤ MOST_ARCS }
        requires next { (n : ℕ) × (whole : ℕ → List ℕ) × (before : ℕ → List ℕ) × (after : ℕ → List ℕ)
            × IsNext items n whole before after target page
            × AreBegun items mark none n whole before ends.old reach.old all.old }
        ensures next { (n : ℕ) (whole before after : ℕ → List ℕ) → IsNext items n whole before after target page
            → AreBegun items mark none n whole before ends.old reach.old all.old
            → AreBegun items mark none n whole after ends.new reach.new all.new };

    ghost nothing: { items [] ≡ [] };

    ghost unmarked: { mark [] ≡ MOST_PAGES_IN_RUNS };

    ghost more: { (xs ys : List ℕ) → length (items xs) ≤ length (items (xs ++ ys)) };

    ghost gives_back: { (xs : List ℕ) → Ascends 0 xs → pages (items xs) ≡ xs };

    ghost are_proper: { (n : ℕ) (xs : List ℕ) → Ascends 0 xs → Below n xs → proper n (items xs) };
}

// Page by page.
impl InArc for u32 {
    ghost items = { λ pages. pages };

    ghost pages = { λ pages. pages };

    ghost proper = { λ n pages. All (λ u. u < n) pages };

    ghost mark = { no_mark };

    ghost none = { 0 };

    #[inline(always)]
    fn put(page: u32, target: usize, ends: &mut [u64], _reach: &mut [u32], all: &mut [u32]) {
        let end = ends[target];
        all[end as usize] = page;
        ends[target] = end + 1;
    }

    ghost nothing = { refl };

    ghost unmarked = { refl };

    ghost more = { more_pages };

    ghost gives_back = { λ pages ascend. refl };

    ghost are_proper = { λ n pages ascend below. pages_below n pages below };
}

// Run by run: the last one is made longer by the page, or the page begins one.
impl InArc for PageRun {
    ghost items = { runs_in };

    ghost pages = { numbers_of_all };

    ghost proper = { λ n runs. StandApart 0 runs × All (λ run. run.to ≤ n) runs };

    ghost mark = { run_mark };

    ghost none = { no_run };

    #[inline(always)]
    fn put(page: u32, target: usize, ends: &mut [u64], reach: &mut [u32], all: &mut [PageRun]) {
        let end = ends[target] as usize;
        if reach[target] == page {
            all[end - 1].to = page + 1;
        } else {
            all[end] = PageRun {
                from: page,
                to: page + 1,
            };
            ends[target] += 1;
        }
        reach[target] = page + 1;
    }

    ghost nothing = { refl };

    ghost unmarked = { refl };

    ghost more = { more_runs };

    ghost gives_back = { numbers_are };

    ghost are_proper = { are_proper_runs };
}
