//! Which way rounds find what flows to each page.
ghost use Rattle.std.specs.Prelude.{◌≡◌, ◌+◌, ◌*◌, ◌<◌, ◌≤◌};
ghost use Rattle.wg_params.specs.declared.limits.TheConstants.{MOST_PAGES};
ghost use Rattle.wg_rank.specs.declared.ways.TheConstants.{MOST_ROUND_ROOM, PAGE_ROUND_ROOM};

/// The most bytes a page that rounds may hold beside the bounds.
pub const MOST_ROUND_ROOM: u64 = 192;

/// How many of these bytes a page takes in rounds along runs or along in-lists, however few of these it has: 32 for the
/// lanes of what pages give, 8 for where its runs or its in-list end, and 4 for its outdegree.
pub const PAGE_ROUND_ROOM: u64 = 44;

/// How rounds find what flows to each page.
#[derive(Clone, Copy, Debug, PartialEq, Eq)]
pub enum Way {
    /// Along the runs of the pages that link to it.
    Runs,
    /// Along the list of the pages that link to it.
    InLists,
    /// Along the lists of successors, which are read in each round.
    Lists,
}

/// The way for a graph of so many runs, arcs and pages: along runs or along in-lists, whichever take less, if they fit
/// [`MOST_ROUND_ROOM`]. Runs take 8 bytes each, in-lists 4 for each arc, and both [`PAGE_ROUND_ROOM`] for each page. So
/// it is along runs if at most every other arc begins one; then there are no more places to read than along in-lists.
pub fn way_for(runs: u64, arcs: u64, pages: u64) -> Way
    requires pages { pages ≤ MOST_PAGES }
    ensures runs { result ≡ Way.Runs → (2 * runs ≤ arcs)
        × (8 * runs + PAGE_ROUND_ROOM * pages ≤ MOST_ROUND_ROOM * pages) }
    ensures in_lists { result ≡ Way.InLists → (arcs < 2 * runs)
        × (4 * arcs + PAGE_ROUND_ROOM * pages ≤ MOST_ROUND_ROOM * pages) }
    ensures lists { result ≡ Way.Lists → (MOST_ROUND_ROOM * pages < 8 * runs + PAGE_ROUND_ROOM * pages)
        × (MOST_ROUND_ROOM * pages < 4 * arcs + PAGE_ROUND_ROOM * pages) }
{
    let room = (MOST_ROUND_ROOM - PAGE_ROUND_ROOM) * pages;
    let few_runs = runs <= arcs / 2;
    if few_runs && runs <= room / 8 {
        return Way::Runs;
    }
    if !few_runs && arcs <= room / 4 {
        return Way::InLists;
    }
    Way::Lists
}
