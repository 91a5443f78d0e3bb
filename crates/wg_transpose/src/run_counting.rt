// How many runs and arcs lead to each page, and how many arcs leave it.

ghost use Rattle.std.specs.Prelude.{◌≡◌, ◌+◌, ◌<◌, ◌≤◌, length, sum, All};
ghost use Rattle.wg_params.specs.declared.limits.TheConstants.{MOST_ARCS};
ghost use Rattle.wg_graph.specs.Digraph.{Digraph, IsGraph, arc_count};
ghost use Rattle.wg_transpose.specs.Transposed.{predecessors};
ghost use Rattle.wg_transpose.specs.SoFar.{AreCounts, IsListOf};
ghost use Rattle.wg_transpose.specs.Runs.{runs_to, AreDegrees, IsCountOf};
ghost use Rattle.wg_transpose.specs.Held.{runs_below, AreCounted};
ghost use Rattle.wg_transpose.specs.declared.run.TheConstants.{MOST_PAGES_IN_RUNS};

use crate::count_arcs;
use wg_graph::Lists;

// Counts a run more to each page of the list to which page `page` begins one, and notes that its last run ends behind
// page `page` now.
#[tactic(auto, using(crate::proofs::Steps::target_below))]
fn count_runs(page: u32, list: &[u64], counts: &mut [u64], reach: &mut [u32])
    requires few { length counts.old ≤ MOST_PAGES_IN_RUNS }
    requires counted { (g : Digraph) × IsListOf g page list.now
        × AreCounted g.nodes (runs_below g page) counts.old reach.old }
    ensures counted { (g : Digraph) → IsListOf g page list.now
        → AreCounted g.nodes (runs_below g page) counts.old reach.old
        → AreCounted g.nodes (runs_below g (page + 1)) counts.new reach.new }
{
    for target in list {
        let place = *target as usize;
        if reach[place] != page {
            counts[place] += 1;
        }
        reach[place] = page + 1;
    }
}

// Counts all runs and arcs, each at the page that it leads to, and notes the outdegrees. Gives how many arcs there are.
#[tactic(auto, using(crate::proofs::RunWhole::degree_few))]
fn count_lists<L: Lists>(
    lists: &mut L,
    counts: &mut [u64],
    links: &mut [u64],
    reach: &mut [u32],
    degrees: &mut [u32],
) -> u64
    requires few_pages { (L.graph lists.old).nodes ≤ MOST_PAGES_IN_RUNS }
    requires few_arcs { arc_count (L.graph lists.old) ≤ MOST_ARCS }
    requires none { All (λ count. count ≡ 0) counts.old }
    requires no_links { All (λ count. count ≡ 0) links.old }
    requires nowhere { All (λ place. place ≡ MOST_PAGES_IN_RUNS) reach.old }
    requires counts { length counts.old ≡ (L.graph lists.old).nodes }
    requires links { length links.old ≡ (L.graph lists.old).nodes }
    requires reach { length reach.old ≡ (L.graph lists.old).nodes }
    requires degrees { length degrees.old ≡ (L.graph lists.old).nodes }
    ensures graph { L.graph lists.new ≡ L.graph lists.old }
    ensures proper { IsGraph (L.graph lists.old) }
    ensures counted { AreCounted (L.graph lists.old).nodes (runs_to (L.graph lists.old)) counts.new reach.new }
    ensures linked { AreCounts (L.graph lists.old).nodes (predecessors (L.graph lists.old)) links.new }
    ensures degrees { AreDegrees (L.graph lists.old) degrees.new }
    ensures arcs { result ≡ arc_count (L.graph lists.old) }
{
    let pages = lists.nodes();
    let mut arcs = 0;
    lists.begin();
    for page in 0..pages {
        if let Some(list) = lists.next_list() {
            count_runs(page as u32, list, counts, reach);
            count_arcs(list, links);
            degrees[page as usize] = list.len() as u32;
            arcs += list.len() as u64;
        }
    }
    arcs
}

// The sum of the counts.
fn total(counts: &[u64]) -> u64
    requires { sum counts.now ≤ MOST_ARCS }
    ensures { result ≡ sum counts.now }
{
    let mut all = 0;
    for count in counts {
        all += *count;
    }
    all
}

// Counts all runs and arcs, as [`count_lists`] does, and answers how many there are: runs, and arcs.
#[tactic(auto, using(crate::proofs::Totals::sum_is_all, crate::proofs::RunWhole::few_in_all))]
pub(crate) fn count<L: Lists>(
    lists: &mut L,
    counts: &mut [u64],
    links: &mut [u64],
    reach: &mut [u32],
    degrees: &mut [u32],
) -> (u64, u64)
    requires few_pages { (L.graph lists.old).nodes ≤ MOST_PAGES_IN_RUNS }
    requires few_arcs { arc_count (L.graph lists.old) ≤ MOST_ARCS }
    requires none { All (λ count. count ≡ 0) counts.old }
    requires no_links { All (λ count. count ≡ 0) links.old }
    requires nowhere { All (λ place. place ≡ MOST_PAGES_IN_RUNS) reach.old }
    requires counts { length counts.old ≡ (L.graph lists.old).nodes }
    requires links { length links.old ≡ (L.graph lists.old).nodes }
    requires reach { length reach.old ≡ (L.graph lists.old).nodes }
    requires degrees { length degrees.old ≡ (L.graph lists.old).nodes }
    ensures graph { L.graph lists.new ≡ L.graph lists.old }
    ensures counted { IsCountOf (L.graph lists.old) (record {
      counts = counts.new;
      links = links.new;
      degrees = degrees.new;
      runs = result.0;
      arcs = result.1;
    }) }
{
    let arcs = count_lists(lists, counts, links, reach, degrees);
    (total(counts), arcs)
}
