ghost use Rattle.std.specs.Prelude.{◌≡◌, ◌≤◌, IfOk};
ghost use Rattle.wg_params.specs.declared.limits.TheConstants.{MOST_GENERATED};
ghost use Rattle.wg_vectors.specs.Generated.{generated};

use crate::drafting::Draft;
use std::alloc::{AllocError, Global};
use wg_graph::{Graph, GraphBuilder};

/// The generated graph of `n` pages that follows from a seed, as large as one likes and like a web graph: many lists
/// share members with lists close before them, and have intervals. The same seed always gives the same graph.
///
/// The draws are those of a linear congruential generator whose state begins as the seed. Each page's successors are
/// drawn in three steps: three times in four, members of the list of one of the seven pages before it, 7 in 8 of them
/// and at most 64; then up to three of all pages; then, one time in four, an interval of 4 to 11 pages. A page has at
/// most 78 successors, and some ten on average.
///
/// It takes time in proportion to the arcs and pages, and holds the graph alone: 8 bytes for each arc and 8 for each
/// page, and while the lists grow up to twice that. It is refused only if memory runs out.
pub fn generate(alloc: Global, seed: u64, n: u64) -> Result<Graph, AllocError>
    requires { n ≤ MOST_GENERATED }
    ensures { IfOk result (λ g. g ≡ generated seed n) }
{
    let mut builder = GraphBuilder::new(alloc, n)?;
    let mut draft = Draft::new(seed);
    for page in 0..n {
        draft.draw_list(&builder, page);
        builder.push_list(draft.successors())?;
    }
    builder.finish()
}
