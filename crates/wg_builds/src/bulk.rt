//! The command `bulk`: what comes of a generated graph.
ghost use Rattle.std.specs.Prelude.{◌≤◌};
ghost use Rattle.wg_params.specs.declared.limits.TheConstants.{MOST_GENERATED};
ghost use Rattle.wg_words.specs.declared.jobs.Job.TheVariants.{Bulk};
ghost use Rattle.wg_outcomes.specs.Performs.{DoesAlone};

use crate::generated::try_generated;
use std::alloc::Global;
use wg_outcomes::{Ending, print_piece};
use wg_outside::Sink;

/// Writes the archive of the generated graph of so many pages in memory, validates it as `check` does, ranks the pages
/// of the graph that its bytes stand for, and prints in six lines what comes of this. It makes no call of a depot but
/// its own, and the archive is never refused: out of memory or a fault of the output alone can stop it.
///
/// First it holds the generated graph and the archive, then the archive and what `check` holds; then the archive, the
/// bytes of its graph file again and the graph that they stand for; and last this graph and the bounds of its pages. A
/// graph takes 8 bytes a page and 8 an arc, and up to twice that while its lists grow; the archive little more than a
/// byte an arc and two a page, and up to twice that while its files grow; bounds take 64 bytes a page, in which they
/// are sorted too. A page has some ten arcs. The time is in proportion to pages and arcs, but for the sorting of the
/// bounds.
pub fn bulk<O: Sink>(alloc: Global, seed: u64, pages: u64, out: &mut O) -> Result<(), Ending>
    requires { pages ≤ MOST_GENERATED }
    ensures does { DoesAlone ⟦<O as Sink>⟧ (Bulk seed pages) out.old out.new result }
    ensures later { O.later out.old out.new }
{
    let outcome = try_generated(alloc, seed, pages)?;
    print_piece(out, outcome.text().as_bytes())
}
