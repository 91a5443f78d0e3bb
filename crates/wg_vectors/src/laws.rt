//! What holds of all generated graphs.

ghost use Rattle.wg_vectors.specs.Laws.{GeneratedIsProper, GeneratedIsSparse};

/// A generated graph is proper: each page has one list, which ascends and has pages alone. No page has more than 78
/// successors.
pub fn generated_graphs()
    ensures proper { GeneratedIsProper }
    ensures sparse { GeneratedIsSparse }
{}
