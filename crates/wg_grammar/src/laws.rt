ghost use Rattle.wg_grammar.specs.Laws.{RecordIsOne, RecordIsSome, ListsAscend, NeverTooMany, ChainsAreLimited, PagesAreLimited, GraphIsOne, GraphIsSome, GraphIsProper, ArcsAreAsPromised, OffsetsAreAll};

/// Bits are one record or have one first fault.
pub fn one_record()
    ensures one { RecordIsOne }
    ensures some { RecordIsSome }
{}

/// The list of a record ascends within the graph, and is never longer than its outdegree.
pub fn lists()
    ensures ascend { ListsAscend }
    ensures never_too_many { NeverTooMany }
{}

/// If chains of references have a limit, no page of an archive is deeper: no more references than that lead on from
/// it, one after the other.
pub fn chains_are_limited()
    ensures records { ChainsAreLimited }
    ensures pages { PagesAreLimited }
{}

/// Bits stand for one graph or have one first fault.
pub fn one_graph()
    ensures one { GraphIsOne }
    ensures some { GraphIsSome }
{}

/// Bits that stand for a graph stand for a proper one, with the promised pages and arcs, and an offset for each record
/// and for the bit after the last.
pub fn graphs_are_proper()
    ensures proper { GraphIsProper }
    ensures arcs { ArcsAreAsPromised }
    ensures offsets { OffsetsAreAll }
{}
