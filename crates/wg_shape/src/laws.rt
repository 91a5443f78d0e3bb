ghost use Rattle.wg_shape.specs.Laws.{ListsAreJoined, ThereIsAUnion, UnionsAreOne, UnionsCommute, UnionWithItself, ThereIsAQuotient, QuotientsAreOne, QuotientByPages, QuotientOfTransposed};

/// Two graphs have exactly one union, whichever comes first; that of a graph with itself is the graph.
pub fn unions()
    ensures lists { ListsAreJoined }
    ensures exists { ThereIsAUnion }
    ensures one { UnionsAreOne }
    ensures commute { UnionsCommute }
    ensures itself { UnionWithItself }
{}

/// A graph has exactly one quotient by classes of its pages; by pages alone it is the graph, and it does not matter
/// whether the arcs are reversed before or after.
pub fn quotients()
    ensures exists { ThereIsAQuotient }
    ensures one { QuotientsAreOne }
    ensures pages { QuotientByPages }
    ensures transposed { QuotientOfTransposed }
{}
