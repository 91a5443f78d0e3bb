ghost use Rattle.wg_transpose.specs.Laws.{ArcsAreReversed, TransposedIsProper, ArcsAreAsMany, TwiceGivesBack, ReversedIsOne, RangesAreFew, NumbersAreTheList, RunsStandApart, RunsAreOne};

/// A transposed graph has exactly the arcs of the graph, each the other way round, and transposed again it is the
/// graph. Ranges of pages that have a number of arcs each, but for the last, are few.
pub fn transposed_graphs()
    ensures reversed { ArcsAreReversed }
    ensures proper { TransposedIsProper }
    ensures arcs { ArcsAreAsMany }
    ensures twice { TwiceGivesBack }
    ensures one { ReversedIsOne }
    ensures ranges { RangesAreFew }
{}

/// The runs of an ascending list have its numbers, and as many numbers each as can be; no other runs do.
pub fn runs_of_lists()
    ensures numbers { NumbersAreTheList }
    ensures apart { RunsStandApart }
    ensures one { RunsAreOne }
{}
