//! What holds of the definitions.

ghost use Rattle.wg_arcs.specs.Laws.{TextsAreOne, TextsAreSome, TextsReadBack, NumbersAreThose, FaultsAreFirst, OutcomesAreOne, NumbersReadBack};

/// The text of a graph stands for the graph.
pub fn texts_read_back()
    ensures { TextsReadBack }
{}

/// A text stands for one graph or has one first fault.
pub fn one_graph()
    ensures one { TextsAreOne }
    ensures some { TextsAreSome }
{}

/// A text of numbers gives numbers exactly if no line is faulty and they are those of the lines, and a fault exactly
/// if it is the first one; so each text has one outcome. Numbers below a limit, written one on a line, are read as
/// these numbers.
pub fn numbers_texts()
    ensures numbers { NumbersAreThose }
    ensures fault { FaultsAreFirst }
    ensures one { OutcomesAreOne }
    ensures read_back { NumbersReadBack }
{}
