//! What holds of the definitions.

ghost use Rattle.wg_ascii.specs.Laws.{TextsReadBack, SpellingsAgree, TextsAreOne, TextsAreSome};

/// The text of a graph stands for the graph.
pub fn texts_read_back()
    ensures { TextsReadBack }
{}

/// Two texts that are read are written as the same text exactly if they have the same words, line by line.
pub fn spellings()
    ensures { SpellingsAgree }
{}

/// A text stands for one graph or has one first fault.
pub fn one_graph()
    ensures one { TextsAreOne }
    ensures some { TextsAreSome }
{}
