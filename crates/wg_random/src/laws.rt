//! What holds of all pages that are read by their chains alone, stated as contracts of functions that do nothing.
ghost use Rattle.wg_random.specs.SpotLaws.{SpotIsOne, SpotIsSome, SpotAgrees};

/// A page of an archive that was not checked has one list or one first fault.
pub fn spots_are_one()
    ensures one { SpotIsOne }
    ensures some { SpotIsSome }
{}

/// A page of an archive that is accepted has its list of the graph.
pub fn spots_agree()
    ensures { SpotAgrees }
{}
