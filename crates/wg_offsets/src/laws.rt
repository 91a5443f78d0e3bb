ghost use Rattle.wg_offsets.specs.Laws.{OffsetsAreOne, OffsetsAreSome, PlacesAreWithin};

/// Bits have one list of places or one first fault; and how its places lie.
pub fn one_offsets()
    ensures one { OffsetsAreOne }
    ensures some { OffsetsAreSome }
    ensures places { PlacesAreWithin }
{}
