ghost use Rattle.wg_rank.specs.Laws.{SharesAddUp, BoundsAreCertified, BoundsAreOne, GapsNarrow, RisingBoundsEnclose, LowerBoundsRise, ClaimsReadBack, ClaimsAreThose, FaultsAreFirst, OutcomesAreOne};

/// The shares of each exact iterate add up to 1.
pub fn iterates()
    ensures sums { SharesAddUp }
{}

/// Bounds that hold of a graph enclose its exact iterates and stationary vectors, within a stated width; and they are
/// the same by whatever lists of the graph they were found. What the lower bounds leave of 1, the gap, shrinks from
/// round to round by the damping, but for what is rounded: less than a unit for each arc and three for each page.
pub fn bounds()
    ensures certified { BoundsAreCertified }
    ensures one { BoundsAreOne }
    ensures narrower { GapsNarrow }
{}

/// Lower bounds that a round does not lower enclose every stationary vector, with what they leave of 1, and those that
/// rounds find are such bounds. The text of a certificate is read as this certificate.
pub fn certificates()
    ensures enclose { RisingBoundsEnclose }
    ensures complete { LowerBoundsRise }
    ensures read_back { ClaimsReadBack }
{}

/// The text of a certificate gives a claim exactly if no line is faulty and the claim is that of the lines, and a
/// fault exactly if it is the first one; so each text has one outcome.
pub fn certificate_texts()
    ensures claim { ClaimsAreThose }
    ensures fault { FaultsAreFirst }
    ensures one { OutcomesAreOne }
{}
