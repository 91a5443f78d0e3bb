//! What holds of the intervals and residuals of a list, whoever splits it.
ghost use Rattle.wg_intervals.specs.Laws.{AreTogether, AreOnce, PartsAscend, AreLong, ResidualsAreShort};

/// Intervals and residuals are the numbers that were split, and no residual could stand in an interval.
pub fn canonical_intervals()
    ensures together { AreTogether }
    ensures once { AreOnce }
    ensures ascend { PartsAscend }
    ensures long { AreLong }
    ensures short { ResidualsAreShort }
{}
