ghost use Rattle.dual_bound.specs.Laws.{LowValuesAreContradictions, PointsAreAboveLeast};

/// What is so of dual values, for whoever reasons about them: a call does nothing and brings the laws.
pub fn dual_laws()
    ensures low { LowValuesAreContradictions }
    ensures points { PointsAreAboveLeast }
{}
