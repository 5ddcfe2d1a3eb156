ghost use Rattle.number_laws.specs.Floors.{FloorsAreGreatest};

/// What a quotient rounded toward minus infinity is. It does nothing when it runs.
pub fn floor_laws()
    ensures { FloorsAreGreatest }
{}
