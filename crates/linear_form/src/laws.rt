ghost use Rattle.linear_form.specs.Columns.{AreNumbered};

/// Each column has its own number below their count, and each such number its column. It does nothing when
/// it runs.
pub fn column_laws()
    ensures { AreNumbered }
{}
