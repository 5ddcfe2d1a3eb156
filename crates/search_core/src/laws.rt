ghost use Rattle.search_core.specs.Laws.{RunsAreGood};

/// What holds after any events that can come: a call does nothing and brings the law.
pub fn core_laws()
    ensures { RunsAreGood }
{}
