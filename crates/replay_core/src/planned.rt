use crate::timed::Plan;

/// A plan with its margin. A search finds it, a builder builds it, and a dossier tells it.
#[derive(Debug, Drop)]
pub struct Planned {
    pub plan: Plan,
    /// What the plan's charges earn, less the demurrage of its vessels.
    pub margin: i64,
}

/// What may be moved from one thread to another.
fn may_move<T: Send>(_value: &T) {}

fn planned_may_move(planned: &Planned) {
    may_move(planned);
}
