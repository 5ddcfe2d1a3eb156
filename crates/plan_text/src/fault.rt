use std::alloc::AllocError;

/// Why bytes are no plan.
#[derive(Clone, Copy, Debug, PartialEq, Eq)]
pub enum PlanTextFault {
    /// The line of this number, counted from 1, is the first that is none of a plan.
    Line(u32),
    /// Memory ran out.
    Memory,
}

impl From<AllocError> for PlanTextFault {
    ghost use Rattle.std.specs.Prelude.{◌≡◌};
    ghost use Rattle.plan_text.specs.declared.fault.PlanTextFault.TheVariants.{Memory};

    ghost from_gives = { λ _ fault. fault ≡ Memory };

    fn from(_refused: AllocError) -> PlanTextFault {
        PlanTextFault::Memory
    }
}
