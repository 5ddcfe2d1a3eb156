ghost use Rattle.std.specs.Prelude.{ℕ, List};
ghost use Rattle.plant_model.specs.declared.parts.Parts.{Parts};
ghost use Rattle.replay_core.specs.declared.timed.Timed.{Timed};
ghost use Rattle.plan_text.specs.PlanText.{ReadOneWay};
ghost use Rattle.plan_text.specs.Ledger.{TellsMargin, TellsStep, TellsEnd};

/// What is so of every text: it is read in one way. It does nothing when it runs.
pub fn plan_text_laws()
    ensures { (bytes : List ℕ) → ReadOneWay bytes }
{}

/// What every ledger tells: the margin, every operation, and at a place's last lines what it holds in the end. It does
/// nothing when it runs.
pub fn ledger_laws()
    ensures margin { (parts : Parts) (plan : List Timed) → TellsMargin parts plan }
    ensures steps { (parts : Parts) (before : List Timed) (t : Timed) (later : List Timed)
        → TellsStep parts before t later }
    ensures ends { (parts : Parts) (before : List Timed) (t : Timed) (later : List Timed)
        → TellsEnd parts before t later }
{}
