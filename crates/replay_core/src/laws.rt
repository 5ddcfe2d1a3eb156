ghost use Rattle.plant_model.specs.declared.parts.Parts.{Parts};
ghost use Rattle.plant_model.specs.Sound.{SoundPlant};
ghost use Rattle.replay_core.specs.Legal.{PrefixesCanRun, StepsAreInRange, DrawsAreVolumes};
ghost use Rattle.replay_core.specs.Margin.{MarginIsBounded};

/// What is so of every legal plan, for whoever reasons about plans: a call does nothing and brings
/// the laws.
pub fn legal_plan_laws()
    ensures prefixes { (parts : Parts) → PrefixesCanRun parts }
    ensures ranges { (parts : Parts) → StepsAreInRange parts }
    ensures draws { (parts : Parts) → SoundPlant parts → DrawsAreVolumes parts }
    ensures margin { (parts : Parts) → SoundPlant parts → MarginIsBounded parts }
{}
