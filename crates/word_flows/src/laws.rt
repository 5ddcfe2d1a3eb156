ghost use Rattle.std.specs.Prelude.{ℕ, sum};
ghost use Rattle.word_flows.specs.Runs.{CanRunAsRuns};
ghost use Rattle.word_flows.specs.Flows.{IsAdditive, amount_of, RunsBalance, BeginsAsGiven};
ghost use Rattle.word_flows.specs.Levels.{MinimumsAreKept, MaximumsAreKept};
ghost use Rattle.word_flows.specs.Steps.{RunsAreInRange, RunsMeetRates, RunsDrawVolumes, RunsMeetLimits};
ghost use Rattle.word_flows.specs.Pairs.{RunsWait, VesselsTakeTurns};
ghost use Rattle.word_flows.specs.Ends.{LegalWordsEndWell};
ghost use Rattle.word_flows.specs.Sums.{CountsAreSumsOfSteps, ChargesAreDrawn};
ghost use Rattle.word_flows.specs.LastEnds.{LastEndsAreReached};

use plant_model::Plant;

/// What is so of the runs of the plant, for whoever reasons about words slot by slot: a call does nothing and brings
/// the laws.
pub fn flow_laws(plant: &Plant)
    ensures runs { CanRunAsRuns plant.now }
    ensures ends { LegalWordsEndWell plant.now }
    // what each place holds
    ensures totals { IsAdditive sum }
    ensures crudes { (c : ℕ) → IsAdditive (amount_of c) }
    ensures balances { RunsBalance plant.now }
    ensures given { BeginsAsGiven plant.now }
    ensures minimums { MinimumsAreKept plant.now }
    ensures maximums { MaximumsAreKept plant.now }
    // each operation, and two of them
    ensures ranges { RunsAreInRange plant.now }
    ensures rates { RunsMeetRates plant.now }
    ensures volumes { RunsDrawVolumes plant.now }
    ensures limits { RunsMeetLimits plant.now }
    ensures waits { RunsWait plant.now }
    ensures turns { VesselsTakeTurns plant.now }
    // what a word has charged and unloaded
    ensures counts { CountsAreSumsOfSteps plant.now }
    ensures charged { ChargesAreDrawn plant.now }
    ensures last_ends { LastEndsAreReached plant.now }
{
    plant.sound();
}
