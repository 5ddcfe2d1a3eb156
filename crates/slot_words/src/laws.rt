ghost use Rattle.slot_words.specs.Laws.{PlansAreSlotLegal, SwapsKeepTheMeaning, SwapsKeepTheEntries, SortedWordsArePlans};

use plant_model::Plant;

/// What is so of the words of the plant, for whoever reasons about them: a call does nothing and brings the laws.
pub fn word_laws(plant: &Plant)
    ensures plans { PlansAreSlotLegal plant.now }
    ensures meaning { SwapsKeepTheMeaning plant.now }
    ensures entries { SwapsKeepTheEntries plant.now }
    ensures sorted { SortedWordsArePlans plant.now }
{
    plant.sound();
}
