ghost use Rattle.normal_order.specs.Laws.{WordsHaveNormalForms, NormalWordsAreLeast};

use plant_model::Plant;

/// What is so of normal words, for whoever reasons about them: a call does nothing and brings the laws.
pub fn normal_order_laws(plant: &Plant)
    ensures forms { WordsHaveNormalForms plant.now }
    ensures least { NormalWordsAreLeast plant.now }
{
    plant.sound();
}
