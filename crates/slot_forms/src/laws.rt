ghost use Rattle.std.specs.Prelude.{ℕ, Option};
ghost use Rattle.slot_forms.specs.Cases.{Begun, PlainCasesSayTheSame, PlainRootsAreBoxes};
ghost use Rattle.slot_forms.specs.Forms.{PlansHaveForms};

use normal_order::normal_order_laws;
use plant_model::Plant;
use replay_core::legal_plan_laws;
use slot_box::box_laws;
use slot_words::word_laws;

/// What is so of the cases of the plant and their slot forms, for whoever reasons about them: a call does nothing and
/// brings the laws.
pub fn form_laws(plant: &Plant)
    ensures boxes { PlainRootsAreBoxes plant.now }
    ensures forms { (slots : ℕ) (begun : Option Begun)
        → PlansHaveForms (record { parts = plant.now; slots = slots; begun = begun }) }
    ensures same { PlainCasesSayTheSame plant.now }
{
    plant.sound();
    legal_plan_laws();
    box_laws();
    word_laws(plant);
    normal_order_laws(plant);
}
