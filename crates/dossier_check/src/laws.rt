ghost use Rattle.dossier_check.specs.Claims.{AcceptedClaimsAreTrue};
ghost use Rattle.dossier_check.specs.Verdicts.{NothingStandsAgainstAccepted};

use leaf_value::leaf_laws;
use plant_model::Plant;
use slot_box::{split_laws, tree_laws};
use slot_forms::form_laws;

/// What is so of every dossier that is accepted for the plant, for whoever reasons about dossiers: a
/// call does nothing and brings the law.
pub fn accepted_claim_laws(plant: &Plant)
    ensures { AcceptedClaimsAreTrue plant.now }
{
    form_laws(plant);
    leaf_laws(plant);
}

/// What it means that nothing stands against a dossier: a call does nothing and brings the law.
pub fn reason_laws(plant: &Plant)
    ensures { NothingStandsAgainstAccepted plant.now }
{
    form_laws(plant);
    split_laws();
    tree_laws();
}
