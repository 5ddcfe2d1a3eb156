ghost use Rattle.overlap_graph.specs.Cliques.{EachIsClique, EachPairIsCovered};

use plant_model::Plant;

/// What is so of the cliques of a plant, for whoever reasons about them: a call does nothing and brings the laws.
pub fn clique_laws(plant: &Plant)
    ensures cliques { EachIsClique plant.now }
    ensures covered { EachPairIsCovered plant.now }
{
    plant.sound();
}
