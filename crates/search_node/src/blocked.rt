//! Boxes whose fixed operations begin no form that is sought.

ghost use Rattle.std.specs.Prelude.{◌≡◌, IfSome, IfNone, length};
ghost use Rattle.overlap_graph.specs.Independence.{independence_of};
ghost use Rattle.slot_box.specs.Boxes.{IsWithinRoot};
ghost use Rattle.plant_model.specs.Parts.{greatest_volume_of, horizon_of, op_count_of};
ghost use Rattle.leaf_value.specs.Blocked.{IsBlocked};
ghost use Rattle.leaf_value.specs.Settings.{plain_setting};
ghost use Rattle.search_node.specs.Laws.{IsUnblocked};

use plant_model::Plant;
use slot_automaton::Automaton;
use slot_box::SlotBox;

/// The number of slots, the first ones, that are fixed to the fewest operations that the automaton refuses.
pub(crate) fn first_blocked(plant: &Plant, automaton: &Automaton, bx: &SlotBox) -> Option<u32>
    requires automaton { automaton.now ≡ independence_of plant.now }
    requires within { IsWithinRoot (op_count_of plant.now) (greatest_volume_of plant.now) (horizon_of plant.now)
        bx.now }
    ensures some { IfSome result (IsBlocked (plain_setting plant.now (length bx.now)).case bx.now) }
    ensures none { IfNone result (IsUnblocked (plain_setting plant.now (length bx.now)) bx.now) }
{
    let mut state = automaton.start();
    for i in 0..bx.len() {
        let op = bx.fixed_at(i + 1)?;
        let Some(next) = automaton.step(state, op) else {
            return Some(i + 1);
        };
        state = next;
    }
    None
}
