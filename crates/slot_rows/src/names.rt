//! Which names are names of rows.

ghost use Rattle.std.specs.Prelude.{◌≡◌, ◌<◌};
ghost use Rattle.plant_model.specs.Parts.{op_count_of};
ghost use Rattle.plant_model.specs.Relations.{independent_of};
ghost use Rattle.replay_core.specs.Rules.{unloads_later_vessel};
ghost use Rattle.slot_rows.specs.Names.{is_slot, has_next, are_slots, is_operation, is_choice_name, is_sided_name, is_clique_name, is_normal_name, is_idle_name, is_berth_name};

use plant_model::{OpKind, Plant};
use slot_box::RowName;

fn is_slot(n: u32, slot: u16) -> bool
    ensures { result ≡ is_slot n slot }
{
    0 < slot && u32::from(slot) <= n
}

fn has_next(n: u32, slot: u16) -> bool
    ensures { result ≡ has_next n slot }
{
    0 < slot && u32::from(slot) < n
}

fn are_slots(n: u32, i: u16, j: u16) -> bool
    ensures { result ≡ are_slots n i j }
{
    0 < i && i < j && u32::from(j) <= n
}

fn is_operation(plant: &Plant, v: u16) -> bool
    ensures { result ≡ is_operation plant.now v }
{
    v < plant.op_count().into()
}

/// Whether neither of two operations has to come before the other.
#[tactic(auto, unfolding(plant_model::specs::Relations::independent_of))]
fn are_independent(plant: &Plant, x: u16, y: u16) -> bool
    requires first { x < op_count_of plant.now }
    requires second { y < op_count_of plant.now }
    ensures { result ≡ independent_of plant.now x y }
{
    plant.sound();
    !plant.ordered(x as u8, y as u8)
}

/// Whether both unload at one berth, and the vessel of the first stands later in the list.
#[tactic(auto, unfolding(replay_core::specs::Rules::unloads_later_vessel))]
fn unloads_later_vessel(plant: &Plant, x: u16, y: u16) -> bool
    requires first { x < op_count_of plant.now }
    requires second { y < op_count_of plant.now }
    ensures { result ≡ unloads_later_vessel plant.now x y }
{
    plant.sound();
    let (a, b) = (plant.op(x as u8), plant.op(y as u8));
    a.kind == OpKind::Unload
        && b.kind == OpKind::Unload
        && plant.place(a.from).berth == plant.place(b.from).berth
        && b.from < a.from
}

pub(crate) fn is_choice_name(n: u32, name: RowName) -> bool
    ensures { result ≡ is_choice_name n name }
{
    is_slot(n, name.a) && name.b < 2 && name.c == 0 && name.d == 0
}

/// Whether it names a slot, an operation and one of so many sides.
pub(crate) fn is_sided_name(sides: u16, plant: &Plant, n: u32, name: RowName) -> bool
    ensures { result ≡ is_sided_name sides plant.now n name }
{
    is_slot(n, name.a) && is_operation(plant, name.b) && name.c < sides && name.d == 0
}

pub(crate) fn is_clique_name(cliques: &[u64], n: u32, name: RowName) -> bool
    ensures { result ≡ is_clique_name cliques.now n name }
{
    usize::from(name.a) < cliques.len() && are_slots(n, name.b, name.c) && name.d == 0
}

pub(crate) fn is_normal_name(plant: &Plant, n: u32, name: RowName) -> bool
    ensures { result ≡ is_normal_name plant.now n name }
{
    has_next(n, name.a)
        && is_operation(plant, name.b)
        && name.c < name.b
        && name.d == 0
        && are_independent(plant, name.b, name.c)
}

pub(crate) fn is_idle_name(n: u32, name: RowName) -> bool
    ensures { result ≡ is_idle_name n name }
{
    has_next(n, name.a) && name.b == 0 && name.c == 0 && name.d == 0
}

pub(crate) fn is_berth_name(plant: &Plant, n: u32, name: RowName) -> bool
    ensures { result ≡ is_berth_name plant.now n name }
{
    are_slots(n, name.a, name.b)
        && is_operation(plant, name.c)
        && is_operation(plant, name.d)
        && unloads_later_vessel(plant, name.c, name.d)
}
