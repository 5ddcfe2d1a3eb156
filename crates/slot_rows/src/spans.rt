//! Which numbers a box leaves a column.

ghost use Rattle.std.specs.Prelude.{◌≡◌, ◌<◌, ◌^◌, ◌==◌, length};
ghost use Rattle.std.specs.Int.{bit_at};
ghost use Rattle.linear_form.specs.Columns.{IsColumn};
ghost use Rattle.row_forms.specs.Columns.{extent_of};
ghost use Rattle.number_laws.specs.Sums.{when};
ghost use Rattle.slot_box.specs.Slots.{span, live_of};
ghost use Rattle.slot_rows.specs.Ranges.{live_span, bit_of_entry, entry_span, column_span};

use linear_form::{Column, IDLE_ENTRY, Part};
use plant_model::Plant;
use slot_box::{Slot, SlotBox, Span};

fn span(lo: u32, hi: u32) -> Span
    ensures { result ≡ span lo hi }
{
    Span { lo, hi }
}

fn when(test: bool, n: u32) -> u32
    ensures { result ≡ when test n }
{
    if test { n } else { 0 }
}

/// The numbers of an entry that may fill the slot, alone or as one of several.
fn live_span(alone: bool, slot: Slot, part: Part) -> Span
    ensures { result ≡ live_span alone slot part }
{
    match part {
        Part::Z => span(when(alone, 1), 1),
        Part::A(_) => span(0, slot.volume.hi),
        Part::S => span(when(alone, slot.start.lo), slot.start.hi),
        Part::E => span(when(alone, slot.end.lo), slot.end.hi),
        Part::W => span(0, 0),
    }
}

/// The bit of a column's entry in a set of entries.
fn bit_of_entry(entry: u8) -> u8
    ensures { result ≡ bit_of_entry entry }
{
    if entry == IDLE_ENTRY { 63 } else { entry }
}

/// Whether the entry of this bit is one of the set.
fn has_bit(set: u64, bit: u8) -> bool
    requires { bit < 64 }
    ensures { result ≡ (bit_at set bit == 1) }
{
    (set >> bit) & 1 == 1
}

/// Whether the entry of this bit is the only one of the set.
fn is_alone(set: u64, bit: u8) -> bool
    requires { bit < 64 }
    ensures { result ≡ (set == 2 ^ bit) }
{
    set == 1 << bit
}

/// The numbers of an entry, live or not.
fn entry_span(slot: Slot, live: u64, bit: u8, part: Part) -> Span
    requires live { live ≡ live_of slot }
    requires bit { bit < 64 }
    ensures { result ≡ entry_span slot bit part }
{
    if has_bit(live, bit) {
        live_span(is_alone(live, bit), slot, part)
    } else {
        span(0, 0)
    }
}

/// The numbers of a column of the box's forms.
pub(crate) fn column_span(plant: &Plant, bx: &SlotBox, column: Column) -> Span
    requires { IsColumn (extent_of plant.now (length bx.now)) column }
    ensures { result ≡ column_span plant.now bx.now column }
{
    plant.sound();
    if column.slot == 0 {
        return span(0, plant.horizon());
    }
    let slot = bx.slot(column.slot);
    entry_span(
        slot,
        bx.live(column.slot),
        bit_of_entry(column.entry),
        column.part,
    )
}
