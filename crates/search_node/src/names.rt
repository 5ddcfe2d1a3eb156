//! Names of rows, family by family.

ghost use Rattle.std.specs.Prelude.{◌≡◌, ◌+◌, ◌≤◌, ℕ, IsTrue};
ghost use Rattle.limits.specs.declared.TheConstants.{MOST_SLOTS};
ghost use Rattle.plant_model.specs.Parts.{op_count_of, place_count_of};
ghost use Rattle.search_node.specs.inside.Spans.{CoversFamily};

use plant_model::Plant;

/// The numbers from one on and below another.
#[derive(Clone, Copy, Debug, PartialEq, Eq)]
pub(crate) struct Numbers {
    pub from: u16,
    pub below: u16,
}

/// The names of a family whose four numbers are of these.
#[derive(Clone, Copy, Debug, PartialEq, Eq)]
pub(crate) struct NameSpans {
    pub family: u8,
    pub a: Numbers,
    pub b: Numbers,
    pub c: Numbers,
    pub d: Numbers,
}

/// 0 alone, which stands for what a family does not have.
const NOTHING: Numbers = Numbers { from: 0, below: 1 };

/// The sides of a row.
const SIDES: Numbers = Numbers { from: 0, below: 2 };

/// One number.
pub(crate) fn only(number: u16) -> Numbers
    requires { number + 1 ≤ u16.MAX }
    ensures from { result.from ≡ number }
    ensures below { result.below ≡ number + 1 }
{
    Numbers {
        from: number,
        below: number + 1,
    }
}

fn below(count: u8) -> Numbers
    ensures from { result.from ≡ 0 }
    ensures below { result.below ≡ count }
{
    Numbers {
        from: 0,
        below: count.into(),
    }
}

/// The slots from 1 up to one.
fn slots_to(last: u32) -> Numbers
    requires { last ≤ MOST_SLOTS }
    ensures from { result.from ≡ 1 }
    ensures below { result.below ≡ last + 1 }
{
    Numbers {
        from: 1,
        below: last as u16 + 1,
    }
}

/// A family that names a slot, an operation and one of so many sides: volumes, rates or windows.
pub(crate) fn operation_names(plant: &Plant, n: u32, family: u8, sides: u8) -> NameSpans
    requires { n ≤ MOST_SLOTS }
    ensures { family ≡ 2 → sides ≡ 2 → CoversFamily plant.now n 2 result }
{
    NameSpans {
        family,
        a: slots_to(n),
        b: below(plant.op_count()),
        c: below(sides),
        d: NOTHING,
    }
}

/// Limits on the properties of each charge in each slot.
pub(crate) fn limit_names(plant: &Plant, n: u32) -> NameSpans
    requires { n ≤ MOST_SLOTS }
{
    NameSpans {
        family: 7,
        a: slots_to(n),
        b: below(plant.op_count()),
        c: below(plant.property_count()),
        d: SIDES,
    }
}

/// Pairs of slots of each clique.
pub(crate) fn clique_names(cliques: &[u64], n: u32) -> NameSpans
    requires { n ≤ MOST_SLOTS }
{
    NameSpans {
        family: 8,
        a: Numbers {
            from: 0,
            below: cliques.len().min(usize::from(u16::MAX)) as u16,
        },
        b: before_last(n),
        c: slots_to(n),
        d: NOTHING,
    }
}

/// Totals of each vessel and tank up to each slot.
pub(crate) fn total_names(plant: &Plant, n: u32) -> NameSpans
    requires { n ≤ MOST_SLOTS }
    ensures { CoversFamily plant.now n 5 result }
{
    NameSpans {
        family: 5,
        a: below(plant.place_count()),
        b: slots_to(n),
        c: SIDES,
        d: NOTHING,
    }
}

/// A family that names a place and a side: demands, minutes or charges.
pub(crate) fn sided_names(plant: &Plant, family: u8) -> NameSpans
    ensures { (n : ℕ) → family ≡ 9 → CoversFamily plant.now n 9 result }
{
    NameSpans {
        family,
        a: below(plant.place_count()),
        b: SIDES,
        c: NOTHING,
        d: NOTHING,
    }
}

/// No more than one entry in each slot, and no fewer.
pub(crate) fn choice_names(n: u32) -> NameSpans
    requires { n ≤ MOST_SLOTS }
{
    NameSpans {
        family: 1,
        a: slots_to(n),
        b: SIDES,
        c: NOTHING,
        d: NOTHING,
    }
}

/// Amounts of each crude in each vessel and tank up to these slots.
pub(crate) fn amount_names(plant: &Plant, slots: Numbers) -> NameSpans {
    NameSpans {
        family: 6,
        a: below(plant.place_count()),
        b: slots,
        c: below(plant.crude_count()),
        d: NOTHING,
    }
}

/// The slots before the last one.
pub(crate) fn before_last(n: u32) -> Numbers
    requires { n ≤ MOST_SLOTS }
{
    slots_to(n.saturating_sub(1))
}

/// Of each vessel all that it has of each crude.
pub(crate) fn emptied_names(plant: &Plant) -> NameSpans {
    NameSpans {
        family: 10,
        a: below(plant.place_count()),
        b: below(plant.crude_count()),
        c: NOTHING,
        d: NOTHING,
    }
}

/// Pairs of neighbouring slots that are not in normal order.
pub(crate) fn normal_names(plant: &Plant, n: u32) -> NameSpans
    requires { n ≤ MOST_SLOTS }
{
    NameSpans {
        family: 13,
        a: before_last(n),
        b: below(plant.op_count()),
        c: below(plant.op_count()),
        d: NOTHING,
    }
}

/// Behind an idle slot the next one is idle.
pub(crate) fn idle_names(n: u32) -> NameSpans
    requires { n ≤ MOST_SLOTS }
{
    NameSpans {
        family: 14,
        a: before_last(n),
        b: NOTHING,
        c: NOTHING,
        d: NOTHING,
    }
}

/// Pairs of slots that unload the vessels of a berth the wrong way round.
pub(crate) fn berth_names(plant: &Plant, n: u32) -> NameSpans
    requires { n ≤ MOST_SLOTS }
{
    NameSpans {
        family: 15,
        a: before_last(n),
        b: slots_to(n),
        c: below(plant.op_count()),
        d: below(plant.op_count()),
    }
}

/// For how long a vessel waits, by each slot.
pub(crate) fn wait_names(plant: &Plant, n: u32) -> NameSpans
    requires { n ≤ MOST_SLOTS }
{
    NameSpans {
        family: 16,
        a: below(plant.place_count()),
        b: slots_to(n),
        c: NOTHING,
        d: NOTHING,
    }
}
