use crate::table::RowTable;
use linear_form::Ranges;
use overlap_graph::Masks;
use plant_model::Plant;
use slot_box::SlotBox;

/// A box, with what entries are weighed by over it.
#[derive(Drop)]
pub(crate) struct Weighing<'a> {
    pub plant: &'a Plant,
    pub cliques: &'a Masks,
    pub table: &'a RowTable,
    pub bx: &'a SlotBox,
    /// The ranges that the box gives the columns of its forms.
    pub ranges: &'a Ranges,
    /// After so many pivots the simplex stops.
    pub pivots: u32,
    /// The best margin seen: a value that is no greater is as good as any.
    pub enough: Option<i64>,
}
