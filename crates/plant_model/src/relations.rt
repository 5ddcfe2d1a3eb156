ghost use Rattle.std.specs.Prelude.{◌≡◌, ◌<◌, IsTrue, IsFalse};
ghost use Rattle.plant_model.specs.Relations.{share_berth, one_feeds_other, both_charge_from_one_tank, both_charge_one_unit};

use crate::details::{Op, OpKind};
use crate::plant::Plant;

fn one_feeds_other(a: Op, b: Op) -> bool
    ensures { result ≡ one_feeds_other a b }
{
    a.to == b.from || b.to == a.from
}

fn both_charge_from_one_tank(a: Op, b: Op) -> bool
    ensures { result ≡ both_charge_from_one_tank a b }
{
    a.kind == OpKind::Charge && b.kind == OpKind::Charge && a.from == b.from
}

fn both_charge_one_unit(a: Op, b: Op) -> bool
    ensures { result ≡ both_charge_one_unit a b }
{
    a.kind == OpKind::Charge && b.kind == OpKind::Charge && a.to == b.to
}

impl Plant {
    ghost use Rattle.plant_model.specs.Parts.{op_count_of, place_count_of};
    ghost use Rattle.plant_model.specs.Relations.{refused_at_once_of, ordered_of, AreApart};

    /// Whether both unload a vessel at the same berth.
    fn share_berth(&self, a: Op, b: Op) -> bool
        requires first { a.from < place_count_of self.now }
        requires second { b.from < place_count_of self.now }
        ensures { result ≡ share_berth self.now a b }
    {
        a.kind == OpKind::Unload
            && b.kind == OpKind::Unload
            && self.place(a.from).berth == self.place(b.from).berth
    }

    /// Whether the two may not run at one moment.
    #[tactic(auto, unfolding(crate::specs::Relations::refused_at_once_of))]
    pub fn refused_at_once(&self, v: u8, w: u8) -> bool
        requires first { v < op_count_of self.now }
        requires second { w < op_count_of self.now }
        ensures value { result ≡ refused_at_once_of self.now v w }
        ensures symmetric { result ≡ refused_at_once_of self.now w v }
        ensures reflexive { v ≡ w → IsTrue result }
    {
        let a = self.op(v);
        let b = self.op(w);
        v == w
            || self.share_berth(a, b)
            || one_feeds_other(a, b)
            || both_charge_from_one_tank(a, b)
            || both_charge_one_unit(a, b)
    }

    #[tactic(auto, unfolding(crate::specs::Relations::ordered_of))]
    fn is_ordered(&self, v: u8, w: u8) -> bool
        requires first { v < op_count_of self.now }
        requires second { w < op_count_of self.now }
        ensures { result ≡ ordered_of self.now v w }
    {
        self.refused_at_once(v, w) || self.op(v).from == self.op(w).from
    }

    /// Whether the two may not change places: they may not run at one moment, or draw from one place.
    pub fn ordered(&self, v: u8, w: u8) -> bool
        requires first { v < op_count_of self.now }
        requires second { w < op_count_of self.now }
        ensures value { result ≡ ordered_of self.now v w }
        ensures symmetric { result ≡ ordered_of self.now w v }
        ensures refused { IsTrue (refused_at_once_of self.now v w) → IsTrue result }
        ensures apart { IsFalse result → AreApart self.now v w }
    {
        self.is_ordered(v, w)
    }
}
