ghost use Rattle.std.specs.Prelude.{◌≡◌, ℕ, ◌+◌, ◌*◌, ◌<◌, ◌≤◌, ◌∷◌, [], ◌++◌, length, sum, IfOk, OnOk, OnErr, pos, if◌then◌else◌};
ghost use Rattle.std.specs.Result.{result_err};
ghost use Rattle.limits.specs.declared.TheConstants.{MOST_MARGIN, MOST_PLACES, MOST_STEPS, MOST_VOLUME};
ghost use Rattle.crude_amounts.specs.Amounts.{weighted_of};
ghost use Rattle.plant_model.specs.Relations.{is_charge};
ghost use Rattle.replay_core.specs.Margin.{AreSmall, crude_margins_of};
ghost use Rattle.replay_core.specs.inside.Tally.{AreTallies};
ghost use Rattle.replay_core.specs.inside.Latest.{AreLatest};
ghost use Rattle.item_lists.specs.Faults.{first_of};

use crate::broken::Broken;
use crate::end_rules::EndRule;
use crate::latest::{Relation, last_start, none_is_later, note};
use crate::order::Order;
use crate::own_rules::{check_alone, expect_rule, is_inside};
use crate::state::{first_state, is_charging, is_unit, is_vessel, move_volume};
use crate::state_rules::{keeps_maximum, leaves_minimum, meets_limits};
use crate::tally::{Tally, count};
use crate::timed::{AmountList, Timed};
use crude_amounts::Amounts;
use limits::MOST_STEPS;
use plant_model::{Op, OpKind, Plant};
use std::alloc::{AllocError, Global};
use std::marker::Model;

/// A plant and the operations that have run in it so far, one after the other.
#[derive(Drop)]
pub struct Replay<'a> {
    plant: &'a Plant,
    order: Order,
    steps: Vec<Timed>,
    held: Vec<Amounts>,
    tallies: Vec<Tally>,
    starts: Vec<u32>,
    ends: Vec<u32>,
    margins: Vec<i64>,
    earned: i64,
}

impl<'a> Model for Replay<'a> {
    ghost use Rattle.replay_core.specs.Replayed.{Replayed};

    ghost Value = { Replayed };

    ghost use Rattle.replay_core.specs.inside.Kept.{IsReplay};

    ghost view = { λ replay. record { parts = replay.plant.now; order = replay.order; steps = replay.steps.items } };

    ghost invariant = { IsReplay };
}

impl Replay<'_> {
    ghost use Rattle.plant_model.specs.Parts.{op_count_of, place_count_of, place_of};
    ghost use Rattle.replay_core.specs.declared.order.Order.TheVariants.{ByStart};
    ghost use Rattle.replay_core.specs.State.{held_of, state_after, draw_at};
    ghost use Rattle.replay_core.specs.Counts.{charges_of, minutes_of, last_end_of};
    ghost use Rattle.replay_core.specs.Rules.{keeps_order, waits_for_others, keeps_vessel_order, is_emptied, meets_demand, meets_charges};
    ghost use Rattle.replay_core.specs.Legal.{CanRun, IsLegalIn, order_faults, place_faults, op_faults, faults_at_places, end_faults, first_broken_in};
    ghost use Rattle.replay_core.specs.Margin.{earned_of, wait_of, demurrage_of, margin_of};
    ghost use Rattle.replay_core.specs.inside.Earnings.{EarnsWithin, MOST_PAID};
    ghost use Rattle.replay_core.specs.inside.EndRules.{holds_at, number_of};
    ghost use Rattle.replay_core.specs.inside.Levels.{HoldsWithin};
    ghost use Rattle.replay_core.specs.inside.Tally.{tally_of};
    ghost use Rattle.replay_core.specs.inside.Latest.{start_of, end_of};

    /// A replay of a plan in which nothing has run. It takes room at once for as many operations as a plan may have.
    pub fn new(alloc: Global, plant: &Plant) -> Result<Replay<'_>, AllocError>
        ensures { IfOk result (λ replay. replay ≡ record { parts = plant.now; order = ByStart; steps = [] }) }
    {
        Replay::in_order(alloc, plant, Order::ByStart)
    }

    /// Likewise of operations that are to keep that order.
    pub fn in_order(alloc: Global, plant: &Plant, order: Order) -> Result<Replay<'_>, AllocError>
        ensures { IfOk result (λ replay. replay ≡ record { parts = plant.now; order = order; steps = [] }) }
    {
        Ok(Replay {
            plant,
            order,
            steps: Vec::with_capacity(alloc, MOST_STEPS as usize)?,
            held: first_state(alloc, plant)?,
            tallies: first_tallies(alloc, plant)?,
            starts: no_minutes(alloc, plant)?,
            ends: no_minutes(alloc, plant)?,
            margins: crude_margins(alloc, plant)?,
            earned: 0,
        })
    }

    fn order(&self) -> Order
        ensures { result ≡ self.now.order }
    {
        self.order
    }

    fn plant(&self) -> &Plant
        ensures { result.now ≡ self.now.parts }
    {
        self.plant
    }

    /// The operations that have run.
    fn steps(&self) -> &[Timed]
        ensures value { result.now ≡ self.now.steps }
        ensures few { length self.now.steps ≤ MOST_STEPS }
        ensures can_run { CanRun self.now.parts self.now.order self.now.steps }
    {
        self.steps.as_slice()
    }

    /// What every place holds.
    fn state(&self) -> &[Amounts]
        ensures value { result.now ≡ state_after self.now.parts self.now.steps }
        ensures holds { HoldsWithin self.now.parts (length self.now.steps) result.now }
    {
        self.plant.sound();
        self.held.as_slice()
    }

    /// What every place has got and given.
    fn tallies(&self) -> &[Tally]
        ensures { AreTallies self.now.parts self.now.steps result.now }
    {
        self.tallies.as_slice()
    }

    /// When each operation started last.
    fn starts(&self) -> &[u32]
        ensures { AreLatest start_of self.now.parts self.now.steps result.now }
    {
        self.starts.as_slice()
    }

    /// When each operation ended last.
    fn ends(&self) -> &[u32]
        ensures { AreLatest end_of self.now.parts self.now.steps result.now }
    {
        self.ends.as_slice()
    }

    /// What the place has got and given.
    fn tally(&self, p: u8) -> Tally
        requires { p < place_count_of self.now.parts }
        ensures { result ≡ tally_of self.now.parts self.now.steps p }
    {
        self.tallies()[p as usize]
    }

    /// What a vessel or a tank holds, or what a unit has got so far.
    pub fn held(&self, p: u8) -> Amounts
        requires { p < place_count_of self.now.parts }
        ensures { result ≡ held_of (state_after self.now.parts self.now.steps) p }
    {
        self.state()[p as usize]
    }

    /// How many charges the unit has got.
    #[tactic(auto, unfolding(crate::specs::inside::Tally::tally_of))]
    pub fn charges(&self, p: u8) -> u32
        requires { p < place_count_of self.now.parts }
        ensures { result ≡ charges_of self.now.parts self.now.steps p }
    {
        self.tally(p).charges
    }

    /// For how many minutes in all the unit was charged.
    #[tactic(auto, unfolding(crate::specs::inside::Tally::tally_of))]
    pub fn minutes(&self, p: u8) -> u64
        requires { p < place_count_of self.now.parts }
        ensures { result ≡ minutes_of self.now.parts self.now.steps p }
    {
        self.tally(p).minutes
    }

    /// The greatest end of the unloadings of the vessel so far, in minutes, and 0 where there is none.
    #[tactic(auto, unfolding(crate::specs::inside::Tally::tally_of))]
    pub fn last_end(&self, p: u8) -> u32
        requires { p < place_count_of self.now.parts }
        ensures { result ≡ last_end_of self.now.parts self.now.steps p }
    {
        self.tally(p).last_end
    }

    /// The number that the next operation has in the plan.
    fn next_number(&self) -> u32
        ensures value { result ≡ length self.now.steps + 1 }
        ensures most { result ≤ MOST_STEPS + 1 }
    {
        self.steps().len() as u32 + 1
    }

    fn keeps_order(&self, t: Timed) -> bool
        requires { t.op < op_count_of self.now.parts }
        ensures { result ≡ keeps_order self.now.parts self.now.order self.now.steps t }
    {
        let steps = self.steps();
        match self.order() {
            Order::ByStart => last_start(steps) <= t.start,
            Order::BySlot => none_is_later(
                self.plant(),
                Relation::Ordered,
                t.op,
                self.starts(),
                t.start,
            ),
        }
    }

    fn waits_for_others(&self, t: Timed) -> bool
        requires { t.op < op_count_of self.now.parts }
        ensures { result ≡ waits_for_others self.now.parts self.now.steps t }
    {
        let _ = self.steps();
        none_is_later(self.plant(), Relation::AtOnce, t.op, self.ends(), t.start)
    }

    fn keeps_vessel_order(&self, t: Timed) -> bool
        requires { t.op < op_count_of self.now.parts }
        ensures { result ≡ keeps_vessel_order self.now.parts self.now.steps t }
    {
        let _ = self.steps();
        none_is_later(self.plant(), Relation::LaterVessel, t.op, self.ends(), 0)
    }

    /// The rule on the order, where the operation breaks it.
    #[tactic(auto, unfolding(crate::specs::Legal::order_faults))]
    fn check_order(&self, t: Timed, at: u32) -> Result<(), Broken>
        requires { t.op < op_count_of self.now.parts }
        ensures { result_err result ≡ first_of (order_faults self.now.parts self.now.order self.now.steps t at) }
    {
        expect_rule(self.keeps_order(t), 6, at)
    }

    /// The first rule on berths, places and crudes that the operation breaks.
    #[tactic(auto, using(item_lists::proofs::FaultLaws::first_fault), unfolding(crate::specs::Legal::place_faults))]
    fn check_places(&self, t: Timed, at: u32) -> Result<(), Broken>
        requires known { t.op < op_count_of self.now.parts }
        requires some { 1 ≤ t.volume }
        ensures { result_err result ≡ first_of (place_faults self.now.parts self.now.steps t at) }
    {
        let plant = self.plant();
        let state = self.state();
        plant.sound();
        expect_rule(self.waits_for_others(t), 7, at)?;
        expect_rule(self.keeps_vessel_order(t), 8, at)?;
        expect_rule(leaves_minimum(plant, state, t), 9, at)?;
        expect_rule(keeps_maximum(plant, state, t), 10, at)?;
        expect_rule(meets_limits(plant, state, t), 11, at)
    }

    /// The first rule that the operation breaks.
    #[tactic(auto, using(item_lists::proofs::FaultLaws::first_fault), unfolding(crate::specs::Legal::op_faults))]
    fn check(&self, t: Timed) -> Result<(), Broken>
        ensures { result_err result
            ≡ first_of (op_faults self.now.parts self.now.order self.now.steps t (length self.now.steps + 1)) }
    {
        let at = self.next_number();
        check_alone(self.plant(), t, at)?;
        self.check_order(t, at)?;
        self.check_places(t, at)
    }

    /// Lets the operation run, which breaks no rule, and gives what it draws.
    fn accept(&mut self, t: Timed) -> Amounts
        requires few { length self.old.steps < MOST_STEPS }
        requires keeps { op_faults self.old.parts self.old.order self.old.steps t (length self.old.steps + 1) ≡ [] }
        ensures draw { result ≡ draw_at self.old.parts self.old.steps t }
        ensures volume { sum result ≡ t.volume }
        ensures after { self.new ≡ record self.old { steps = self.old.steps ++ t ∷ [] } }
        ensures can_run { CanRun self.new.parts self.new.order self.new.steps }
    {
        self.plant.sound();
        let op = self.plant.op(t.op);
        let drawn = move_volume(self.held.as_mut_slice(), op.from, op.to, t.volume.into());
        count(self.tallies.as_mut_slice(), op, t);
        note(self.starts.as_mut_slice(), t.op, t.start);
        note(self.ends.as_mut_slice(), t.op, t.end);
        self.earned += earned(op, &drawn, self.margins.as_slice());
        self.steps.push_reserved(t);
        drawn
    }

    /// Lets the operation run, and gives what it draws; or names the first rule that it breaks, and
    /// then nothing is changed.
    pub fn step(&mut self, t: Timed) -> Result<Amounts, Broken>
        requires { length self.old.steps < MOST_STEPS }
        ensures broken { result_err result
            ≡ first_of (op_faults self.old.parts self.old.order self.old.steps t (length self.old.steps + 1)) }
        ensures draw { IfOk result (λ drawn. drawn ≡ draw_at self.old.parts self.old.steps t) }
        ensures volume { IfOk result (λ drawn. sum drawn ≡ t.volume) }
        ensures ok { OnOk result (self.new ≡ record self.old { steps = self.old.steps ++ t ∷ [] }) }
        ensures err { OnErr result (self.new ≡ self.old) }
        ensures can_run { CanRun self.new.parts self.new.order self.new.steps }
    {
        let _ = self.steps();
        self.check(t)?;
        Ok(self.accept(t))
    }

    #[tactic(auto, unfolding(crate::specs::Rules::is_emptied))]
    fn is_emptied(&self, p: u8) -> bool
        requires { p < place_count_of self.now.parts }
        ensures { result ≡ is_emptied (state_after self.now.parts self.now.steps) p (place_of self.now.parts p) }
    {
        !is_vessel(self.plant().place(p).kind) || self.held(p).total() == 0
    }

    #[tactic(auto, unfolding(crate::specs::Rules::meets_demand, crate::specs::inside::Tally::tally_of))]
    fn meets_demand(&self, p: u8) -> bool
        requires { p < place_count_of self.now.parts }
        ensures { result ≡ meets_demand self.now.parts self.now.steps p (place_of self.now.parts p) }
    {
        let place = self.plant().place(p);
        let (low, high) = place.demand;
        !is_charging(place.kind) || is_inside(low.into(), high.into(), self.tally(p).charged)
    }

    #[tactic(auto, unfolding(crate::specs::Rules::meets_charges, crate::specs::inside::Tally::tally_of))]
    fn meets_charges(&self, p: u8) -> bool
        requires { p < place_count_of self.now.parts }
        ensures { result ≡ meets_charges self.now.parts self.now.steps p (place_of self.now.parts p) }
    {
        let place = self.plant().place(p);
        let (low, high) = place.charges;
        let tally = self.tally(p);
        let whole = !place.continuous || tally.minutes == u64::from(self.plant().horizon());
        !is_unit(place.kind) || whole && is_inside(low.into(), high.into(), tally.charges.into())
    }

    fn holds_at(&self, rule: EndRule, p: u8) -> bool
        requires { p < place_count_of self.now.parts }
        ensures { result ≡ holds_at self.now.parts self.now.steps rule p (place_of self.now.parts p) }
    {
        match rule {
            EndRule::Emptied => self.is_emptied(p),
            EndRule::Demand => self.meets_demand(p),
            EndRule::Charges => self.meets_charges(p),
        }
    }

    /// The first place at which the rule does not hold.
    fn check_each(&self, rule: EndRule) -> Result<(), Broken>
        ensures { result_err result
            ≡ first_of (faults_at_places self.now.parts (number_of rule)
            (holds_at self.now.parts self.now.steps rule)) }
    {
        for p in 0..self.plant().place_count() {
            expect_rule(self.holds_at(rule, p), rule.number(), p.into())?;
        }
        Ok(())
    }

    /// The first rule that stands broken where nothing more runs.
    #[tactic(auto, using(item_lists::proofs::FaultLaws::first_fault), unfolding(crate::specs::Legal::end_faults, crate::specs::Legal::vessel_faults, crate::specs::Legal::demand_faults, crate::specs::Legal::unit_faults))]
    fn check_end(&self) -> Result<(), Broken>
        ensures { result_err result ≡ first_of (end_faults self.now.parts self.now.steps) }
    {
        self.check_each(EndRule::Emptied)?;
        self.check_each(EndRule::Demand)?;
        self.check_each(EndRule::Charges)
    }

    /// The first rule that the operations that have run break where nothing more runs.
    fn check_legal(&self) -> Result<(), Broken>
        ensures at_end { result_err result ≡ first_of (end_faults self.now.parts self.now.steps) }
        ensures whole { result_err result ≡ first_broken_in self.now.parts self.now.order self.now.steps }
    {
        let _ = self.steps();
        self.check_end()
    }

    /// What the charges that have run earn.
    fn earned(&self) -> i64
        ensures value { result ≡ earned_of self.now.parts self.now.steps }
        ensures fits { EarnsWithin MOST_STEPS result }
    {
        self.plant.sound();
        self.earned
    }

    /// What the vessel pays for its waiting; nothing where the place is none, or where it was not unloaded.
    fn paid(&self, p: u8) -> u64
        requires { p < place_count_of self.now.parts }
        ensures value { result ≡ (place_of self.now.parts p).demurrage * wait_of self.now.parts self.now.steps p }
        ensures most { result ≤ MOST_PAID }
    {
        let place = self.plant().place(p);
        let wait = self.last_end(p).saturating_sub(place.arrival);
        u64::from(place.demurrage) * u64::from(wait)
    }

    /// What the vessels that have been unloaded pay.
    #[tactic(auto, unfolding(crate::specs::Margin::demurrage_of))]
    fn demurrage(&self) -> u64
        ensures value { result ≡ demurrage_of self.now.parts self.now.steps }
        ensures most { result ≤ MOST_PLACES * MOST_PAID }
    {
        let mut demurrage = 0;
        for p in 0..self.plant().place_count() {
            demurrage += self.paid(p);
        }
        demurrage
    }

    /// The margin of the operations that have run.
    #[tactic(auto, unfolding(crate::specs::Margin::margin_of))]
    fn margin(&self) -> i64
        ensures { result ≡ margin_of self.now.parts self.now.steps }
    {
        self.earned() - self.demurrage() as i64
    }

    /// The margin of the operations that have run, where they are legal as they stand; or the first rule that
    /// they break, which is one of those that are asked at the end.
    pub fn finish(&self) -> Result<i64, Broken>
        ensures broken { result_err result ≡ first_broken_in self.now.parts self.now.order self.now.steps }
        ensures at_end { result_err result ≡ first_of (end_faults self.now.parts self.now.steps) }
        ensures margin { IfOk result (λ margin. margin ≡ margin_of self.now.parts self.now.steps) }
        ensures legal { OnOk result (IsLegalIn self.now.parts self.now.order self.now.steps) }
    {
        self.check_legal()?;
        Ok(self.margin())
    }

    /// What each place holds. It takes no memory.
    pub fn into_held(self) -> AmountList
        ensures { result ≡ state_after self.entry.parts self.entry.steps }
    {
        let Replay {
            held,
            plant: _,
            order: _,
            steps: _,
            tallies: _,
            starts: _,
            ends: _,
            margins: _,
            earned: _,
        } = self;
        AmountList::from_vec(held)
    }
}

fn first_tallies(alloc: Global, plant: &Plant) -> Result<Vec<Tally>, AllocError>
    ensures { IfOk result (λ tallies. AreTallies plant.now [] tallies.items) }
{
    vec![in alloc; Tally {
        charges: 0,
        minutes: 0,
        charged: 0,
        last_end: 0
    }; plant.place_count() as usize]
}

/// A table of minutes in which no operation has run.
fn no_minutes(alloc: Global, plant: &Plant) -> Result<Vec<u32>, AllocError>
    ensures { IfOk result (λ table. (minute : Timed → ℕ) → AreLatest minute plant.now [] table.items) }
{
    vec![in alloc; 0; plant.op_count() as usize]
}

/// What each volume unit earns, crude by crude.
fn crude_margins(alloc: Global, plant: &Plant) -> Result<Vec<i64>, AllocError>
    ensures { IfOk result (λ margins. margins.items ≡ crude_margins_of plant.now) }
{
    let mut margins = Vec::new(alloc);
    for c in 0..plant.crude_count() {
        margins.push(plant.margin(c))?;
    }
    Ok(margins)
}

/// What the operation earns: a charge by the margins of the crudes that it draws.
fn earned(op: Op, drawn: &Amounts, margins: &[i64]) -> i64
    requires crudes { length margins.now ≡ length drawn.now }
    requires few { sum drawn.now ≤ MOST_VOLUME }
    requires small { AreSmall MOST_MARGIN margins.now }
    ensures { result ≡ (if is_charge op.kind then weighted_of drawn.now margins.now else pos 0) }
{
    match op.kind {
        OpKind::Charge => drawn.weighted(margins) as i64,
        OpKind::Unload | OpKind::Transfer => 0,
    }
}
