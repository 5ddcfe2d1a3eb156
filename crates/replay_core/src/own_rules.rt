//! The rules on an operation alone.

ghost use Rattle.std.specs.Prelude.{◌≡◌, ◌<◌, ◌≤◌, ℕ, true, OnOk};
ghost use Rattle.std.specs.Result.{result_err};
ghost use Rattle.item_lists.specs.Faults.{first_of, unless};
ghost use Rattle.plant_model.specs.Parts.{op_count_of};
ghost use Rattle.replay_core.specs.Rules.{is_inside, lasts, keeps_window, keeps_volume, meets_rate};
ghost use Rattle.replay_core.specs.Legal.{broken, own_faults};

use crate::broken::Broken;
use crate::timed::Timed;
use item_lists::expect;
use plant_model::Plant;

/// The rule of that number, at that place, where the test does not hold.
pub(crate) fn expect_rule(holds: bool, rule: u8, at: u32) -> Result<(), Broken>
    ensures broken { result_err result ≡ first_of (unless holds (broken rule at)) }
    ensures ok { OnOk result (holds ≡ true) }
{
    expect(holds, Broken { rule, at })
}

/// The number lies in the range, ends counted.
pub(crate) fn is_inside(low: u64, high: u64, number: u64) -> bool
    ensures { result ≡ is_inside (low, high) number }
{
    low <= number && number <= high
}

#[tactic(auto, unfolding(crate::specs::Rules::keeps_window))]
fn keeps_window(plant: &Plant, t: Timed) -> bool
    requires { t.op < op_count_of plant.now }
    ensures { result ≡ keeps_window plant.now t }
{
    let (low, high) = plant.op(t.op).window;
    is_inside(low.into(), high.into(), t.start.into())
        && is_inside(low.into(), high.into(), t.end.into())
}

#[tactic(auto, unfolding(crate::specs::Rules::keeps_volume))]
fn keeps_volume(plant: &Plant, t: Timed) -> bool
    requires { t.op < op_count_of plant.now }
    ensures value { result ≡ keeps_volume plant.now t }
    ensures some { result ≡ true → 1 ≤ t.volume }
{
    let (low, high) = plant.op(t.op).volume;
    is_inside(low.into(), high.into(), t.volume.into())
}

#[tactic(auto, unfolding(crate::specs::Rules::meets_rate))]
fn meets_rate(plant: &Plant, t: Timed) -> bool
    requires known { t.op < op_count_of plant.now }
    requires lasts { t.start < t.end }
    ensures { result ≡ meets_rate plant.now t }
{
    let (low, high) = plant.op(t.op).rate;
    let minutes = u64::from(t.end - t.start);
    is_inside(
        u64::from(low) * minutes,
        u64::from(high) * minutes,
        1440 * u64::from(t.volume),
    )
}

/// The first rule that the operation breaks by itself.
#[tactic(auto, using(item_lists::proofs::FaultLaws::first_fault), unfolding(crate::specs::Legal::own_faults, crate::specs::Rules::is_known, crate::specs::Rules::lasts))]
pub(crate) fn check_alone(plant: &Plant, t: Timed, at: u32) -> Result<(), Broken>
    ensures broken { result_err result ≡ first_of (own_faults plant.now t at) }
    ensures known { OnOk result (t.op < op_count_of plant.now) }
    ensures lasts { OnOk result (t.start < t.end) }
    ensures some { OnOk result (1 ≤ t.volume) }
{
    expect_rule(t.op < plant.op_count(), 1, at)?;
    expect_rule(t.start < t.end, 2, at)?;
    expect_rule(keeps_window(plant, t), 3, at)?;
    expect_rule(keeps_volume(plant, t), 4, at)?;
    expect_rule(meets_rate(plant, t), 5, at)
}
