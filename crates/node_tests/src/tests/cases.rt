//! Boxes, where an examination of them begins, and the answer that is wanted.
//!
//! Each value was worked out by hand from what the plants say. The functions promise nothing of their tables, so that
//! the proofs of the tests do not read them.

use replay_core::Timed;
use slot_box::{Split, SplitKind};

/// A step from a box to one of its parts.
#[derive(Clone, Copy)]
pub enum Step {
    /// Where there is nothing left to divide by.
    Stay,
    Left(Split),
    Right(Split),
}

/// The steps from the root box to a box.
pub type Path = [Step; 3];

/// With which entries an examination begins.
#[derive(Clone, Copy)]
pub enum Warm {
    Cold,
    /// Three times the total of the first tank up to slot 1, beside an entry that names no row.
    Total,
    /// Once the greatest rate of the first operation in slot 1, over the denominator 480.
    Rate,
}

/// An answer: what becomes of the box, and its place or its value; 99 where it has neither.
pub type Told = (&'static str, i64);

/// A box, the entries to begin with, the best margin that was seen, what becomes of the box, and with which number, if
/// not with any.
pub type Case = (Path, Warm, Option<i64>, &'static str, Option<i64>);

const ROOT: Path = [Step::Stay, Step::Stay, Step::Stay];

// Four units that earn 3 each, and two minutes in which two flow.
const ONE_CHARGE: &[Case] = &[
    (ROOT, Warm::Cold, None, "split", Some(12)),
    (ROOT, Warm::Cold, Some(11), "split", Some(12)),
    (ROOT, Warm::Cold, Some(12), "dual", Some(12)),
];

// Two units are all that there is, and a plan charges them: nothing beats 6.
const HALF_TANK: &[Case] = &[
    (ROOT, Warm::Cold, None, "split", Some(6)),
    (ROOT, Warm::Total, None, "split", Some(6)),
    (ROOT, Warm::Total, Some(5), "split", Some(6)),
    (ROOT, Warm::Total, Some(6), "dual", Some(6)),
    (ROOT, Warm::Total, Some(7), "dual", Some(6)),
];

// Two minutes are enough for two units. The rate's entry makes the dual sum 2880, over 480.
const SLOW_CHARGE: &[Case] = &[
    (ROOT, Warm::Cold, None, "split", Some(6)),
    (ROOT, Warm::Rate, None, "split", Some(6)),
    (ROOT, Warm::Rate, Some(6), "dual", Some(6)),
];

// Two minutes of charging need six units, and there are four.
const FIXED_RATE: &[Case] = &[(ROOT, Warm::Cold, None, "void", Some(99))];

// Whoever charges nothing loses nothing.
const LOSING_CHARGE: &[Case] = &[
    (ROOT, Warm::Cold, None, "split", Some(0)),
    (ROOT, Warm::Cold, Some(0), "dual", Some(0)),
];

const SECOND: Step = Step::Left(Split {
    slot: 1,
    kind: SplitKind::Ops(2),
});

const THEN_FIRST: Step = Step::Left(Split {
    slot: 2,
    kind: SplitKind::Ops(1),
});

const THEN_ANOTHER: Step = Step::Right(Split {
    slot: 2,
    kind: SplitKind::Ops(1),
});

const THEN_CHARGE: Step = Step::Left(Split {
    slot: 3,
    kind: SplitKind::Ops(4),
});

const WRONG_ORDER: Path = [SECOND, THEN_FIRST, Step::Stay];

// The second inlet before the first one, which is independent of it, is not in normal order, whatever follows.
const TWO_INLETS: &[Case] = &[
    (WRONG_ORDER, Warm::Cold, None, "dead", Some(2)),
    (WRONG_ORDER, Warm::Total, None, "dead", Some(2)),
    (WRONG_ORDER, Warm::Total, Some(100), "dead", Some(2)),
    (
        [SECOND, THEN_FIRST, THEN_CHARGE],
        Warm::Cold,
        None,
        "dead",
        Some(2),
    ),
    (
        [SECOND, Step::Stay, Step::Stay],
        Warm::Cold,
        None,
        "split",
        None,
    ),
    (
        [SECOND, THEN_ANOTHER, Step::Stay],
        Warm::Cold,
        None,
        "split",
        None,
    ),
];

pub fn one_charge_cases() -> &'static [Case] {
    ONE_CHARGE
}

pub fn half_tank_cases() -> &'static [Case] {
    HALF_TANK
}

pub fn slow_charge_cases() -> &'static [Case] {
    SLOW_CHARGE
}

pub fn fixed_rate_cases() -> &'static [Case] {
    FIXED_RATE
}

pub fn losing_charge_cases() -> &'static [Case] {
    LOSING_CHARGE
}

/// Of three slots.
pub fn two_inlets_cases() -> &'static [Case] {
    TWO_INLETS
}

/// A box of one point, what its plan earns, where it has one, and the plan.
pub type Point = (Path, Option<i64>, &'static [Timed]);

const WHOLE: Step = Step::Right(Split {
    slot: 1,
    kind: SplitKind::Volume(4),
});

const FROM_0: Step = Step::Left(Split {
    slot: 1,
    kind: SplitKind::Start(1),
});

const TO_2: Step = Step::Right(Split {
    slot: 1,
    kind: SplitKind::End(2),
});

const TO_0: Step = Step::Left(Split {
    slot: 1,
    kind: SplitKind::End(1),
});

const IDLE_SLOT: Step = Step::Right(Split {
    slot: 1,
    kind: SplitKind::Ops(1),
});

const WHOLE_CHARGE: &[Timed] = &[Timed {
    op: 0,
    start: 0,
    end: 2,
    volume: 4,
}];

// Of `one_charge`: the whole charge, one that takes no time and so is none, and an idle slot.
const POINTS: &[Point] = &[
    ([WHOLE, FROM_0, TO_2], Some(12), WHOLE_CHARGE),
    ([WHOLE, FROM_0, TO_0], None, &[]),
    ([IDLE_SLOT, Step::Stay, Step::Stay], Some(0), &[]),
];

pub fn points() -> &'static [Point] {
    POINTS
}

pub fn root() -> Path {
    ROOT
}
