//! Sample dossiers, each made or worked out by hand, and their lines with other words.
//!
//! Each text stands behind a function that promises nothing of it, so that the proofs of the tests,
//! which do not depend on it, do not read it.

use std::alloc::{AllocError, Global};

// Of `one_charge`: the root box alone, bounded without entries.
pub const ONE_DUAL: &str = "\
crude dossier 1
order slots
slots 1
nodes 0
answer plan
margin 12
bound 12
plan 1
op 1 c1 0 2 4
cuts 0
node 0 dual 1
end
";

// The same with a plan that is too fast.
pub const FAST_PLAN: &str = "\
crude dossier 1
order slots
slots 1
nodes 0
answer plan
margin 12
bound 12
plan 1
op 1 c1 0 1 3
cuts 0
node 0 dual 1
end
";

// The same with a plan of one operation too many.
pub const LONG_PLAN: &str = "\
crude dossier 1
order slots
slots 1
nodes 0
answer plan
margin 12
bound 12
plan 2
op 1 c1 0 1 2
op 2 c1 1 2 2
cuts 0
node 0 dual 1
end
";

// Of `one_charge`: the root box divided into that of the charge and that of an idle slot.
pub const SPLIT_ONCE: &str = "\
crude dossier 1
order slots
slots 1
nodes 1
answer plan
margin 12
bound 12
plan 1
op 1 c1 0 2 4
cuts 0
node 0 split 0 1 ops 1
node 1 dual 1
node 2 point
end
";

// No node gives the second one its box.
pub const MISSING_PARENT: &str = "\
crude dossier 1
order slots
slots 1
nodes 2
answer plan
margin 12
bound 12
plan 1
op 1 c1 0 2 4
cuts 0
node 0 split 1 1 ops 1
node 1 dual 1
node 2 point
node 3 dual 1
node 4 point
end
";

// Tickets that fall while ids rise, and that no two nodes share.
pub const FALLING_TICKETS: &str = "\
crude dossier 1
order slots
slots 1
nodes 3
answer open
margin none
bound 12
plan none
cuts 0
node 0 split 0 1 volume 2
node 1 split 2 1 ops 1
node 2 split 1 1 volume 4
node 3 dual 1
node 4 open 1
node 5 dual 1
node 6 point
end
";

// What a search writes that divides the box until the best plan is a box of its own. Of its boxes of one point one is
// no legal plan, and has no value.
pub const SEVEN_SPLITS: &str = "\
crude dossier 1
order slots
slots 1
nodes 7
answer plan
margin 12
bound 12
plan 1
op 1 c1 0 2 4
cuts 0
node 0 split 0 1 ops 1
node 1 split 1 1 volume 2
node 2 dual 1
node 3 dual 1
node 4 split 2 1 volume 3
node 5 dual 1
node 6 split 3 1 volume 4
node 7 dual 1
node 8 split 4 1 start 1
node 9 split 5 1 end 1
node 10 dual 1
node 11 point
node 12 split 6 1 end 2
node 13 point
node 14 point
end
";

// Of the plant whose rate is fixed: two minutes of charging need six units, and there are four.
pub const VOID_ROOT: &str = "\
crude dossier 1
order slots
slots 1
nodes 0
answer infeasible
margin none
bound none
plan none
cuts 0
node 0 void 3.1.0.0.0=1 11.1.1.0.0=4320
end
";

// Of the plant of half the rate, where two minutes are enough for two units.
pub const RATE_DUAL: &str = "\
crude dossier 1
order slots
slots 1
nodes 0
answer plan
margin 6
bound 6
plan 1
op 1 c1 0 2 2
cuts 0
node 0 dual 480 3.1.0.1.0=1
end
";

// Of `two_inlets`: the second inlet before the first one is no normal order.
pub const DEAD_PREFIX: &str = "\
crude dossier 1
order slots
slots 2
nodes 2
answer open
margin none
bound 20
plan none
cuts 0
node 0 split 0 1 ops 2
node 1 split 1 2 ops 1
node 2 dual 1
node 3 dead 2
node 4 dual 1
end
";

// The same with a third slot, which is divided behind the two.
pub const DEAD_BEFORE: &str = "\
crude dossier 1
order slots
slots 3
nodes 3
answer open
margin none
bound 30
plan none
cuts 0
node 0 split 0 1 ops 2
node 1 split 1 2 ops 1
node 2 dual 1
node 3 split 2 3 ops 4
node 4 dual 1
node 5 dead 2
node 6 dead 2
end
";

// Of the vessel that comes in minute 1 and takes two minutes to unload, at 5 for each.
pub const DEMURRAGE_DUAL: &str = "\
crude dossier 1
order slots
slots 1
nodes 0
answer plan
margin -10
bound -10
plan 1
op 1 u1 1 3 4
cuts 0
node 0 dual 576 3.1.0.1.0=1 4.1.0.0.0=2880 10.0.0.0.0=1440 16.0.1.0.0=2880
end
";

// Of `one_charge`: a cut by which no crude weighs anything, so that its row has no terms.
pub const EMPTY_CUT: &str = "\
crude dossier 1
order slots
slots 1
nodes 0
answer open
margin none
bound 12
plan none
cuts 1
cut 1 0 1 0
node 0 dual 1 cut.0.1.0=1
end
";

// Of `blend_limit`: of the crude that earns 100, a charge of 50 holds no more than 6.
pub const CUT_DUAL: &str = "\
crude dossier 1
order slots
slots 1
nodes 0
answer open
margin none
bound 600
plan none
cuts 1
cut 1 1 10 0 1
node 0 dual 1 2.1.0.0.0=10 cut.0.1.0=10
end
";

// The same by the second of two cuts.
pub const TWO_CUTS: &str = "\
crude dossier 1
order slots
slots 1
nodes 0
answer open
margin none
bound 600
plan none
cuts 2
cut 1 0 1 0 0
cut 1 1 10 0 1
node 0 dual 1 2.1.0.0.0=10 cut.1.1.0=10
end
";

// Of `blend_drift`: 200 of the first slot; of the second 200 of the crude that weighs nothing, 20 that the cut allows,
// and 900 for crude that the first slot may bring.
pub const DRIFT_DUAL: &str = "\
crude dossier 1
order slots
slots 2
nodes 0
answer open
margin none
bound 1320
plan none
cuts 1
cut 2 1 10 0 1
node 0 dual 1 cut.0.2.1=1
end
";

/// A file, and the verdict on it.
pub type Told = (&'static str, &'static str);

const ONE_CHARGE_FILES: &[Told] = &[
    (ONE_DUAL, "yes plan 1 1 12 12"),
    (SPLIT_ONCE, "yes plan 1 1 12 12"),
    (SEVEN_SPLITS, "yes plan 1 1 12 12"),
    (FALLING_TICKETS, "yes open 1 0 99 12"),
];

const FIXED_RATE_FILES: &[Told] = &[(VOID_ROOT, "yes infeasible 1 0 99 99")];

const SLOW_CHARGE_FILES: &[Told] = &[(RATE_DUAL, "yes plan 1 1 6 6")];

const LATE_VESSEL_FILES: &[Told] = &[(DEMURRAGE_DUAL, "yes plan 1 1 -10 -10")];

const INLETS_FILES: &[Told] = &[
    (DEAD_PREFIX, "yes open 2 0 99 20"),
    (DEAD_BEFORE, "yes open 3 0 99 30"),
];

const CUT_FILES: &[Told] = &[(EMPTY_CUT, "yes open 1 0 99 12")];

const LIMIT_FILES: &[Told] = &[
    (CUT_DUAL, "yes open 1 0 99 600"),
    (TWO_CUTS, "yes open 1 0 99 600"),
];

const DRIFT_FILES: &[Told] = &[(DRIFT_DUAL, "yes open 2 0 99 1320")];

const SHORT_FILES: &[Told] = &[(ONE_DUAL, "no 17 8")];

const DEARER_FILES: &[Told] = &[(ONE_DUAL, "no 15 7")];

pub fn one_charge_files() -> &'static [Told] {
    ONE_CHARGE_FILES
}

pub fn fixed_rate_files() -> &'static [Told] {
    FIXED_RATE_FILES
}

pub fn slow_charge_files() -> &'static [Told] {
    SLOW_CHARGE_FILES
}

pub fn late_vessel_files() -> &'static [Told] {
    LATE_VESSEL_FILES
}

pub fn inlets_files() -> &'static [Told] {
    INLETS_FILES
}

/// Of the plant of one charge, with a cut.
pub fn cut_files() -> &'static [Told] {
    CUT_FILES
}

pub fn limit_files() -> &'static [Told] {
    LIMIT_FILES
}

pub fn drift_files() -> &'static [Told] {
    DRIFT_FILES
}

/// Of the plant whose unit takes two charges at least: the plan breaks a rule on its end.
pub fn short_files() -> &'static [Told] {
    SHORT_FILES
}

/// Of the plant whose crude earns more: the root box has a higher value.
pub fn dearer_files() -> &'static [Told] {
    DEARER_FILES
}

pub fn one_dual() -> &'static str {
    ONE_DUAL
}

pub fn split_once() -> &'static str {
    SPLIT_ONCE
}

/// The text with other words in the place of this line; without the line, where there are no words.
pub fn altered(alloc: Global, text: &str, line: usize, words: &str) -> Result<String, AllocError> {
    let mut out = String::new(alloc);
    for (index, part) in text.split_inclusive('\n').enumerate() {
        if index.saturating_add(1) != line {
            out.push_str(part)?;
        } else if !words.is_empty() {
            out.push_str(words)?;
            out.push_str("\n")?;
        }
    }
    Ok(out)
}

/// A node line of the root box with so many entries.
pub fn long_leaf(alloc: Global, entries: u32) -> Result<String, AllocError> {
    let mut leaf = String::from_str(alloc, "node 0 dual 1")?;
    for _ in 0..entries {
        leaf.push_str(" 5.0.1.0.0=0")?;
    }
    Ok(leaf)
}
