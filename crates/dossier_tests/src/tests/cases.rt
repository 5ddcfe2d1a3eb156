//! Lines of sample dossiers, what stands in their place, and the verdict then.
//!
//! Each value behind a 15, a 14 or a yes was worked out by hand from what the rows say. As with the samples, the
//! functions promise nothing of their tables.

use super::samples::*;

/// A line, the words that it has instead (none: it is left out), and the reason with its line; 0 and 0 for a yes.
pub type Case = (usize, &'static str, u8, u32);

const ONE_DUAL_CASES: &[Case] = &[
    (1, "crude dossier 2", 1, 1),
    (2, "order time", 1, 2),
    (3, "slots 0", 3, 3),
    (3, "slots 41", 3, 3),
    (3, "slots 4294967296", 1, 3),
    (4, "nodes 65536", 2, 4),
    (5, "answer infeasible", 16, 5),
    (5, "answer open", 16, 5),
    (6, "margin none", 16, 5),
    (6, "margin 11", 18, 6),
    (7, "bound 11", 15, 7),
    (7, "bound 13", 15, 7),
    (7, "bound none", 15, 7),
    (8, "plan 41", 2, 8),
    (9, "op 1 c2 0 2 4", 17, 9),
    (9, "op 1 c1 0 1 3", 17, 9),
    (9, "op 1 c1 0 2 3", 18, 6),
    (10, "cuts 4353", 2, 10),
    (10, "cuts 1\ncut 1 0 1 0 0 0 0 0 0 0 0 0 0 0 0 0", 2, 11),
    (10, "cuts 1\ncut 1 0 1 0 0", 12, 11),
    (10, "cuts 1\ncut 2 0 1 0", 12, 11),
    (12, "end\n", 1, 13),
];

const ONE_DUAL_LEAVES: &[Case] = &[
    (11, "node 0 dead 0", 7, 11),
    (11, "node 0 dead 1", 7, 11),
    (11, "node 0 dead 2", 7, 11),
    (11, "node 0 point", 8, 11),
    (11, "node 0 dual 0", 9, 11),
    (11, "node 0 dual 0 99.1.0.0.0=1", 9, 11),
    (11, "node 0 open 4294967296", 0, 0),
    (11, "node 0 open 4294967297", 9, 11),
    (11, "node 0 dual 1 1.1.0.0.0=4294967297", 9, 11),
    (11, "node 0 dual 1 99.1.0.0.0=4294967297", 9, 11),
    (11, "node 0 dual 1 99.1.0.0.0=1", 10, 11),
    (
        11,
        "node 0 dual 1 99.1.0.0.0=1 1.1.0.0.0=4294967297",
        10,
        11,
    ),
    (11, "node 0 dual 1 1.1.0.0.0=4294967297 99.1.0.0.0=1", 9, 11),
    (11, "node 0 dual 1 1.2.0.0.0=1", 10, 11),
    (11, "node 0 dual 1 11.1.1.0.0=1", 10, 11),
    (11, "node 0 dual 1 cut.0.1.0=1", 11, 11),
    (11, "node 0 dual 1 cut.0.1.0=4294967297", 9, 11),
    (11, "node 0 dual 1 1.1.0.0.0=0", 0, 0),
    (11, "node 0 dual 1 1.1.0.0.0=1", 15, 7),
    (11, "node 0 dual 1 5.0.1.0.0=3", 0, 0),
    (11, "node 0 dual 1 5.0.1.0.0=1 5.0.1.0.0=2", 0, 0),
    (11, "node 0 dual 1 5.0.1.0.0=1 5.0.1.0.0=3", 15, 7),
    (11, "node 0 void", 14, 11),
    (11, "node 0 void 1.1.0.0.0=4294967296", 14, 11),
];

// What is told first of two that stand.
const FAST_PLAN_CASES: &[Case] = &[
    (1, "crude dossier 1", 17, 9),
    (5, "answer open", 16, 5),
    (6, "margin 11", 17, 9),
    (7, "bound 13", 15, 7),
    (11, "node 0 dual 0", 9, 11),
];

const LONG_PLAN_CASES: &[Case] = &[(3, "slots 1", 17, 10), (9, "op 1 c1 0 1 3", 17, 10)];

const SPLIT_ONCE_CASES: &[Case] = &[
    (11, "node 0 split 1 1 ops 1", 4, 11),
    (11, "node 0 split 1 1 volume 0", 4, 11),
    (11, "node 0 split 0 1 volume 0", 6, 11),
    (11, "node 0 split 0 2 ops 1", 6, 11),
    (11, "node 0 split 0 0 ops 1", 6, 11),
    (11, "node 0 split 0 1 ops 2", 6, 11),
    (11, "node 0 split 0 1 ops 9223372036854775808", 8, 13),
    (11, "node 0 dual 1", 5, 12),
    (12, "", 1, 12),
    (12, "node 1 split 0 1 volume 4", 4, 12),
    (12, "node 1 point", 8, 12),
    (12, "node 1 void", 14, 12),
    (12, "node 1 void 1.1.0.0.0=1", 14, 12),
    (12, "node 1 dual 1 2.1.0.0.0=1", 0, 0),
    (12, "node 1 dual 1 3.1.0.1.0=1", 15, 7),
    (13, "node 2 dead 1", 7, 13),
    (13, "node 2 open 1", 0, 0),
    (13, "node 2 void 14.1.0.0.0=1", 10, 13),
    (13, "node 2 split 0 1 volume 1", 4, 13),
    (14, "end\n", 1, 15),
];

const MISSING_PARENT_CASES: &[Case] = &[(3, "slots 1", 5, 12)];

const FALLING_TICKETS_CASES: &[Case] = &[
    (11, "node 1 split 2 1 ops 1", 0, 0),
    (12, "node 2 split 2 1 volume 4", 4, 12),
];

const SEVEN_SPLITS_CASES: &[Case] = &[(25, "node 14 dual 1", 0, 0), (25, "node 14 void", 14, 25)];

// With 3601 the emptiness sum is -4, with 3600 it is 0.
const VOID_ROOT_CASES: &[Case] = &[
    (3, "slots 2", 14, 10),
    (5, "answer plan", 16, 5),
    (5, "answer open", 16, 5),
    (6, "margin 0", 16, 5),
    (7, "bound 0", 15, 7),
    (8, "plan 0", 16, 5),
    (10, "node 0 void", 14, 10),
    (10, "node 0 void 3.1.0.0.0=1", 14, 10),
    (10, "node 0 void 11.1.1.0.0=1", 14, 10),
    (10, "node 0 void 3.1.0.0.0=1 11.1.1.0.0=3600", 14, 10),
    (10, "node 0 void 3.1.0.0.0=1 11.1.1.0.0=3601", 0, 0),
    (10, "node 0 void 11.1.1.0.0=4320 3.1.0.0.0=1", 0, 0),
    (10, "node 0 void 3.1.0.0.0=1 11.1.1.0.0=4294967297", 9, 10),
    (10, "node 0 void 3.1.0.0.0=4294967297 99.1.1.0.0=1", 9, 10),
    (10, "node 0 void 99.1.1.0.0=1 3.1.0.0.0=4294967297", 10, 10),
    (10, "node 0 void 3.1.0.0.0=1 11.1.2.0.0=4320", 10, 10),
    (10, "node 0 void 3.1.0.0.0=1 11.0.1.0.0=4320", 10, 10),
    (10, "node 0 void 3.1.0.0.0=1 cut.0.1.0=1", 11, 10),
    (10, "node 0 dual 1 3.1.0.0.0=1 11.1.1.0.0=4320", 15, 7),
];

// Behind a denominator of 412 the value is 6, with a rest, behind one of 411 it is 7.
const RATE_DUAL_CASES: &[Case] = &[
    (7, "bound 7", 15, 7),
    (11, "node 0 open 480 3.1.0.1.0=1", 0, 0),
    (11, "node 0 dual 480 3.1.0.1.0=2", 15, 7),
    (11, "node 0 dual 480", 15, 7),
    (11, "node 0 dual 412 3.1.0.1.0=1", 0, 0),
    (11, "node 0 dual 411 3.1.0.1.0=1", 15, 7),
];

const DEAD_PREFIX_CASES: &[Case] = &[
    (10, "node 0 split 0 1 ops 1", 7, 13),
    (11, "node 1 split 1 2 ops 4", 7, 13),
    (12, "node 2 dual 1 13.1.0.1.0=1", 10, 12),
    (13, "node 3 dead 1", 7, 13),
    (13, "node 3 dead 3", 7, 13),
    (14, "node 4 dead 2", 7, 14),
    (14, "node 4 dual 1 13.1.1.0.0=1", 0, 0),
    (14, "node 4 dual 1 13.2.1.0.0=1", 10, 14),
    (14, "node 4 dual 1 13.1.2.0.0=1", 10, 14),
];

// The shorter prefix is blocked already, so that three are too many.
const DEAD_BEFORE_CASES: &[Case] = &[
    (15, "node 5 dual 1", 0, 0),
    (15, "node 5 dead 1", 7, 15),
    (15, "node 5 dead 3", 7, 15),
    (16, "node 6 dead 3", 7, 16),
];

// The dual sum is -5760, and the value its quotient rounded down: -10 behind 639, -9 behind 640. Without the last entry
// the vessel's wait costs nothing, and the value is 10.
const DEMURRAGE_DUAL_CASES: &[Case] = &[
    (7, "bound -9", 15, 7),
    (
        11,
        "node 0 dual 576 3.1.0.1.0=1 4.1.0.0.0=2880 10.0.0.0.0=1440",
        15,
        7,
    ),
    (
        11,
        "node 0 dual 639 3.1.0.1.0=1 4.1.0.0.0=2880 10.0.0.0.0=1440 16.0.1.0.0=2880",
        0,
        0,
    ),
    (
        11,
        "node 0 dual 640 3.1.0.1.0=1 4.1.0.0.0=2880 10.0.0.0.0=1440 16.0.1.0.0=2880",
        15,
        7,
    ),
    (11, "node 0 dual 576 16.0.2.0.0=1", 10, 11),
    (11, "node 0 dual 576 16.1.1.0.0=1", 10, 11),
];

// A cut has a set of vessels and tanks, a denominator of 1 to 1024, and one weight for each crude; no number is above
// 2^20. An empty set has no rows. With the greatest numbers the row lets through more than 12.
const EMPTY_CUT_LINES: &[Case] = &[
    (9, "cuts 0", 1, 10),
    (9, "cuts 4353", 2, 9),
    (10, "cut 1 0 1", 1, 10),
    (10, "cut 1 0 1 0 0 0 0 0 0 0 0 0 0 0 0 0", 2, 10),
    (10, "cut 1 0 1 0 0", 12, 10),
    (10, "cut 1 0 1 0 0 0 0 0 0 0 0 0 0 0 0", 12, 10),
    (10, "cut 2 0 1 0", 12, 10),
    (10, "cut 3 0 1 0", 12, 10),
    (10, "cut 4 0 1 0", 12, 10),
    (10, "cut 9223372036854775809 0 1 0", 12, 10),
    (10, "cut 18446744073709551616 0 1 0", 1, 10),
    (10, "cut 0 0 1 0", 13, 11),
    (10, "cut 1 0 0 0", 12, 10),
    (10, "cut 1 0 -1 0", 12, 10),
    (10, "cut 1 0 1024 0", 0, 0),
    (10, "cut 1 0 1025 0", 12, 10),
    (10, "cut 1 1048576 1 0", 15, 7),
    (10, "cut 1 1048577 1 0", 12, 10),
    (10, "cut 1 -1048577 1 0", 12, 10),
    (10, "cut 1 0 1 -1048576", 15, 7),
    (10, "cut 1 0 1 -1048577", 12, 10),
    (10, "cut 1 0 1 -9223372036854775808", 12, 10),
];

// What is told of an entry: its multiplier, then that there is no such cut, then that it has no such row.
const EMPTY_CUT_ENTRIES: &[Case] = &[
    (11, "node 0 dual 1 cut.1.1.0=1", 11, 11),
    (11, "node 0 dual 1 cut.0.0.0=1", 13, 11),
    (11, "node 0 dual 1 cut.0.2.0=1", 13, 11),
    (11, "node 0 dual 1 cut.0.1.1=1", 13, 11),
    (11, "node 0 dual 1 cut.0.1.255=1", 13, 11),
    (11, "node 0 dual 1 cut.4294967295.2.1=1", 11, 11),
    (11, "node 0 dual 1 cut.1.2.1=4294967297", 9, 11),
    (11, "node 0 dual 1 cut.0.1.0=4294967296", 0, 0),
    (11, "node 0 dual 1 cut.0.2.0=1 cut.1.1.0=1", 13, 11),
    (11, "node 0 dual 1 cut.1.1.0=1 99.1.0.0.0=1", 11, 11),
    (11, "node 0 dual 1 99.1.0.0.0=1 cut.1.1.0=1", 10, 11),
    (11, "node 0 dual 0 cut.1.1.0=1", 9, 11),
    (11, "node 0 void cut.0.1.0=1", 14, 11),
    (11, "node 0 void cut.0.2.0=1", 13, 11),
    (11, "node 0 open 1 cut.0.1.0=1", 0, 0),
];

// Behind 11 times the cut the value is 660, without it 5000.
const CUT_DUAL_CASES: &[Case] = &[
    (7, "bound 599", 15, 7),
    (7, "bound 601", 15, 7),
    (10, "cut 1 1 10 0", 12, 10),
    (10, "cut 1 1 10 0 1 0", 12, 10),
    (10, "cut 1 1 9 0 1", 15, 7),
    (11, "node 0 dual 1 2.1.0.0.0=10 cut.1.1.0=10", 11, 11),
    (11, "node 0 dual 1 2.1.0.0.0=10 cut.0.2.0=10", 13, 11),
    (11, "node 0 dual 1 2.1.0.0.0=10 cut.0.1.0=11", 15, 7),
    (11, "node 0 dual 1 2.1.0.0.0=10", 15, 7),
    (11, "node 0 dual 1 cut.0.1.0=10 2.1.0.0.0=10", 0, 0),
    (
        11,
        "node 0 dual 1 2.1.0.0.0=10 cut.0.1.0=4 cut.0.1.0=6",
        0,
        0,
    ),
    (11, "node 0 dual 2 2.1.0.0.0=20 cut.0.1.0=20", 0, 0),
];

const TWO_CUTS_CASES: &[Case] = &[
    (9, "cuts 1", 1, 11),
    (10, "cut 2 0 1 0 0", 12, 10),
    (11, "cut 2 1 10 0 1", 12, 11),
    (12, "node 0 dual 1 2.1.0.0.0=10 cut.0.1.0=10", 15, 7),
    (12, "node 0 dual 1 2.1.0.0.0=10 cut.2.1.0=10", 11, 12),
];

// The source of operation 0 is not in the set; with it in the set nothing is brought, but it exceeds the threshold by
// 450 at first.
const DRIFT_DUAL_CASES: &[Case] = &[
    (10, "cut 3 1 10 0 1", 15, 7),
    (10, "cut 4 1 10 0 1", 12, 10),
    (11, "node 0 dual 1 cut.0.1.1=1", 15, 7),
    (11, "node 0 dual 1 cut.0.2.0=1", 13, 11),
    (11, "node 0 dual 1 cut.0.3.1=1", 13, 11),
];

/// A file, and what its verdict is with one of its lines changed.
pub type Table = (&'static str, &'static [Case]);

const ONE_CHARGE: &[Table] = &[
    (ONE_DUAL, ONE_DUAL_CASES),
    (ONE_DUAL, ONE_DUAL_LEAVES),
    (FAST_PLAN, FAST_PLAN_CASES),
    (LONG_PLAN, LONG_PLAN_CASES),
    (SPLIT_ONCE, SPLIT_ONCE_CASES),
    (MISSING_PARENT, MISSING_PARENT_CASES),
    (FALLING_TICKETS, FALLING_TICKETS_CASES),
    (SEVEN_SPLITS, SEVEN_SPLITS_CASES),
];

const FIXED_RATE: &[Table] = &[(VOID_ROOT, VOID_ROOT_CASES)];

const SLOW_CHARGE: &[Table] = &[(RATE_DUAL, RATE_DUAL_CASES)];

const LATE_VESSEL: &[Table] = &[(DEMURRAGE_DUAL, DEMURRAGE_DUAL_CASES)];

const CUTS: &[Table] = &[(EMPTY_CUT, EMPTY_CUT_LINES), (EMPTY_CUT, EMPTY_CUT_ENTRIES)];

const LIMIT: &[Table] = &[(CUT_DUAL, CUT_DUAL_CASES), (TWO_CUTS, TWO_CUTS_CASES)];

const DRIFT: &[Table] = &[(DRIFT_DUAL, DRIFT_DUAL_CASES)];

const INLETS: &[Table] = &[
    (DEAD_PREFIX, DEAD_PREFIX_CASES),
    (DEAD_BEFORE, DEAD_BEFORE_CASES),
];

pub fn one_charge_tables() -> &'static [Table] {
    ONE_CHARGE
}

pub fn fixed_rate_tables() -> &'static [Table] {
    FIXED_RATE
}

pub fn slow_charge_tables() -> &'static [Table] {
    SLOW_CHARGE
}

pub fn late_vessel_tables() -> &'static [Table] {
    LATE_VESSEL
}

pub fn inlets_tables() -> &'static [Table] {
    INLETS
}

pub fn cut_tables() -> &'static [Table] {
    CUTS
}

pub fn limit_tables() -> &'static [Table] {
    LIMIT
}

pub fn drift_tables() -> &'static [Table] {
    DRIFT
}
