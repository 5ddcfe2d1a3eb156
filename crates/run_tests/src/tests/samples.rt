//! The sample plants, by their plain names, and the dossiers of runs on them.
//!
//! Each text stands behind a function that promises nothing of it, so that the proofs of the tests,
//! which do not depend on it, do not read it.

use std::alloc::Global;
use std::test::Fail;

// One charging tank and one unit.
const ONE_CHARGE: &str =
    r#"{"format":1,"horizon":2,"properties":[],"crudes":[{"name":"A","margin":3,"properties":[]}],"vessels":[],"storage":[],"charging":[{"name":"C1","min":0,"max":10,"amounts":[4],"demand":[0,10000000]}],"units":[{"name":"U","continuous":false,"charges":[0,40]}],"operations":[{"name":"c1","from":"C1","to":"U","rate":[0,2880],"volume":[1,4],"window":[0,2],"limits":[]}]}"#;

// As `one_charge`, but the rate is fixed, so that two minutes would need more than there is, and the unit is to be
// charged at every minute.
const FIXED_RATE: &str =
    r#"{"format":1,"horizon":2,"properties":[],"crudes":[{"name":"A","margin":3,"properties":[]}],"vessels":[],"storage":[],"charging":[{"name":"C1","min":0,"max":10,"amounts":[4],"demand":[0,10000000]}],"units":[{"name":"U","continuous":true,"charges":[0,40]}],"operations":[{"name":"c1","from":"C1","to":"U","rate":[4320,4320],"volume":[1,4],"window":[0,2],"limits":[]}]}"#;

// As `one_charge`, but the tank holds 2.
const HALF_TANK: &str =
    r#"{"format":1,"horizon":2,"properties":[],"crudes":[{"name":"A","margin":3,"properties":[]}],"vessels":[],"storage":[],"charging":[{"name":"C1","min":0,"max":10,"amounts":[2],"demand":[0,10000000]}],"units":[{"name":"U","continuous":false,"charges":[0,40]}],"operations":[{"name":"c1","from":"C1","to":"U","rate":[0,2880],"volume":[1,4],"window":[0,2],"limits":[]}]}"#;

// As `one_charge`, but at most one volume unit flows in a minute.
const SLOW_CHARGE: &str =
    r#"{"format":1,"horizon":2,"properties":[],"crudes":[{"name":"A","margin":3,"properties":[]}],"vessels":[],"storage":[],"charging":[{"name":"C1","min":0,"max":10,"amounts":[4],"demand":[0,10000000]}],"units":[{"name":"U","continuous":false,"charges":[0,40]}],"operations":[{"name":"c1","from":"C1","to":"U","rate":[0,1440],"volume":[1,4],"window":[0,2],"limits":[]}]}"#;

// As `one_charge`, but the one unit that can be charged loses.
const LOSING_CHARGE: &str =
    r#"{"format":1,"horizon":1,"properties":[],"crudes":[{"name":"A","margin":-1,"properties":[]}],"vessels":[],"storage":[],"charging":[{"name":"C1","min":0,"max":10,"amounts":[1],"demand":[0,10000000]}],"units":[{"name":"U","continuous":false,"charges":[0,40]}],"operations":[{"name":"c1","from":"C1","to":"U","rate":[0,2880],"volume":[1,1],"window":[0,1],"limits":[]}]}"#;

// Two storage tanks that feed one charging tank.
const TWO_INLETS: &str =
    r#"{"format":1,"horizon":4,"properties":[],"crudes":[{"name":"A","margin":1,"properties":[]}],"vessels":[],"storage":[{"name":"S1","min":0,"max":10,"amounts":[5]},{"name":"S2","min":0,"max":10,"amounts":[5]}],"charging":[{"name":"C1","min":0,"max":10,"amounts":[2],"demand":[0,10000000]}],"units":[{"name":"U","continuous":false,"charges":[0,40]}],"operations":[{"name":"T1","from":"S1","to":"C1","rate":[0,14400],"volume":[1,10],"window":[0,4],"limits":[]},{"name":"T2","from":"S2","to":"C1","rate":[0,14400],"volume":[1,10],"window":[0,4],"limits":[]},{"name":"G","from":"C1","to":"U","rate":[0,14400],"volume":[1,10],"window":[0,4],"limits":[]}]}"#;

// Two vessels, two storage tanks, two charging tanks and one unit, with sulphur.
const TWO_VESSELS: &str =
    r#"{"format":1,"horizon":11520,"properties":["sulphur"],"crudes":[{"name":"A","margin":9,"properties":[100]},{"name":"B","margin":6,"properties":[600]}],"vessels":[{"name":"V1","arrival":0,"amounts":[1000000,0]},{"name":"V2","arrival":5760,"amounts":[0,1000000]}],"storage":[{"name":"S1","min":0,"max":2000000,"amounts":[250000,0]},{"name":"S2","min":0,"max":2000000,"amounts":[0,750000]}],"charging":[{"name":"C1","min":0,"max":1000000,"amounts":[500000,0],"demand":[0,1000000]},{"name":"C2","min":0,"max":1000000,"amounts":[0,500000],"demand":[0,1000000]}],"units":[{"name":"CDU","continuous":true,"charges":[2,8]}],"operations":[{"name":"u1","from":"V1","to":"S1","rate":[0,500000],"volume":[1,1000000],"window":[0,11520],"limits":[]},{"name":"u2","from":"V2","to":"S2","rate":[0,500000],"volume":[1,1000000],"window":[5760,11520],"limits":[]},{"name":"t1","from":"S1","to":"C1","rate":[0,500000],"volume":[1,1000000],"window":[0,11520],"limits":[]},{"name":"t2","from":"S1","to":"C2","rate":[0,500000],"volume":[1,1000000],"window":[0,11520],"limits":[]},{"name":"t3","from":"S2","to":"C1","rate":[0,500000],"volume":[1,1000000],"window":[0,11520],"limits":[]},{"name":"t4","from":"S2","to":"C2","rate":[0,500000],"volume":[1,1000000],"window":[0,11520],"limits":[]},{"name":"c1","from":"C1","to":"CDU","rate":[50000,500000],"volume":[1,1000000],"window":[0,11520],"limits":[[0,150]]},{"name":"c2","from":"C2","to":"CDU","rate":[50000,500000],"volume":[1,1000000],"window":[0,11520],"limits":[[0,700]]}]}"#;

// The plant of the number 0.
const MADE_PLANT: &str =
    r#"{"format":1,"horizon":7200,"properties":["sulphur"],"crudes":[{"name":"A","margin":19,"properties":[55]},{"name":"B","margin":6,"properties":[19]},{"name":"C","margin":11,"properties":[20]},{"name":"D","margin":10,"properties":[12]}],"vessels":[{"name":"V1","arrival":0,"amounts":[300000,0,0,0]}],"storage":[{"name":"S1","min":0,"max":1000000,"amounts":[150000,0,0,0]},{"name":"S2","min":0,"max":1000000,"amounts":[0,200000,0,0]},{"name":"S3","min":0,"max":1000000,"amounts":[0,0,200000,0]}],"charging":[{"name":"C1","min":0,"max":1000000,"amounts":[100000,0,0,0],"demand":[0,10000000]},{"name":"C2","min":0,"max":1000000,"amounts":[0,100000,0,0],"demand":[0,10000000]}],"units":[{"name":"U1","continuous":false,"charges":[0,40]}],"operations":[{"name":"u1_1","from":"V1","to":"S1","rate":[0,500000],"volume":[1,500000],"window":[0,7200],"limits":[]},{"name":"u1_2","from":"V1","to":"S2","rate":[0,500000],"volume":[1,500000],"window":[0,7200],"limits":[]},{"name":"u1_3","from":"V1","to":"S3","rate":[0,500000],"volume":[1,500000],"window":[0,7200],"limits":[]},{"name":"t1_1","from":"S1","to":"C1","rate":[0,500000],"volume":[1,500000],"window":[0,7200],"limits":[]},{"name":"t1_2","from":"S1","to":"C2","rate":[0,500000],"volume":[1,500000],"window":[0,7200],"limits":[]},{"name":"t2_1","from":"S2","to":"C1","rate":[0,500000],"volume":[1,500000],"window":[0,7200],"limits":[]},{"name":"t2_2","from":"S2","to":"C2","rate":[0,500000],"volume":[1,500000],"window":[0,7200],"limits":[]},{"name":"t3_1","from":"S3","to":"C1","rate":[0,500000],"volume":[1,500000],"window":[0,7200],"limits":[]},{"name":"t3_2","from":"S3","to":"C2","rate":[0,500000],"volume":[1,500000],"window":[0,7200],"limits":[]},{"name":"c1","from":"C1","to":"U1","rate":[0,500000],"volume":[1,500000],"window":[0,7200],"limits":[[0,60]]},{"name":"c2","from":"C2","to":"U1","rate":[0,500000],"volume":[1,500000],"window":[0,7200],"limits":[[0,60]]}]}"#;

// Two vessels at two berths, each unloaded into a tank of its own.
const TWO_BERTHS: &str =
    r#"{"format":2,"horizon":2,"properties":[],"crudes":[{"name":"A","margin":1,"properties":[]}],"vessels":[{"name":"V1","arrival":0,"amounts":[4],"berth":1},{"name":"V2","arrival":0,"amounts":[4],"berth":2}],"storage":[{"name":"S1","min":0,"max":10,"amounts":[0]},{"name":"S2","min":0,"max":10,"amounts":[0]}],"charging":[],"units":[],"operations":[{"name":"u1","from":"V1","to":"S1","rate":[0,2880],"volume":[1,4],"window":[0,2],"limits":[]},{"name":"u2","from":"V2","to":"S2","rate":[0,2880],"volume":[1,4],"window":[0,2],"limits":[]}]}"#;

// The same vessels at one berth, in the format that tells none.
const ONE_BERTH: &str =
    r#"{"format":1,"horizon":2,"properties":[],"crudes":[{"name":"A","margin":1,"properties":[]}],"vessels":[{"name":"V1","arrival":0,"amounts":[4]},{"name":"V2","arrival":0,"amounts":[4]}],"storage":[{"name":"S1","min":0,"max":10,"amounts":[0]},{"name":"S2","min":0,"max":10,"amounts":[0]}],"charging":[],"units":[],"operations":[{"name":"u1","from":"V1","to":"S1","rate":[0,2880],"volume":[1,4],"window":[0,2],"limits":[]},{"name":"u2","from":"V2","to":"S2","rate":[0,2880],"volume":[1,4],"window":[0,2],"limits":[]}]}"#;

// A vessel that pays 5 for each minute of waiting.
const LATE_VESSEL: &str =
    r#"{"format":3,"horizon":4,"properties":[],"crudes":[{"name":"A","margin":1,"properties":[]}],"vessels":[{"name":"V1","arrival":1,"amounts":[4],"berth":1,"demurrage":5}],"storage":[{"name":"S1","min":0,"max":10,"amounts":[0]}],"charging":[],"units":[],"operations":[{"name":"u1","from":"V1","to":"S1","rate":[0,2880],"volume":[1,4],"window":[1,4],"limits":[]}]}"#;

pub fn made_plant() -> &'static str {
    MADE_PLANT
}

pub fn two_berths() -> &'static str {
    TWO_BERTHS
}

pub fn one_berth() -> &'static str {
    ONE_BERTH
}

pub fn late_vessel() -> &'static str {
    LATE_VESSEL
}

// A plan for `two_inlets`, and its ledger.
const TWO_INLETS_PLAN: &str = "op 1 T1 0 2 4\nop 2 G 2 3 6\n";

const TWO_INLETS_LEDGER: &str =
    "legal\nmargin 6\noperations 2\nop 1 T1 0 2 4\ndraw 4\nfrom S1 1 1\nto C1 6 6\nop 2 G 2 3 6\ndraw 6\nfrom C1 0 0\nto U 6 6\nunit U 1 1 6 6\n";

pub fn two_inlets_plan() -> &'static str {
    TWO_INLETS_PLAN
}

pub fn two_inlets_ledger() -> &'static str {
    TWO_INLETS_LEDGER
}

pub fn one_charge() -> &'static str {
    ONE_CHARGE
}

pub fn half_tank() -> &'static str {
    HALF_TANK
}

pub fn slow_charge() -> &'static str {
    SLOW_CHARGE
}

pub fn fixed_rate() -> &'static str {
    FIXED_RATE
}

pub fn losing_charge() -> &'static str {
    LOSING_CHARGE
}

pub fn two_inlets() -> &'static str {
    TWO_INLETS
}

pub fn two_vessels() -> &'static str {
    TWO_VESSELS
}

// A dossier on `one_charge` that says no more than its bound: the root stays open.
const ONE_CHARGE_OPEN: &str =
    "crude dossier 1\norder slots\nslots 1\nnodes 0\nanswer open\nmargin none\nbound 12\nplan none\ncuts 0\nnode 0 open 1\nend\n";

pub fn one_charge_open() -> &'static str {
    ONE_CHARGE_OPEN
}

// What `solve` writes of `one_charge` for one slot, with any number of nodes: the plan of four is built, and closes the
// root.
const ONE_DUAL: &str =
    "crude dossier 1\norder slots\nslots 1\nnodes 0\nanswer plan\nmargin 12\nbound 12\nplan 1\nop 1 c1 0 2 4\ncuts 0\nnode 0 dual 1\nend\n";

// The same with the root divided once.
const SPLIT_ONCE: &str =
    "crude dossier 1\norder slots\nslots 1\nnodes 1\nanswer plan\nmargin 12\nbound 12\nplan 1\nop 1 c1 0 2 4\ncuts 0\nnode 0 split 0 1 ops 1\nnode 1 dual 1\nnode 2 point\nend\n";

// Two charging tanks and two units, each with one charge. By their windows the second charge runs first.
const TWO_UNITS: &str =
    r#"{"format":1,"horizon":2,"properties":[],"crudes":[{"name":"A","margin":-1,"properties":[]}],"vessels":[],"storage":[],"charging":[{"name":"C1","min":0,"max":10,"amounts":[1],"demand":[0,10000000]},{"name":"C2","min":0,"max":10,"amounts":[1],"demand":[0,10000000]}],"units":[{"name":"U1","continuous":false,"charges":[1,1]},{"name":"U2","continuous":false,"charges":[1,1]}],"operations":[{"name":"c1","from":"C1","to":"U1","rate":[0,1440],"volume":[1,1],"window":[1,2],"limits":[]},{"name":"c2","from":"C2","to":"U2","rate":[0,1440],"volume":[1,1],"window":[0,1],"limits":[]}]}"#;

// Of `two_units`: in the one box that is neither void nor dead the later charge stands first.
const LATE_FIRST: &str = "\
crude dossier 1
order slots
slots 2
nodes 12
answer plan
margin -2
bound -2
plan 2
op 1 c2 0 1 1
op 2 c1 1 2 1
cuts 0
node 0 split 0 1 ops 1
node 1 split 1 2 ops 2
node 2 split 2 1 ops 2
node 3 split 3 1 start 1
node 4 void 12.3.1.0.0=1
node 5 split 4 2 ops 1
node 6 void 1.2.0.0.0=1 12.2.1.0.0=1 12.3.1.0.0=1
node 7 void 4.1.0.0.0=1
node 8 split 5 1 start 2
node 9 dead 2
node 10 void 12.2.1.0.0=1
node 11 split 6 1 end 2
node 12 void 4.1.0.2.0=1
node 13 void 4.1.0.2.0=1
node 14 split 7 1 volume 1
node 15 void 2.1.0.1.0=1
node 16 split 8 2 start 1
node 17 split 9 2 end 1
node 18 void 4.2.1.1.0=1 4.2.1.2.0=1
node 19 void 4.2.1.2.0=1
node 20 split 10 2 end 2
node 21 split 11 2 volume 1
node 22 void 4.2.1.1.0=1
node 23 void 2.2.1.1.0=1
node 24 point
end
";

pub fn two_units() -> &'static str {
    TWO_UNITS
}

pub fn late_first() -> &'static str {
    LATE_FIRST
}

// What `check` answers to `one_dual` and `split_once`.
const YES_OF_TWELVE: &str = "yes\nanswer plan\nmargin 12\nbound 12\n";

pub fn one_dual() -> &'static str {
    ONE_DUAL
}

pub fn split_once() -> &'static str {
    SPLIT_ONCE
}

pub fn yes_of_twelve() -> &'static str {
    YES_OF_TWELVE
}

/// The text with another part in the place of the first such part.
pub fn with(alloc: Global, text: &str, part: &str, other: &str) -> Result<String, Fail> {
    let (before, after) = text.split_once(part).ok_or("the part stands in the text")?;
    Ok(format!(in alloc; "{before}{other}{after}")?)
}
