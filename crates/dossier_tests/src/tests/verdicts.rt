use super::cases::*;
use super::samples::*;
use dossier_check::{Claim, Verdict, check};
use dossier_text::Word3;
use plant_model::Plant;
use sample_plants::{
    blend_drift, blend_limit, fixed_rate, late_vessel, one_charge, slow_charge, two_inlets,
};
use std::alloc::{AllocError, Global};
use std::test::Fail;

/// The word of an answer.
fn word(answer: Word3) -> &'static str {
    match answer {
        Word3::Plan => "plan",
        Word3::Infeasible => "infeasible",
        Word3::Open3 => "open",
    }
}

/// A claim in words; a margin or a bound that is not given as 99.
fn claimed(alloc: Global, claim: &Claim) -> Result<String, AllocError> {
    let steps = claim.plan.as_ref().map_or(0, |plan| plan.as_slice().len());
    let margin = claim.margin.unwrap_or(99);
    let bound = claim.bound.unwrap_or(99);
    let answer = word(claim.answer);
    format!(in alloc; "yes {answer} {} {steps} {margin} {bound}", claim.slots)
}

/// The verdict in words.
fn told(alloc: Global, plant: &Plant, file: &str) -> Result<String, AllocError> {
    match check(alloc, plant, file.as_bytes())? {
        Verdict::Yes(claim) => claimed(alloc, &claim),
        Verdict::No { reason, line } => format!(in alloc; "no {reason} {line}"),
    }
}

/// Whether this is the verdict on each of these files.
fn are_told(
    alloc: Global,
    plant: Result<Plant, AllocError>,
    files: &[Told],
) -> Result<bool, AllocError> {
    let plant = plant?;
    for (file, answer) in files {
        if told(alloc, &plant, file)?.as_str() != *answer {
            return Ok(false);
        }
    }
    Ok(true)
}

/// The reason of the verdict and its line; 0 and 0 of a yes.
fn refusal(alloc: Global, plant: &Plant, file: &[u8]) -> Result<(u8, u32), AllocError> {
    match check(alloc, plant, file)? {
        Verdict::Yes(_) => Ok((0, 0)),
        Verdict::No { reason, line } => Ok((reason, line)),
    }
}

/// Whether this is the verdict on the file with other words in one of its lines.
fn is_refused(alloc: Global, plant: &Plant, file: &str, case: Case) -> Result<bool, AllocError> {
    let (line, words, reason, at) = case;
    let changed = altered(alloc, file, line, words)?;
    Ok(refusal(alloc, plant, changed.as_bytes())? == (reason, at))
}

/// The first case, counted from 1, whose verdict is another one; 0 where there is none.
fn first_wrong(
    alloc: Global,
    plant: &Plant,
    file: &str,
    cases: &[Case],
) -> Result<usize, AllocError> {
    for (index, case) in cases.iter().enumerate() {
        if !is_refused(alloc, plant, file, *case)? {
            return Ok(index.saturating_add(1));
        }
    }
    Ok(0)
}

/// The first table, counted from 1, in which a case has another verdict, and the first such case; 0 and 0 where there
/// is none.
fn first_wrong_of(
    alloc: Global,
    plant: Result<Plant, AllocError>,
    tables: &[Table],
) -> Result<(usize, usize), AllocError> {
    let plant = plant?;
    for (index, (file, cases)) in tables.iter().enumerate() {
        let wrong = first_wrong(alloc, &plant, file, cases)?;
        if wrong != 0 {
            return Ok((index.saturating_add(1), wrong));
        }
    }
    Ok((0, 0))
}

#[test]
fn accepts_what_is_so(rt: HostRuntime) -> Result<(), Fail> {
    assert!(rt;
        are_told(
            rt.alloc(),
            one_charge().plant(rt.alloc()),
            one_charge_files()
        )?
    );
    Ok(())
}

#[test]
fn accepts_what_rows_show(rt: HostRuntime) -> Result<(), Fail> {
    let alloc = rt.alloc();
    assert!(rt; are_told(alloc, fixed_rate(alloc), fixed_rate_files())?);
    assert!(rt; are_told(alloc, slow_charge(alloc), slow_charge_files())?);
    assert!(rt; are_told(alloc, late_vessel(alloc), late_vessel_files())?);
    Ok(())
}

#[test]
fn accepts_blocked_prefixes(rt: HostRuntime) -> Result<(), Fail> {
    assert!(rt; are_told(rt.alloc(), two_inlets(rt.alloc()), inlets_files())?);
    Ok(())
}

#[test]
fn accepts_what_cuts_show(rt: HostRuntime) -> Result<(), Fail> {
    let alloc = rt.alloc();
    assert!(rt; are_told(alloc, one_charge().plant(alloc), cut_files())?);
    assert!(rt; are_told(alloc, blend_limit(alloc), limit_files())?);
    assert!(rt; are_told(alloc, blend_drift(alloc), drift_files())?);
    Ok(())
}

#[test]
fn names_the_first_reason(rt: HostRuntime) -> Result<(), Fail> {
    let plant = one_charge().plant(rt.alloc());
    assert_eq!(rt;
        first_wrong_of(rt.alloc(), plant, one_charge_tables())?,
        (0, 0)
    );
    Ok(())
}

#[test]
fn names_the_first_reason_against_rows(rt: HostRuntime) -> Result<(), Fail> {
    let alloc = rt.alloc();
    assert_eq!(rt;
        first_wrong_of(alloc, fixed_rate(alloc), fixed_rate_tables())?,
        (0, 0)
    );
    assert_eq!(rt;
        first_wrong_of(alloc, slow_charge(alloc), slow_charge_tables())?,
        (0, 0)
    );
    assert_eq!(rt;
        first_wrong_of(alloc, late_vessel(alloc), late_vessel_tables())?,
        (0, 0)
    );
    Ok(())
}

#[test]
fn names_the_first_reason_against_prefixes(rt: HostRuntime) -> Result<(), Fail> {
    assert_eq!(rt;
        first_wrong_of(rt.alloc(), two_inlets(rt.alloc()), inlets_tables())?,
        (0, 0)
    );
    Ok(())
}

#[test]
fn names_the_first_reason_against_cuts(rt: HostRuntime) -> Result<(), Fail> {
    let alloc = rt.alloc();
    let plant = one_charge().plant(alloc);
    assert_eq!(rt; first_wrong_of(alloc, plant, cut_tables())?, (0, 0));
    assert_eq!(rt;
        first_wrong_of(alloc, blend_limit(alloc), limit_tables())?,
        (0, 0)
    );
    assert_eq!(rt;
        first_wrong_of(alloc, blend_drift(alloc), drift_tables())?,
        (0, 0)
    );
    Ok(())
}

/// The first prefix whose verdict is not that it lacks the line in which it ends: a file that ends behind k line feeds
/// lacks line k + 1.
fn first_wrong_prefix(alloc: Global, plant: &Plant, file: &[u8]) -> Result<usize, AllocError> {
    let mut prefix = Vec::new(alloc);
    let mut line: u32 = 1;
    for byte in file {
        if refusal(alloc, plant, &prefix)? != (1, line) {
            break;
        }
        prefix.push(*byte)?;
        if *byte == b'\n' {
            line = line.saturating_add(1);
        }
    }
    Ok(prefix.len())
}

#[test]
fn accepts_no_prefix(rt: HostRuntime) -> Result<(), Fail> {
    let plant = one_charge().plant(rt.alloc())?;
    let file = split_once().as_bytes();
    assert_eq!(rt; first_wrong_prefix(rt.alloc(), &plant, file)?, file.len());
    Ok(())
}

/// The verdict on the file of a leaf with so many entries.
fn counted(alloc: Global, plant: &Plant, entries: u32) -> Result<(u8, u32), AllocError> {
    let leaf = long_leaf(alloc, entries)?;
    let file = altered(alloc, one_dual(), 11, leaf.as_str())?;
    refusal(alloc, plant, file.as_bytes())
}

#[test]
fn counts_entries(rt: HostRuntime) -> Result<(), Fail> {
    let plant = one_charge().plant(rt.alloc())?;
    assert_eq!(rt; counted(rt.alloc(), &plant, 512)?, (0, 0));
    assert_eq!(rt; counted(rt.alloc(), &plant, 513)?, (2, 11));
    Ok(())
}

// The plan breaks a rule on its end, or earns more.
#[test]
fn names_lines_of_the_plan(rt: HostRuntime) -> Result<(), Fail> {
    let alloc = rt.alloc();
    let twice = one_charge().charged(2).plant(alloc);
    assert!(rt; are_told(alloc, twice, short_files())?);
    let dearer = one_charge().earning(4).plant(alloc);
    assert!(rt; are_told(alloc, dearer, dearer_files())?);
    Ok(())
}
