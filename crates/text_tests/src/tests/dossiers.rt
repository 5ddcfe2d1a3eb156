mod cases;

use super::altered::with;
use cases::changed_parts;
use dossier_text::{Dossier, DossierFault, read_dossier, write_dossier};
use std::alloc::{AllocError, Global};
use std::process::Abort;
use std::test::Fail;

const ONE_DUAL: &str =
    "crude dossier 1\norder slots\nslots 1\nnodes 0\nanswer plan\nmargin 12\nbound 12\nplan 1\nop 1 c1 0 2 4\ncuts 0\nnode 0 dual 1\nend\n";

const SPLIT_ONCE: &str =
    "crude dossier 1\norder slots\nslots 1\nnodes 1\nanswer plan\nmargin 12\nbound 12\nplan 1\nop 1 c1 0 2 4\ncuts 0\nnode 0 split 0 1 ops 1\nnode 1 dual 1\nnode 2 point\nend\n";

const VOID_ROOT: &str =
    "crude dossier 1\norder slots\nslots 1\nnodes 0\nanswer infeasible\nmargin none\nbound none\nplan none\ncuts 0\nnode 0 void 3.1.0.0.0=1 11.1.1.0.0=4320\nend\n";

// The functions promise nothing of the files, so that the proofs of the tests do not read them.
fn one_dual() -> &'static str {
    ONE_DUAL
}

fn files() -> &'static [&'static str] {
    &[ONE_DUAL, SPLIT_ONCE, VOID_ROOT]
}

// Whether the dossier is written as it was read.
fn told_again(alloc: Global, dossier: &Dossier, file: &[u8]) -> Result<String, AllocError> {
    let written = write_dossier(alloc, dossier)?;
    let same = written.as_slice() == file;
    String::from_str(alloc, if same { "the same" } else { "another" })
}

// What the reader tells of a file; a dossier is written again as it was read.
fn told(alloc: Global, file: &[u8]) -> Result<String, AllocError> {
    match read_dossier(alloc, file) {
        Ok(dossier) => told_again(alloc, &dossier, file),
        Err(DossierFault::Line(line)) => format!(in alloc; "line {line}"),
        Err(DossierFault::TooMany(line)) => format!(in alloc; "too many {line}"),
        Err(DossierFault::Memory) => Err(AllocError),
    }
}

// What the reader tells of the single box with another part.
fn told_with(alloc: Global, old: &str, new: &str) -> Result<String, Fail> {
    let file = with(alloc, one_dual(), old, new)?;
    Ok(told(alloc, file.as_bytes())?)
}

// Whether a file that ends behind so many lines lacks the next one.
fn lacks(alloc: Global, file: &[u8], lines: usize) -> Result<bool, AllocError> {
    match read_dossier(alloc, file) {
        Err(DossierFault::Line(line)) => Ok(line as usize == lines.saturating_add(1)),
        Err(DossierFault::Memory) => Err(AllocError),
        _ => Ok(false),
    }
}

// Each file that ends within this one lacks its next line.
fn assert_lacks(rt: &impl Abort, alloc: Global, file: &str) -> Result<(), Fail> {
    let mut begun = String::new(alloc);
    for (lines, line) in file.split_inclusive('\n').enumerate() {
        assert!(rt; lacks(alloc, begun.as_bytes(), lines)?, "{line}");
        begun.push_str(line)?;
    }
    Ok(())
}

#[test]
fn lacks_its_next_line(rt: HostRuntime) -> Result<(), Fail> {
    for file in files() {
        assert_eq!(rt; told(rt.alloc(), file.as_bytes())?.as_str(), "the same");
        assert_lacks(&rt, rt.alloc(), file)?;
    }
    Ok(())
}

#[test]
fn tells_the_first_line_with_a_fault(rt: HostRuntime) -> Result<(), Fail> {
    for (old, new, wanted) in changed_parts() {
        let told = told_with(rt.alloc(), old, new)?;
        assert_eq!(rt; told.as_str(), *wanted, "{new}");
    }
    Ok(())
}

// A node of so many terms.
fn long_node(alloc: Global, count: u32) -> Result<String, AllocError> {
    let mut node = String::from_str(alloc, "node 0 dual 1")?;
    for _ in 0..count {
        node.push_str(" 1.1.0.0.0=1")?;
    }
    Ok(node)
}

#[test]
fn counts_the_terms_of_a_node(rt: HostRuntime) -> Result<(), Fail> {
    for (count, wanted) in [(1, "the same"), (512, "the same"), (513, "too many 11")] {
        let node = long_node(rt.alloc(), count)?;
        let told = told_with(rt.alloc(), "node 0 dual 1", node.as_str())?;
        assert_eq!(rt; told.as_str(), wanted);
    }
    Ok(())
}
