//! Runs over files in memory, and how they end.

use crude_run::run;
use item_lists::Copies;
use outer_edge::{CallList, FileList, FreeGate, Gate, MemoryShelf, MemorySink};
use std::alloc::{AllocError, Global};
use std::process::Abort;
use std::sync::Wait;
use std::thread::Threads;

/// The most bytes that a sink of most runs takes at a time.
pub const PIECE: u32 = 10;

const ROOM: u32 = 16_777_216;

/// How a run ended, and what it had written by then.
#[derive(Drop)]
pub struct Ended {
    status: u8,
    written: Vec<u8>,
}

impl Ended {
    /// Whether it ended so.
    pub fn is(&self, status: u8, text: &str) -> bool {
        self.status == status && self.written.as_slice() == text.as_bytes()
    }

    /// What it had written.
    pub fn written(&self) -> &[u8] {
        &self.written
    }

    /// What it had written, as text.
    fn text(&self) -> &str {
        str::from_utf8(&self.written).unwrap_or("no text")
    }

    /// Whether it ended so, with a text in which these lines stand.
    fn claims(&self, status: u8, lines: &str) -> bool {
        self.status == status && self.text().contains(lines)
    }
}

/// The run ended so.
pub fn assert_ended(rt: &impl Abort, ended: &Ended, status: u8, text: &str) {
    let (found, told) = (ended.status, ended.text());
    assert!(rt;
        ended.is(status, text),
        "not {status} {text}, but {found} {told}"
    );
}

/// The run ended so, with a text in which these lines stand.
pub fn assert_claims(rt: &impl Abort, ended: &Ended, status: u8, lines: &str) {
    let (found, told) = (ended.status, ended.text());
    assert!(rt;
        ended.claims(status, lines),
        "not {status} {lines}, but {found} {told}"
    );
}

/// What lies outside a run: the call of the shelf and the call of the sink that fail, counted from 1, where 0 is
/// none, and the most bytes that the sink takes at a time.
#[derive(Clone, Copy)]
pub struct Outside {
    pub read: u32,
    pub write: u32,
    pub piece: u32,
}

/// No call fails.
pub const SOUND: Outside = Outside {
    read: 0,
    write: 0,
    piece: PIECE,
};

/// The words of a line.
pub fn words(alloc: Global, line: &str) -> Result<Vec<String>, AllocError> {
    let mut words = Vec::new(alloc);
    for word in line.split_whitespace() {
        words.push(String::from_str(alloc, word)?)?;
    }
    Ok(words)
}

/// A shelf with the file `plant`, and a second one that is there as `dossier` and as `plan`.
pub fn shelf(
    alloc: Global,
    plant: &[u8],
    second: &[u8],
    outside: Outside,
) -> Result<MemoryShelf, AllocError> {
    let mut files = FileList::new(alloc);
    files.push("plant", plant)?;
    files.push("dossier", second)?;
    files.push("plan", second)?;
    MemoryShelf::new(alloc, files, Copies::new(alloc, &[outside.read])?)
}

/// A sink that takes pieces, each of a byte at least.
pub fn sink(alloc: Global, outside: Outside) -> Result<MemorySink, AllocError> {
    let calls = CallList::new(alloc, &[outside.write])?;
    MemorySink::new(alloc, outside.piece.max(1), ROOM, calls)
}

/// How a run on this plant ends.
pub fn outcome(
    rt: &(impl Threads + Wait + Sync),
    alloc: Global,
    line: &str,
    plant: &[u8],
    outside: Outside,
) -> Result<Ended, AllocError> {
    outcome_with(rt, alloc, line, plant, b"", outside)
}

/// How a run on this plant and this second file ends.
pub fn outcome_with(
    rt: &(impl Threads + Wait + Sync),
    alloc: Global,
    line: &str,
    plant: &[u8],
    second: &[u8],
    outside: Outside,
) -> Result<Ended, AllocError> {
    let shelf = shelf(alloc, plant, second, outside)?;
    outcome_by(rt, alloc, line, shelf, outside, &FreeGate)
}

/// How a run with this shelf ends, whose workers this gate holds back.
pub fn outcome_by<R: Threads + Wait + Sync, G: Gate>(
    rt: &R,
    alloc: Global,
    line: &str,
    mut shelf: MemoryShelf,
    outside: Outside,
    gate: &G,
) -> Result<Ended, AllocError> {
    let words = words(alloc, line)?;
    let mut out = sink(alloc, outside)?;
    let status = run(rt, alloc, &words, &mut shelf, &mut out, gate).code();
    let written = Vec::from_slice(alloc, out.as_slice())?;
    Ok(Ended { status, written })
}
