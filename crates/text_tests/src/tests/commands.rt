use command_line::{Command, FileName, WordFault, line_laws, read_words};
use std::alloc::{AllocError, Global};
use std::test::Fail;

/// The words between single blanks.
fn words(alloc: Global, line: &str) -> Result<Vec<String>, AllocError> {
    let mut words = Vec::new(alloc);
    for word in line.split(' ') {
        words.push(String::from_str(alloc, word)?)?;
    }
    Ok(words)
}

/// A verb, its files and its numbers, between single blanks.
fn line(
    alloc: Global,
    verb: &str,
    files: &[&FileName],
    numbers: &[u32],
) -> Result<String, AllocError> {
    let mut line = String::from_str(alloc, verb)?;
    for file in files {
        line.push(' ')?;
        line.push_str(file.as_str())?;
    }
    for number in numbers {
        line.push(' ')?;
        line.push_str(number.to_string(alloc)?.as_str())?;
    }
    Ok(line)
}

/// The command in a few words: its verb, its files, and its numbers in the order in which the command has them.
fn said(alloc: Global, command: &Command) -> Result<String, AllocError> {
    match command {
        Command::Solve { plant, ask } => {
            line(
                alloc,
                "solve",
                &[plant],
                &[ask.slots, ask.nodes, ask.workers],
            )
        }
        Command::Check { plant, dossier } => line(alloc, "check", &[plant, dossier], &[]),
        Command::Replay { plant, plan } => line(alloc, "replay", &[plant, plan], &[]),
        Command::Show { plant } => line(alloc, "show", &[plant], &[]),
        Command::Make { number, solve } => {
            let verb = if *solve { "make and solve" } else { "make" };
            line(alloc, verb, &[], &[*number])
        }
        Command::Root { plant, slots } => line(alloc, "root", &[plant], &[*slots]),
        Command::Replan {
            plant,
            plan,
            at,
            slots,
            nodes,
        } => line(alloc, "replan", &[plant, plan], &[*at, *slots, *nodes]),
        Command::Recheck {
            plant,
            plan,
            dossier,
            at,
        } => line(alloc, "recheck", &[plant, plan, dossier], &[*at]),
    }
}

/// What the line says, if it is a plain one.
fn reading(alloc: Global, line: &str) -> Result<Option<String>, Fail> {
    let words = words(alloc, line)?;
    match read_words(alloc, &words) {
        Ok(command) => Ok(Some(said(alloc, &command)?)),
        Err(WordFault::Words) => Ok(None),
        Err(WordFault::Memory) => Err(Fail::from("out of memory")),
    }
}

// Lines and the commands that they are. The functions beside the tables promise nothing of them, so that the proofs of
// the tests do not read them.
const PLAIN: &[(&str, &str)] = &[
    ("solve p --slots 1 --nodes 0 --workers 1", "solve p 1 0 1"),
    ("solve p --slots 2 --workers 1 --nodes 3", "solve p 2 3 1"),
    ("solve p --nodes 7 --slots 3 --workers 2", "solve p 3 7 2"),
    (
        "solve p --nodes 65535 --workers 16 --slots 40",
        "solve p 40 65535 16",
    ),
    ("solve p --workers 1 --slots 40 --nodes 9", "solve p 40 9 1"),
    (
        "solve one_charge --workers 1 --nodes 0 --slots 1",
        "solve one_charge 1 0 1",
    ),
    (
        "solve solve --workers 1 --nodes 10 --slots 10",
        "solve solve 10 10 1",
    ),
    ("check p d", "check p d"),
    ("check check check", "check check check"),
    ("replay p d", "replay p d"),
    ("replay a/b=c d-e", "replay a/b=c d-e"),
    ("show p", "show p"),
    ("show help", "show help"),
    ("show käse", "show käse"),
    ("make 0", "make 0"),
    ("make 7", "make 7"),
    ("make 4294967295", "make 4294967295"),
    ("make 0 --solve", "make and solve 0"),
    ("make 4294967295 --solve", "make and solve 4294967295"),
    ("root p --slots 1", "root p 1"),
    ("root p --slots 40", "root p 40"),
    (
        "replan p d --at 1 --slots 2 --nodes 45",
        "replan p d 1 2 45",
    ),
    ("replan p d --at 0 --nodes 0 --slots 1", "replan p d 0 1 0"),
    (
        "replan p d --slots 2 --at 100000 --nodes 4",
        "replan p d 100000 2 4",
    ),
    ("replan p d --slots 2 --nodes 4 --at 6", "replan p d 6 2 4"),
    ("replan p d --nodes 4 --at 6 --slots 2", "replan p d 6 2 4"),
    (
        "replan p d --nodes 65535 --slots 40 --at 6",
        "replan p d 6 40 65535",
    ),
    ("recheck p d e --at 0", "recheck p d e 0"),
    ("recheck p d e --at 100000", "recheck p d e 100000"),
];

fn plain() -> &'static [(&'static str, &'static str)] {
    PLAIN
}

#[test]
fn reads_plain_lines(rt: HostRuntime) -> Result<(), Fail> {
    for (line, wanted) in plain() {
        let read = reading(rt.alloc(), line)?.ok_or("a plain line")?;
        assert_eq!(rt; read.as_str(), *wanted);
    }
    Ok(())
}

const OTHERS: &[&str] = &[
    "",
    "--help",
    "help",
    "-h",
    "version",
    "solve",
    "Solve p --slots 1 --nodes 0 --workers 1",
    "solve p",
    "solve p --slots 1 --nodes 0",
    "solve -p --slots 1 --nodes 0 --workers 1",
    "solve - --slots 1 --nodes 0 --workers 1",
    "solve  --slots 1 --nodes 0 --workers 1",
    "solve --nodes 0 --slots 1 --workers 1 p",
    "solve --slots 1 p --nodes 0 --workers 1",
    "solve p --slots 0 --nodes 0 --workers 1",
    "solve p --slots 41 --nodes 0 --workers 1",
    "solve p --slots 01 --nodes 0 --workers 1",
    "solve p --slots +1 --nodes 0 --workers 1",
    "solve p --slots -1 --nodes 0 --workers 1",
    "solve p --slots 1x --nodes 0 --workers 1",
    "solve p --slots 4294967297 --nodes 0 --workers 1",
    "solve p --slots 18446744073709551617 --nodes 0 --workers 1",
    "solve p --slots  --nodes 0 --workers 1",
    "solve p --slots 1 --nodes 65536 --workers 1",
    "solve p --slots 1 --nodes 00 --workers 1",
    "solve p --slots 1 --nodes 0 --workers 0",
    "solve p --slots 1 --nodes 0 --workers 17",
    "solve p --slots 1 --nodes 0 --nodes 0",
    "solve p --slots 1 --nodes 0 --nodes 0 --workers 1",
    "solve p --nodes 0 --nodes 0 --nodes 0",
    "solve p --slots 1 --nodes 0 --slots 1",
    "solve p --slot 1 --nodes 0 --workers 1",
    "solve p --slots=1 --nodes 0 --workers 1",
    "solve p --slots --nodes 0 --workers 1 1",
    "solve p slots 1 --nodes 0 --workers 1",
    "solve p -s 1 --nodes 0 --workers 1",
    "solve p --at 1 --nodes 0 --workers 1",
    "solve p --slots 1 --nodes 0 --workers 1 ",
    "solve p --slots 1 --nodes 0 --workers 1 more",
    "solve -- p --slots 1 --nodes 0 --workers 1",
    "check p",
    "check p d e",
    "check -p d",
    "check p -d",
    "check p --solve",
    "replay p",
    "replay p d e",
    "replay p -",
    "replay  p d",
    "show",
    "show -p",
    "show p q",
    "show --help",
    "make",
    "make p",
    "make -1",
    "make 007",
    "make 4294967296",
    "make 4294967296 --solve",
    "make --solve 7",
    "make --solve",
    "make 7 solve",
    "make 7 --solve --solve",
    "make 7 8",
    "root p",
    "root p --slots 0",
    "root p --slots 41",
    "root p --nodes 1",
    "root p --slots 1 --slots 1",
    "replan p --at 1 --slots 2 --nodes 45",
    "replan p d --at 100001 --slots 2 --nodes 45",
    "replan p d --at 1 --at 1 --nodes 45",
    "replan p d --at 1 --slots 2 --workers 1",
    "recheck p d --at 1",
    "recheck p d e --at 100001",
    "recheck p d e 1",
];

fn others() -> &'static [&'static str] {
    OTHERS
}

#[test]
fn refuses_other_lines(rt: HostRuntime) -> Result<(), Fail> {
    for line in others() {
        assert!(rt; reading(rt.alloc(), line)?.is_none(), "{line}");
    }
    Ok(())
}

/// Whether a file's name of so many bytes is taken.
fn is_taken(alloc: Global, length: usize) -> Result<bool, Fail> {
    let mut line = String::from_str(alloc, "show ")?;
    for _ in 0..length {
        line.push('x')?;
    }
    Ok(reading(alloc, line.as_str())?.is_some())
}

#[test]
fn takes_names_of_255_bytes(rt: HostRuntime) -> Result<(), Fail> {
    assert!(rt; is_taken(rt.alloc(), 255)?);
    assert!(rt; !is_taken(rt.alloc(), 256)?);
    let no_words: Vec<String> = Vec::new(rt.alloc());
    assert!(rt; matches!(read_words(rt.alloc(), &no_words), Err(WordFault::Words)));
    line_laws();
    Ok(())
}
