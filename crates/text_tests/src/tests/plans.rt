use plan_text::{OpLine, PlanTextFault, ledger, print_plan, push_op_line, read_op_line, read_plan};
use plant_model::{Name, Plant};
use replay_core::{Broken, Plan, ReplayFault, Timed};
use sample_plants::one_charge;
use std::alloc::{AllocError, Global};
use std::process::Abort;
use std::test::Fail;

// The line of an operation from minute 0 on.
fn op_line(
    alloc: Global,
    number: u32,
    name: &[u8],
    end: u32,
    volume: u32,
) -> Result<OpLine, AllocError> {
    Ok(OpLine {
        number,
        name: Name::new(alloc, name)?,
        start: 0,
        end,
        volume,
    })
}

fn is_same(read: &OpLine, line: &OpLine) -> bool {
    read.name.as_slice() == line.name.as_slice()
        && (read.number, read.start) == (line.number, line.start)
        && (read.end, read.volume) == (line.end, line.volume)
}

fn written(alloc: Global, line: &OpLine) -> Result<Vec<u8>, AllocError> {
    let mut out = Vec::new(alloc);
    push_op_line(&mut out, line)?;
    Ok(out)
}

#[test]
fn reads_what_it_wrote(rt: HostRuntime) -> Result<(), Fail> {
    let line = op_line(rt.alloc(), 7, b"c1.a-b_C", 2, 4_294_967_295)?;
    let out = written(rt.alloc(), &line)?;
    assert_eq!(rt; out.as_slice(), b"op 7 c1.a-b_C 0 2 4294967295".as_slice());
    let read = read_op_line(rt.alloc(), &out)?.ok_or("the line is an operation's")?;
    assert!(rt; is_same(&read, &line));
    Ok(())
}

// Lines that are none of an operation. The functions beside this table and the next promise nothing of them, so that
// the proofs of the tests do not read them.
const OTHERS: &[&str] = &[
    "",
    "op",
    "op 1 c1 0 2",
    "op 1 c1 0 2 4 5",
    "op 1 c1 0 2 4 ",
    " op 1 c1 0 2 4",
    "op  1 c1 0 2 4",
    "ap 1 c1 0 2 4",
    "op 01 c1 0 2 4",
    "op 4294967296 c1 0 2 4",
    "op 1 c,1 0 2 4",
    "op 1 c1 0 2 +4",
    "op 1 c1 0 2 4294967296",
    "op 1 c1 0 2 4\r",
    "op 1 c1 0 2 4\n",
];

fn others() -> &'static [&'static str] {
    OTHERS
}

#[test]
fn reads_no_other_line(rt: HostRuntime) -> Result<(), Fail> {
    for line in others() {
        let read = read_op_line(rt.alloc(), line.as_bytes())?;
        assert!(rt; read.is_none(), "{line}");
    }
    Ok(())
}

fn sample(alloc: Global) -> Result<Plant, AllocError> {
    one_charge().plant(alloc)
}

// A text, and the number of its first line that is none of a plan.
const TEXTS: &[(&str, Option<u32>)] = &[
    ("", None),
    ("op 1 c1 0 1 2\n", None),
    ("op 1 c1 0 1 2\nop 2 c1 1 2 2\n", None),
    ("op 1 c1 9 1 0\n", None),
    ("op 1 c1 0 1 2", Some(1)),
    ("op 2 c1 0 1 2\n", Some(1)),
    ("op 0 c1 0 1 2\n", Some(1)),
    ("\n", Some(1)),
    ("op 1 c1 0 1 2\n\n", Some(2)),
    ("op 1 c1 0 1 2\nop 1 c1 1 2 2\n", Some(2)),
    ("op 1 c1 0 1 2\nop 2 c1 1 2 2", Some(2)),
    ("op 1 c1 0 1 2\r\n", Some(1)),
];

fn texts() -> &'static [(&'static str, Option<u32>)] {
    TEXTS
}

// Whether the text is read as a plan and printed as it was, or refused at that line.
fn is_read(alloc: Global, plant: &Plant, text: &[u8], wanted: Option<u32>) -> Result<bool, Fail> {
    match read_plan(alloc, plant, text) {
        Err(PlanTextFault::Line(number)) => Ok(wanted == Some(number)),
        Err(PlanTextFault::Memory) => Ok(false),
        Ok(plan) => Ok(wanted.is_none() && is_printed(alloc, plant, &plan, text)?),
    }
}

// Whether the plan, whose operations are the first one, is printed so.
fn is_printed(alloc: Global, plant: &Plant, plan: &Plan, text: &[u8]) -> Result<bool, Fail> {
    let plan = plan.as_slice();
    if plan.len() > 1000 || plan.iter().any(|t| t.op >= plant.op_count()) {
        return Ok(false);
    }
    Ok(print_plan(alloc, plant, plan)?.as_slice() == text)
}

#[test]
fn reads_and_prints_plans(rt: HostRuntime) -> Result<(), Fail> {
    let plant = sample(rt.alloc())?;
    for (text, wanted) in texts() {
        assert!(rt;
            is_read(rt.alloc(), &plant, text.as_bytes(), *wanted)?,
            "{text}"
        );
    }
    Ok(())
}

// So many lines of a plan.
fn many_lines(alloc: Global, count: u32) -> Result<Vec<u8>, Fail> {
    let mut text = Vec::new(alloc);
    for number in 0..count {
        let line = op_line(alloc, number.saturating_add(1), b"zz", 1, 2)?;
        push_op_line(&mut text, &line)?;
        text.push(b'\n')?;
    }
    Ok(text)
}

#[test]
fn reads_a_thousand_lines(rt: HostRuntime) -> Result<(), Fail> {
    let plant = sample(rt.alloc())?;
    let text = many_lines(rt.alloc(), 1000)?;
    let plan = read_plan(rt.alloc(), &plant, &text).map_err(|_| "a plan")?;
    assert_eq!(rt; plan.as_slice().len(), 1000);
    assert!(rt; plan.as_slice().iter().all(|step| step.op == 255));
    Ok(())
}

#[test]
fn reads_no_line_more(rt: HostRuntime) -> Result<(), Fail> {
    let plant = sample(rt.alloc())?;
    let text = many_lines(rt.alloc(), 1001)?;
    let read = read_plan(rt.alloc(), &plant, &text);
    assert!(rt; matches!(read, Err(PlanTextFault::Line(1001))));
    Ok(())
}

const LEDGER: &str = "legal
margin 12
operations 2
op 1 c1 0 1 2
draw 2
from C1 2 2
to U 2 2
op 2 c1 1 2 2
draw 2
from C1 0 0
to U 4 4
unit U 2 2 4 4
";

fn ledger_text() -> &'static str {
    LEDGER
}

fn twice(volume: u32) -> [Timed; 2] {
    let first = Timed {
        op: 0,
        start: 0,
        end: 1,
        volume: 2,
    };
    let second = Timed {
        op: 0,
        start: 1,
        end: 2,
        volume,
    };
    [first, second]
}

// What the ledger of a charge of 2 and one of this volume is, as text.
fn assert_ledger(
    rt: &impl Abort,
    alloc: Global,
    plant: &Plant,
    volume: u32,
    wanted: Result<&str, ReplayFault>,
) {
    match (ledger(alloc, plant, twice(volume).as_slice()), wanted) {
        (Ok(text), Ok(wanted)) => assert_eq!(rt; text.as_slice(), wanted.as_bytes()),
        (Err(fault), Err(wanted)) => assert_eq!(rt; fault, wanted),
        _ => assert!(rt; false, "one of them is a ledger"),
    }
}

#[test]
fn writes_ledgers_of_legal_plans(rt: HostRuntime) -> Result<(), Fail> {
    let plant = sample(rt.alloc())?;
    let broken = Broken { rule: 5, at: 2 };
    for (volume, wanted) in [(2, Ok(ledger_text())), (3, Err(ReplayFault::Rule(broken)))] {
        assert_ledger(&rt, rt.alloc(), &plant, volume, wanted);
    }
    Ok(())
}
