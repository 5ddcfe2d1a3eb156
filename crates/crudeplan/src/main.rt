//! The program: it gathers its words, hands the real files and the standard output to `crude_run::run`,
//! and ends with the status that comes back. It decides nothing and writes nothing itself.
#![tactic(auto)]

use crude_run::{NO_MEMORY, run};
use outer_edge::{DirShelf, FreeGate, OutSink};
use std::alloc::AllocError;
use std::env;
use std::io::ErrorKind;
use std::process::ExitCode;
use std::rt::Env;

/// The words after the program's name. Arguments that are not text are no words at all, so that they
/// are refused as words.
fn words<R: Env + AllocGlobal>(rt: &R) -> Result<Vec<String>, AllocError> {
    match env::args(rt) {
        Ok(arguments) => arguments.skip(1).collect(rt.alloc()),
        Err(error) if error.kind() == ErrorKind::OutOfMemory => Err(AllocError),
        Err(_) => Ok(Vec::new(rt.alloc())),
    }
}

fn main(rt: HostRuntime) -> ExitCode {
    let Ok(words) = words(&rt) else {
        return ExitCode::from(NO_MEMORY);
    };
    let mut shelf = DirShelf::new(&rt);
    let mut out = OutSink::new(&rt);
    let status = run(&rt, rt.alloc(), &words, &mut shelf, &mut out, &FreeGate);
    ExitCode::from(status.code())
}
