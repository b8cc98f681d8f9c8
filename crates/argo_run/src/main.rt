//! The program: words, the bytes of a script and its report.
//!
//! `run` does all that the program does, and `run_with` the same with a pause for runs in threads. `run_serial` is what `run` does for
//! the words `serial N`, and `run_gen` for `gen N`. With status 0 what was written is exactly the report of the abstract Argo machine,
//! under the picks of the seed or, for `threads`, under the schedule that the report names; or the summary of the scripts that the number
//! makes. `end_of` says what the last flush leaves of that. It stands on all crates below it.
#![tactic(auto)]

mod end;
mod generated;
mod input;
mod output;
mod program;
mod serial;
mod status;
#[cfg(test)]
mod tests;
mod threads;
mod words;

use argo_outside::{StdSink, StdSource};
pub use end::end_of;
pub use generated::run_gen;
pub use program::{run, run_with};
pub use serial::run_serial;
pub use status::Status;
use std::alloc::Global;
use std::env;
use std::io::{self, BufWriter, ErrorKind, Read, Write};
use std::process::ExitCode;
use std::sync::Wait;
use std::thread::Threads;

/// The exit status where the system refuses the words, as for one that is not UTF-8.
const WORDS_REFUSED: u8 = 11;

fn main(rt: HostRuntime) -> ExitCode {
    let words = match words_of(&rt) {
        Ok(words) => words,
        Err(error) if error.kind() == ErrorKind::OutOfMemory => {
            return ExitCode::from(Status::NoMemory.number());
        }
        Err(_) => return ExitCode::from(WORDS_REFUSED),
    };
    // Standard output is buffered where there is memory for it.
    let status = match BufWriter::new(rt.alloc(), rt.stdout()) {
        Ok(writer) => run_into(&rt, rt.alloc(), &words, rt.stdin(), writer),
        Err(_) => run_into(&rt, rt.alloc(), &words, rt.stdin(), rt.stdout()),
    };
    ExitCode::from(status.number())
}

// The words after the program's name.
fn words_of(rt: &HostRuntime) -> io::Result<Vec<String>> {
    Ok(env::args(rt)?.skip(1).collect(rt.alloc())?)
}

// Runs over this reader and this writer.
fn run_into<R: Threads + Wait + Sync, I: Read + Drop, O: Write + Drop>(
    rt: &R,
    alloc: Global,
    words: &Vec<String>,
    reader: I,
    writer: O,
) -> Status {
    let mut src = StdSource::new(reader);
    let mut out = StdSink::new(writer);
    let status = run(rt, alloc, words, &mut src, &mut out);
    end_of(status, &mut out)
}
