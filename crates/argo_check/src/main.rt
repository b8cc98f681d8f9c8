//! The program: a script and its report come in, and whether the report is right goes out.
//!
//! `check` does all that the program does: it answers yes exactly where the report's bytes are those of the report of the script under
//! a complete schedule, and else the first line that is wrong. For the words `why V K` it tells after yes the steps of line K of section
//! V, and its reply. `end_of` says what the last flush leaves of that. It stands on argo_machine, by which it replays the schedule that
//! the report names, and on the crates for texts.
#![tactic(auto)]

mod comparer;
mod cut;
mod difference;
mod end;
mod input;
mod program;
mod replay;
mod said;
mod status;
#[cfg(test)]
mod tests;
mod verdict;
mod why;
mod words;

use argo_outside::{StdSink, StdSource};
pub use end::end_of;
pub use program::check;
pub use status::CheckStatus;
use std::env;
use std::io::{self, BufWriter, ErrorKind, Write};
use std::process::ExitCode;

/// The exit status where the system refuses the words, as for one that is not UTF-8.
const WORDS_REFUSED: u8 = 11;

fn main(rt: HostRuntime) -> ExitCode {
    match words_of(&rt) {
        Ok(words) => ExitCode::from(check_on_system(&rt, &words).number()),
        Err(error) if error.kind() == ErrorKind::OutOfMemory => {
            ExitCode::from(CheckStatus::NoMemory.number())
        }
        Err(_) => ExitCode::from(WORDS_REFUSED),
    }
}

// The words after the program's name.
fn words_of(rt: &HostRuntime) -> io::Result<Vec<String>> {
    Ok(env::args(rt)?.skip(1).collect(rt.alloc())?)
}

// Checks over standard input and standard output, which is buffered where there is memory for it.
fn check_on_system(rt: &HostRuntime, words: &Vec<String>) -> CheckStatus {
    match BufWriter::new(rt.alloc(), rt.stdout()) {
        Ok(writer) => check_into(rt, words, writer),
        Err(_) => check_into(rt, words, rt.stdout()),
    }
}

// Checks over standard input and this writer.
fn check_into<O: Write + Drop>(rt: &HostRuntime, words: &Vec<String>, writer: O) -> CheckStatus {
    let mut src = StdSource::new(rt.stdin());
    let mut out = StdSink::new(writer);
    let status = check(rt.alloc(), words, &mut src, &mut out);
    end_of(status, &mut out)
}
