ghost use Rattle.std.specs.Prelude.{◌≡◌, ◌⊎◌, ◌+◌, ◌^◌, ◌<◌, length, IfOk, IfErr, IsTrue, Ok};
ghost use Rattle.argo_model.specs.Runs.Script.{is_lawful};
ghost use Rattle.script_text.specs.Lines.{lines_of, words_of, said_from};
ghost use Rattle.script_text.specs.Gives.{Reads};
ghost use Rattle.script_text.specs.Cause.{Finds, IsCause, at};
ghost use Rattle.script_text.specs.Scripts.{header_of, read_on, scripts_of};

use crate::kind::{Cause, ReadFault, ScriptFault, ScriptKind};
use crate::lines::next_line;
use crate::reader::Reader;
use crate::verb::is_word;
use crate::words::next_word;
use argo_model::Scripts;
use std::alloc::Global;

/// A script has no more bytes.
const MOST_BYTES: usize = 4_194_304;

fn fault_at(line: u32, cause: Cause) -> ReadFault
    ensures { result ≡ at line cause }
{
    match cause {
        Cause::Kind(kind) => ReadFault::Script(ScriptFault { line, kind }),
        Cause::NoMemory => ReadFault::NoMemory,
    }
}

// The format that the first line names.
fn header_of(line: &[u8]) -> Result<u32, ScriptKind>
    ensures version { Reads (λ v. v) result (header_of (words_of line.now)) }
    ensures known { IfOk result (λ v. (v ≡ 1) ⊎ (v ≡ 2)) }
{
    let Some((name, rest)) = next_word(line) else {
        return Err(ScriptKind::Header);
    };
    let Some((version, rest)) = next_word(rest) else {
        return Err(ScriptKind::Header);
    };
    if next_word(rest).is_some() || !is_word(name, b"argo") {
        return Err(ScriptKind::Header);
    }
    if is_word(version, b"1") {
        return Ok(1);
    }
    if is_word(version, b"2") {
        return Ok(2);
    }
    Err(ScriptKind::Header)
}

// Reads the lines of a text, where the first has this number.
fn read_on(alloc: Global, mut reader: Reader, number: u32, text: &[u8]) -> Result<Reader, ReadFault>
    requires lawful { IsTrue (is_lawful reader) }
    requires fits { number + length text.now < 2 ^ 32 }
    ensures read { Finds result (read_on (said_from number (lines_of text.now)) reader) }
    ensures lawful { IfOk result (λ r. IsTrue (is_lawful r)) }
{
    let mut number = number;
    let mut rest = text;
    while let Some(line) = next_line(number, rest) {
        reader = match reader.with_text(alloc, line.text) {
            Ok(reader) => reader,
            Err(cause) => return Err(fault_at(line.number, cause)),
        };
        number = line.number + 1;
        rest = line.rest;
    }
    Ok(reader)
}

/// The scripts that a text is.
///
/// A caller shows the fault, or says that memory ran out.
pub fn read_scripts(alloc: Global, text: &[u8]) -> Result<Scripts, ReadFault>
    ensures read { IfOk result (λ s. scripts_of text.now ≡ Ok s) }
    ensures fault { IfErr result (λ e. IsCause e (scripts_of text.now)) }
{
    if text.len() > MOST_BYTES {
        return Err(fault_at(0, Cause::Kind(ScriptKind::Size)));
    }
    let Some(first) = next_line(1, text) else {
        return Err(fault_at(0, Cause::Kind(ScriptKind::Header)));
    };
    let version = match header_of(first.text) {
        Ok(version) => version,
        Err(kind) => return Err(fault_at(first.number, Cause::Kind(kind))),
    };
    let reader = Reader::new(alloc, version);
    let reader = read_on(alloc, reader, first.number + 1, first.rest)?;
    Ok(reader.finish()?)
}
