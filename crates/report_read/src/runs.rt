//! `read_runs`: the runs of the schedule that a report names.

ghost use Rattle.std.specs.Prelude.{◌≡◌, ◌≢◌, ◌⊎◌, List, ℕ, ◌++◌, MatchOption, MatchBool, IfOk, IfErr, Ok, Some, codes};
ghost use Rattle.argo_model.specs.declared.closing.Run.{Run as AnyRun};
ghost use Rattle.argo_model.specs.Runs.Report.{opening_line};
ghost use Rattle.report_read.specs.Schedule.{Names, IsRefusal};
ghost use Rattle.report_read.specs.Words.{HasNoSchedule, IsOnlySchedule};

use crate::word::{behind, next_run};
use argo_base::NoMemory;
use argo_model::Runs;
use std::alloc::Global;

/// The first line is not that of the format.
const WRONG_OPENING: u32 = 1;

/// The second line is no schedule.
const WRONG_SCHEDULE: u32 = 2;

/// The runs of the schedule that the first two lines of a report name, or the number of the line that is wrong.
///
/// A schedule is read only as a report writes it: numbers without leading zeros, vCPU numbers below 2^32, counts from 1 to
/// 2^64 - 1, and never two neighbours of one section.
pub fn read_runs(alloc: Global, report: &[u8], version: u32) -> Result<Result<Runs, u32>, NoMemory>
    requires { (version ≡ 1) ⊎ (version ≡ 2) }
    ensures runs { IfOk result (λ r. IfOk r (λ runs. Names version runs report.now)) }
    ensures refused { IfOk result (λ r. IfErr r (λ line. IsRefusal version report.now line)) }
    ensures only { IfOk result (λ r. (runs : List AnyRun)
        → Names version runs report.now → r ≡ Ok runs) }
{
    let Some(rest) = behind_opening(report, version) else {
        return Ok(Err(WRONG_OPENING));
    };
    let Some(words) = behind_name(rest) else {
        return Ok(Err(WRONG_SCHEDULE));
    };
    Ok(read_words(alloc, words)?.ok_or(WRONG_SCHEDULE))
}

// What stands behind the first line of a report.
fn behind_opening(report: &[u8], version: u32) -> Option<&[u8]>
    requires { (version ≡ 1) ⊎ (version ≡ 2) }
    ensures { MatchOption result ((rest : List ℕ) → report.now ≢ opening_line version ++ rest)
        (λ rest. report.now ≡ opening_line version ++ rest.now) }
{
    if version == 2 {
        report.strip_prefix(b"argo report 2\n".as_slice())
    } else {
        report.strip_prefix(b"argo report 1\n".as_slice())
    }
}

// What stands behind the first word of a schedule.
fn behind_name(text: &[u8]) -> Option<&[u8]>
    ensures { MatchOption result ((rest : List ℕ) → text.now ≢ codes "schedule" ++ rest)
        (λ rest. text.now ≡ codes "schedule" ++ rest.now) }
{
    text.strip_prefix(b"schedule".as_slice())
}

// The runs that the words behind `schedule` name, up to the end of the line.
fn read_words(alloc: Global, text: &[u8]) -> Result<Option<Runs>, NoMemory>
    ensures { IfOk result (λ r. MatchOption r (HasNoSchedule text.now)
        (λ runs. IsOnlySchedule text.now runs)) }
{
    let mut runs = Runs::new(alloc);
    let mut last = None;
    let mut rest = text;
    while let Some((run, after)) = next_run(rest) {
        if is_of(last, run.vcpu) {
            return Ok(None);
        }
        last = Some(run.vcpu);
        runs.push(run)?;
        rest = after;
    }
    let Some(_) = behind(b'\n', rest) else {
        return Ok(None);
    };
    Ok(Some(runs))
}

// Whether the run before is of this section.
fn is_of(last: Option<u32>, vcpu: u32) -> bool
    ensures { MatchBool result (last ≡ Some vcpu) (last ≢ Some vcpu) }
{
    match last {
        Some(before) => before == vcpu,
        None => false,
    }
}
