//! Whether a report is that of its script.

ghost use Rattle.std.specs.Prelude.{◌≡◌, IfOk};
ghost use Rattle.argo_check.specs.Judged.{IsVerdict, OnlyNames};

use crate::difference::first_difference;
use crate::replay::replay;
use argo_base::NoMemory;
use argo_model::{Runs, Scripts};
use report_read::read_runs;
use std::alloc::Global;

/// The line of a schedule.
const WRONG_SCHEDULE: u64 = 2;

/// Whether a report is right.
#[derive(Debug, Drop)]
pub(crate) enum Verdict {
    /// It is, under this schedule.
    Right(Runs),
    /// It is not, and this is its first wrong line, from 1.
    Wrong(u64),
}

/// Judges the report of a script.
pub(crate) fn judge(alloc: Global, scripts: &Scripts, report: &[u8]) -> Result<Verdict, NoMemory>
    ensures { IfOk result (λ v. IsVerdict scripts.now report.now v) }
{
    match read_runs(alloc, report, scripts.version)? {
        Ok(runs) => judge_by(alloc, scripts, runs, report),
        Err(line) => Ok(Verdict::Wrong(u64::from(line))),
    }
}

// Judges a report whose second line names a schedule.
fn judge_by(
    alloc: Global,
    scripts: &Scripts,
    runs: Runs,
    report: &[u8],
) -> Result<Verdict, NoMemory>
    requires { OnlyNames scripts.now.version report.now runs }
    ensures { IfOk result (λ v. IsVerdict scripts.now report.now v) }
{
    let Some(machine) = replay(alloc, scripts, runs.as_slice())? else {
        return Ok(Verdict::Wrong(WRONG_SCHEDULE));
    };
    let shown = machine.finish()?;
    match first_difference(alloc, report, &shown)? {
        Some(line) => Ok(Verdict::Wrong(line)),
        None => Ok(Verdict::Right(runs)),
    }
}
