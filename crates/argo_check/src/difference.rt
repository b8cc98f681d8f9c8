//! The first line at which a report differs from the right one.

ghost use Rattle.std.specs.Prelude.{◌≡◌, MatchOption, IfOk};
ghost use Rattle.argo_model.specs.Runs.Report.{report_of};
ghost use Rattle.argo_check.specs.Differences.{DifferFirstIn};

use crate::comparer::Comparer;
use argo_base::NoMemory;
use argo_model::Final;
use report_text::{WriteFault, write_report};
use std::alloc::Global;

/// The first line at which a report differs from the report of a run, if there is one.
pub(crate) fn first_difference(
    alloc: Global,
    report: &[u8],
    shown: &Final,
) -> Result<Option<u64>, NoMemory>
    ensures { IfOk result (λ r. MatchOption r (report.now ≡ report_of shown.now)
        (λ line. DifferFirstIn report.now (report_of shown.now) line)) }
{
    let mut comparer = Comparer::new(report);
    match write_report(alloc, &mut comparer, shown) {
        Ok(()) => Ok(comparer.difference()),
        Err(WriteFault::Sink) => Ok(comparer.difference()),
        Err(WriteFault::NoMemory) => Err(NoMemory),
    }
}
