//! The closed world of the threads, and that of the machine.
ghost use Rattle.std.specs.Prelude.{◌≡◌, IfOk};
ghost use Rattle.audit.specs.Rows.{row_differs, sides_differ, sides_in, split_of};

use crate::Split;
use crate::by_domain::domains_differ;
use crate::heard::{heard_steps, heard_texts, totals_differ};
use crate::rows::{Row, all_rows, tag_of};
use crate::values::Values;
use argo_base::NoMemory;
use argo_model::{ClosedDomain, HeardLines, Short, Totals};
use std::alloc::Global;
use std::marker::Model;

/// What is compared of one side.
#[derive(Drop)]
pub(crate) struct Side<'a> {
    pub(crate) heard: &'a [HeardLines],
    pub(crate) domains: &'a [ClosedDomain],
    pub(crate) totals: &'a [Totals],
}

impl<'a> Model for Side<'a> {
    ghost use Rattle.audit.specs.Rows.{SideAt};

    ghost Value = { SideAt };

    ghost view = { λ s. record {
      heard = s.heard.now;
      domains = s.domains.now;
      totals = s.totals.now;
    } };
}

/// The first part in which two sides differ, as a split at the step.
pub(crate) fn sides_differ(
    alloc: Global,
    step: u64,
    threads: &Side<'_>,
    machine: &Side<'_>,
) -> Result<Option<Split>, NoMemory>
    ensures { IfOk result (λ r. r ≡ sides_differ step threads.now machine.now) }
{
    let rows = all_rows();
    for row in &rows {
        let found = row_splits(alloc, step, *row, threads, machine)?;
        if found.is_some() {
            return Ok(found);
        }
    }
    Ok(None)
}

fn row_splits(
    alloc: Global,
    step: u64,
    row: Row,
    threads: &Side<'_>,
    machine: &Side<'_>,
) -> Result<Option<Split>, NoMemory>
    ensures { IfOk result (λ r. r ≡ sides_in step threads.now machine.now row) }
{
    match row_differs(alloc, row, threads, machine)? {
        Some(values) => Ok(Some(split_of(step, tag_of(row), values))),
        None => Ok(None),
    }
}

fn split_of(step: u64, tag: u8, values: Values) -> Split
    ensures { result ≡ split_of step tag values }
{
    Split {
        step,
        threads: Short {
            tag,
            value: values.threads,
        },
        machine: Short {
            tag,
            value: values.machine,
        },
    }
}

fn row_differs(
    alloc: Global,
    row: Row,
    threads: &Side<'_>,
    machine: &Side<'_>,
) -> Result<Option<Values>, NoMemory>
    ensures { IfOk result (λ r. r ≡ row_differs row threads.now machine.now) }
{
    match row {
        Row::Texts => heard_texts(alloc, threads.heard, machine.heard),
        Row::Steps => Ok(heard_steps(threads.heard, machine.heard)),
        Row::Domain(row) => domains_differ(alloc, row, threads.domains, machine.domains),
        Row::Totals => Ok(totals_differ(threads.totals, machine.totals)),
    }
}
