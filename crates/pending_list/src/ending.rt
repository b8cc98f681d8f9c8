//! Which notices end, and their domains.
ghost use Rattle.std.specs.Prelude.{◌≡◌, ◌≤◌, length, filter};
ghost use Rattle.argo_base.specs.Limits.{most_notices};
ghost use Rattle.argo_base.specs.Notices.{doms_of};
ghost use Rattle.pending_list.specs.Ending.{ends};

use argo_base::{DomId, Ended, slots};

/// Which notices end: those that fit into so many free bytes, or those that are too big for a ring of so many slot bytes.
#[derive(Clone, Copy)]
pub(crate) enum Ending {
    Fitting(u32),
    TooBig(u32),
}

impl Ending {
    /// Whether a domain's notice of that size is among them.
    pub(crate) fn ends(self, row: (DomId, u32)) -> bool
        ensures { result ≡ ends self row }
    {
        match self {
            Ending::Fitting(free) => slots::fits_into(free, row.1),
            Ending::TooBig(len) => slots::too_big(len, row.1),
        }
    }

    /// The domains of the rows that end, in the order of the rows.
    pub(crate) fn doms(self, rows: &[(DomId, u32)]) -> Ended
        requires { length rows.now ≤ most_notices }
        ensures { result ≡ doms_of (filter (ends self) rows.now) }
    {
        let mut doms = Ended::new();
        for row in rows {
            if self.ends(*row) {
                doms.push(row.0);
            }
        }
        doms
    }
}
