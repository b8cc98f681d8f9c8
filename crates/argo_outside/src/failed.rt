ghost use Rattle.std.specs.Prelude.{Some};
ghost use Rattle.argo_outside.specs.Messages.{failed_text};

use std::error::Error;
use std::fmt;

/// A source or a sink failed. It counted the fault, and the call read or wrote nothing.
#[derive(Clone, Copy, Debug, PartialEq, Eq)]
pub struct Failed;

impl fmt::Display for Failed {
    ghost output = { λ _. Some failed_text };

    fn fmt<W: fmt::Write>(&self, f: &mut fmt::Formatter<W>) -> fmt::Result {
        f.write_str("a read or a write failed")
    }
}

impl Error for Failed {}
