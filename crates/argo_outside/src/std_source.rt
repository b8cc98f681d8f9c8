ghost use Rattle.std.specs.Prelude.{◌≡◌, ◌≤◌, None, length, IfOk, OnErr};
ghost use Rattle.std.specs.Io.KnownBytes.{ReadConsumes};
ghost use Rattle.argo_outside.specs.Faults.{Rose, counted};

use crate::{Failed, Source};
use std::io::Read;

/// A reader of the system, such as a file or standard input. It does not tell its bytes.
///
/// Each error of the reader is a fault, one that was interrupted too.
#[derive(Debug, Drop)]
pub struct StdSource<I> {
    pub inner: I,
    pub faults: u64,
}

impl<I> StdSource<I> {
    pub fn new(inner: I) -> StdSource<I>
        ensures inner { result.inner ≡ inner }
        ensures faults { result.faults ≡ 0 }
    {
        StdSource { inner, faults: 0 }
    }
}

impl<I: Read> Source for StdSource<I> {
    ghost left = { λ _. None };

    ghost faults = { λ s. s.faults };

    fn read(&mut self, buf: &mut [u8]) -> Result<usize, Failed>
        ensures count { self.old.faults ≤ self.new.faults }
        ensures within { IfOk result (λ k. k ≤ length buf.old) }
        ensures failed { OnErr result (Rose self.old.faults self.new.faults) }
        ensures faults { self.new.faults ≡ counted result self.old.faults }

        // Where the reader tells its bytes, these are they.
        ensures bytes { ReadConsumes (I.remaining self.old.inner) (I.remaining self.new.inner)
            result buf.new }
    {
        match self.inner.read(buf) {
            Ok(count) => Ok(count),
            Err(_) => {
                self.faults = self.faults.saturating_add(1);
                Err(Failed)
            }
        }
    }
}
