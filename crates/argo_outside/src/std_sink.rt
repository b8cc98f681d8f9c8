ghost use Rattle.std.specs.Prelude.{◌≡◌, ◌<◌, ◌≤◌, None, length, IfOk, OnErr};
ghost use Rattle.std.specs.Io.KnownBytes.{WriteAppends, Keeps};
ghost use Rattle.argo_outside.specs.Faults.{Rose, counted};

use crate::{Failed, Sink};
use std::io::Write;

/// A writer of the system, such as a file or standard output. It does not tell its bytes.
///
/// Each error of the writer is a fault, one that was interrupted too, and so is a write that takes nothing of a piece.
/// Bytes can stay in a buffer of the writer: `flush` it after the last write.
#[derive(Debug, Drop)]
pub struct StdSink<O> {
    pub inner: O,
    pub faults: u64,
}

impl<O> StdSink<O> {
    pub fn new(inner: O) -> StdSink<O>
        ensures inner { result.inner ≡ inner }
        ensures faults { result.faults ≡ 0 }
    {
        StdSink { inner, faults: 0 }
    }
}

impl<O: Write> StdSink<O> {
    /// Writes out what the writer holds in a buffer.
    pub fn flush(&mut self) -> Result<(), Failed>
        ensures count { self.old.faults ≤ self.new.faults }
        ensures failed { OnErr result (Rose self.old.faults self.new.faults) }
        ensures kept { Keeps (O.contents self.old.inner) (O.contents self.new.inner) }
        ensures faults { self.new.faults ≡ counted result self.old.faults }
    {
        if self.inner.flush().is_err() {
            self.faults = self.faults.saturating_add(1);
            return Err(Failed);
        }
        Ok(())
    }
}

impl<O: Write> Sink for StdSink<O> {
    ghost written = { λ _. None };

    ghost faults = { λ s. s.faults };

    fn write(&mut self, piece: &[u8]) -> Result<usize, Failed>
        ensures count { self.old.faults ≤ self.new.faults }
        ensures within { IfOk result (λ k. k ≤ length piece.now) }
        ensures takes { IfOk result (λ k. 0 < length piece.now → 0 < k) }
        ensures failed { OnErr result (Rose self.old.faults self.new.faults) }
        ensures faults { self.new.faults ≡ counted result self.old.faults }

        // Where the writer tells its bytes, the piece's are appended.
        ensures bytes { WriteAppends (O.contents self.old.inner) (O.contents self.new.inner)
            result piece.now }
    {
        match self.inner.write(piece) {
            Ok(count) if count > 0 || piece.is_empty() => Ok(count),
            _ => {
                self.faults = self.faults.saturating_add(1);
                Err(Failed)
            }
        }
    }
}
