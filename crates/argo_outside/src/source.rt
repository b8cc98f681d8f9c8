ghost use Rattle.std.specs.Prelude.{◌≡◌, ℕ, ◌<◌, ◌≤◌, List, Option, take, length, IfOk, OnErr};
ghost use Rattle.argo_outside.specs.Faults.{Rose};
ghost use Rattle.argo_outside.specs.Source.{behind, IsAtEnd};

use crate::Failed;

/// Bytes that come a few at a time, until they end.
pub trait Source {
    // The bytes that are left, where the source tells them.
    ghost left: { Self → Option (List ℕ) };

    // How often it failed.
    ghost faults: { Self → ℕ };

    /// Reads into the front of the buffer, and returns how many bytes came.
    /// What the rest of the buffer then holds is left open.
    fn read(&mut self, buf: &mut [u8]) -> Result<usize, Failed>
        ensures count { faults self.old ≤ faults self.new }
        ensures within { IfOk result (λ k. k ≤ length buf.old) }
        ensures told { IfOk result (λ k. left self.old ≡ behind (take k buf.new) (left self.new)) }

        // No byte comes only at the end.
        ensures ends { IfOk result (λ k. k ≡ 0 → 0 < length buf.old → IsAtEnd (left self.new)) }

        // A failure has its fault, and takes no byte.
        ensures failed { OnErr result (Rose (faults self.old) (faults self.new)) }
        ensures kept { OnErr result (left self.new ≡ left self.old) };
}

impl<S: Source> Source for &mut S {
    ghost left = { λ s. S.left s.now };

    ghost faults = { λ s. S.faults s.now };

    fn read(&mut self, buf: &mut [u8]) -> Result<usize, Failed> {
        Source::read(&mut **self, buf)
    }
}
