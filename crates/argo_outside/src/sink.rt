ghost use Rattle.std.specs.Prelude.{◌≡◌, ℕ, ◌<◌, ◌≤◌, List, Option, take, length, IfOk, OnErr};
ghost use Rattle.argo_outside.specs.Faults.{Rose};
ghost use Rattle.argo_outside.specs.Sink.{appended};

use crate::Failed;

/// Takes bytes, a few at a time.
pub trait Sink {
    // The bytes that it took, where it tells them.
    ghost written: { Self → Option (List ℕ) };

    // How often it failed.
    ghost faults: { Self → ℕ };

    /// Writes the first bytes of the piece, and returns how many.
    fn write(&mut self, piece: &[u8]) -> Result<usize, Failed>
        ensures count { faults self.old ≤ faults self.new }
        ensures within { IfOk result (λ k. k ≤ length piece.now) }
        ensures told { IfOk result (λ k. written self.new
            ≡ appended (written self.old) (take k piece.now)) }

        // Only of an empty piece it takes no byte.
        ensures takes { IfOk result (λ k. 0 < length piece.now → 0 < k) }

        // A failure has its fault, and takes no byte.
        ensures failed { OnErr result (Rose (faults self.old) (faults self.new)) }
        ensures kept { OnErr result (written self.new ≡ written self.old) };
}

impl<K: Sink> Sink for &mut K {
    ghost written = { λ s. K.written s.now };

    ghost faults = { λ s. K.faults s.now };

    fn write(&mut self, piece: &[u8]) -> Result<usize, Failed> {
        Sink::write(&mut **self, piece)
    }
}
