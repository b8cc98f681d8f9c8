//! The pages of a ring in the flat memory of their owner.
ghost use Rattle.std.specs.Prelude.{◌≡◌, ℕ, ◌<◌, List, length};
ghost use Rattle.std.specs.List.{All};
ghost use Rattle.argo_base.specs.Limits.{page_bytes};
ghost use Rattle.argo_model.specs.Rules.RingBytes.{ring_bytes, laid};
ghost use Rattle.guest_pages.specs.Rows.{numbers_of, row_bytes};
ghost use Rattle.ring_core.specs.Flat.{flat, ArePages, with_pages};

/// Where the pages of a domain are told as its flat memory, a ring's bytes there are those of its row, and its bytes laid back
/// there are its pages in place of the old ones. So what is told of a ring with its own bytes is the rule on its owner's memory.
/// It does nothing.
pub fn rows_lie_in_flat_memory()
    ensures read { (page : ℕ → List ℕ) (k : ℕ) (row : List (ℕ × List ℕ)) → ArePages page k
        → All (λ p. (p.0 < k) × (page p.0 ≡ p.1)) row
        → ring_bytes (flat page k) (numbers_of row) ≡ row_bytes row }
    ensures written { (page : ℕ → List ℕ) (k : ℕ) (row : List (ℕ × List ℕ)) → ArePages page k
        → All (λ p. (p.0 < k) × (length p.1 ≡ page_bytes)) row
        → laid (numbers_of row) (row_bytes row) (flat page k) ≡ flat (with_pages page row) k }
{}
