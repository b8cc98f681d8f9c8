ghost use Rattle.std.specs.Prelude.{◌≡◌, ◌+◌, ◌-◌, ◌<◌, ◌≤◌, ◌↔◌, Some, take, drop, length, min, Contains, IsErr, IfOk, OnErr};
ghost use Rattle.std.specs.Result.{result_unwrap_or};
ghost use Rattle.argo_outside.specs.Faults.{Rose, one_more, counted};
ghost use Rattle.argo_outside.specs.Source.{behind, IsAtEnd};

use crate::calls::is_named;
use crate::{CallList, Failed, Source};
use argo_base::Bytes;

/// Bytes in memory, which come a few at a time. Calls can be named that are to fail.
#[derive(Debug, Drop)]
pub struct MemSource {
    pub bytes: Bytes,
    /// How many of the bytes were read.
    pub place: u64,
    /// The most bytes that one call gives.
    pub most: u32,
    /// The calls that fail.
    pub fails: CallList,
    /// How many calls there were. It stands still at its type's end, and so does the count of faults.
    pub calls: u64,
    pub faults: u64,
    pub ghost within: { place ≤ length bytes },
    pub ghost gives: { 1 ≤ most },
}

impl MemSource {
    /// It takes no memory.
    pub fn new(bytes: Bytes, most: u32, fails: CallList) -> MemSource
        requires { 1 ≤ most }
        ensures left { ⟦<MemSource as Source>⟧.left result ≡ Some bytes }
        ensures bytes { result.bytes ≡ bytes }
        ensures place { result.place ≡ 0 }
        ensures most { result.most ≡ most }
        ensures fails { result.fails ≡ fails }
        ensures calls { result.calls ≡ 0 }
        ensures faults { result.faults ≡ 0 }
    {
        MemSource {
            bytes,
            place: 0,
            most,
            fails,
            calls: 0,
            faults: 0,
        }
    }
}

impl Source for MemSource {
    ghost left = { λ s. Some (drop s.place s.bytes) };

    ghost faults = { λ s. s.faults };

    #[tactic(auto, using(crate::proofs::OutsideLemmas::drop_in_two))]
    fn read(&mut self, buf: &mut [u8]) -> Result<usize, Failed>
        ensures count { self.old.faults ≤ self.new.faults }
        ensures told { IfOk result (λ k. Some (drop self.old.place self.old.bytes)
            ≡ behind (take k buf.new) (Some (drop self.new.place self.new.bytes))) }
        ensures ends { IfOk result (λ k. k ≡ 0 → 0 < length buf.old
            → IsAtEnd (Some (drop self.new.place self.new.bytes))) }
        ensures failed { OnErr result (Rose self.old.faults self.new.faults) }

        // A call fails where it is named, and only there.
        ensures fails { IsErr result ↔ Contains self.old.fails self.new.calls }
        ensures amount { IfOk result (λ k. k ≡ min self.old.most
            (min (length buf.old) (length self.old.bytes - self.old.place))) }

        ensures place { self.new.place ≡ self.old.place + result_unwrap_or result 0 }
        ensures calls { self.new.calls ≡ one_more self.old.calls }
        ensures faults { self.new.faults ≡ counted result self.old.faults }
        ensures stays { (self.new.bytes ≡ self.old.bytes) × (self.new.most ≡ self.old.most)
            × (self.new.fails ≡ self.old.fails) }
    {
        self.calls = self.calls.saturating_add(1);
        if is_named(&self.fails, self.calls) {
            self.faults = self.faults.saturating_add(1);
            return Err(Failed);
        }
        let (_, rest) = self.bytes.as_slice().split_at(self.place as usize);
        let count = copy_front(rest, buf, self.most as usize);
        self.place += count as u64;
        Ok(count)
    }
}

// Copies as many bytes as there are, as there is room for and as may be copied, and returns how many.
fn copy_front(from: &[u8], to: &mut [u8], most: usize) -> usize
    ensures count { result ≡ min most (min (length to.old) (length from.now)) }
    ensures copied { take result to.new ≡ take result from.now }
{
    let count = most.min(to.len().min(from.len()));
    let (first, _) = from.split_at(count);
    let (front, _) = to.split_at_mut(count);
    front.copy_from_slice(first);
    count
}
