ghost use Rattle.std.specs.Prelude.{◌≡◌, ◌+◌, ◌<◌, ◌≤◌, ◌↔◌, ◌⊎◌, ◌++◌, Some, [], take, length, min, vec_len, vec_capacity, Contains, IsErr, IfOk, OnErr};
ghost use Rattle.std.specs.Result.{result_unwrap_or};
ghost use Rattle.argo_outside.specs.Faults.{Rose, one_more, counted};
ghost use Rattle.argo_outside.specs.Sink.{appended};

use crate::calls::is_named;
use crate::{CallList, Failed, Sink};
use argo_base::NoMemory;
use std::alloc::Global;

/// Memory that bytes are written to, a few at a time. Calls can be named that are to fail.
#[derive(Debug, Drop)]
pub struct MemSink {
    pub bytes: Vec<u8>,
    /// How many bytes there is room for in all. A write of more is a fault.
    pub room: u64,
    /// The most bytes that one call takes.
    pub most: u32,
    /// The calls that fail.
    pub fails: CallList,
    /// How many calls there were. It stands still at its type's end, and so does the count of faults.
    pub calls: u64,
    pub faults: u64,
    pub ghost held: { vec_len bytes ≤ room },
    pub ghost reserved: { room ≤ vec_capacity bytes },
    pub ghost takes: { 1 ≤ most },
}

impl MemSink {
    pub fn new(alloc: Global, room: u64, most: u32, fails: CallList) -> Result<MemSink, NoMemory>
        requires { 1 ≤ most }
        ensures written { IfOk result (λ sink. ⟦<MemSink as Sink>⟧.written sink ≡ Some []) }
        ensures room { IfOk result (λ sink. sink.room ≡ room) }
        ensures most { IfOk result (λ sink. sink.most ≡ most) }
        ensures fails { IfOk result (λ sink. sink.fails ≡ fails) }
        ensures calls { IfOk result (λ sink. sink.calls ≡ 0) }
        ensures faults { IfOk result (λ sink. sink.faults ≡ 0) }
    {
        Ok(MemSink {
            bytes: Vec::with_capacity(alloc, room as usize)?,
            room,
            most,
            fails,
            calls: 0,
            faults: 0,
        })
    }

    /// What was written.
    pub fn as_slice(&self) -> &[u8]
        ensures { Some result.now ≡ ⟦<MemSink as Sink>⟧.written self.now }
    {
        self.bytes.as_slice()
    }
}

impl Sink for MemSink {
    ghost written = { λ s. Some s.bytes.items };

    ghost faults = { λ s. s.faults };

    fn write(&mut self, piece: &[u8]) -> Result<usize, Failed>
        ensures count { self.old.faults ≤ self.new.faults }
        ensures told { IfOk result (λ k. Some self.new.bytes.items
            ≡ appended (Some self.old.bytes.items) (take k piece.now)) }
        ensures failed { OnErr result (Rose self.old.faults self.new.faults) }

        // A call fails where it is named or where it finds no room, and only there.
        ensures fails { IsErr result ↔ (Contains self.old.fails self.new.calls
            ⊎ (self.old.room < vec_len self.old.bytes + min self.old.most (length piece.now))) }
        ensures amount { IfOk result (λ k. k ≡ min self.old.most (length piece.now)) }

        ensures written { self.new.bytes.items
            ≡ self.old.bytes.items ++ take (result_unwrap_or result 0) piece.now }
        ensures calls { self.new.calls ≡ one_more self.old.calls }
        ensures faults { self.new.faults ≡ counted result self.old.faults }
        ensures stays { (self.new.room ≡ self.old.room) × (self.new.most ≡ self.old.most)
            × (self.new.fails ≡ self.old.fails) }
    {
        self.calls = self.calls.saturating_add(1);
        let count = piece.len().min(self.most as usize);
        let (first, _) = piece.split_at(count);
        if is_named(&self.fails, self.calls) || self.room as usize - self.bytes.len() < count {
            self.faults = self.faults.saturating_add(1);
            return Err(Failed);
        }
        self.bytes.extend_from_slice(first).unwrap();
        Ok(count)
    }
}
