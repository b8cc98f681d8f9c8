ghost use Rattle.std.specs.Prelude.{◌≡◌, ◌+◌, ◌<◌, ◌≤◌, ◌↔◌, length, IsTrue, Some, IfOk, OnOk, OnErr, IsErrOf};
ghost use Rattle.argo_outside.specs.Faults.{Rose};
ghost use Rattle.argo_outside.specs.Messages.{take_fault_text};
ghost use Rattle.argo_outside.specs.Source.{behind, IsAtEnd, LostUpTo};
ghost use Rattle.argo_outside.specs.declared.taken.TakeFault.TheVariants.{Failed as failed_fault, NoMemory as memory_fault};

use crate::{Failed, Source};
use argo_base::{Bytes, NoMemory};
use std::alloc::{AllocError, Global};
use std::error::Error;
use std::fmt;

// The most bytes that one read asks for.
const MOST_BYTES: usize = 65536;

/// What was read from a source.
#[derive(Debug, Drop)]
pub struct Taken {
    pub bytes: Bytes,
    /// Whether the source ended. Where it did not, there may be more.
    pub ended: bool,
}

/// Why a source was not read to its end. What was read until then is lost.
#[derive(Clone, Copy, Debug, PartialEq, Eq)]
pub enum TakeFault {
    Failed,
    NoMemory,
}

impl fmt::Display for TakeFault {
    ghost output = { λ fault. Some (take_fault_text fault) };

    fn fmt<W: fmt::Write>(&self, f: &mut fmt::Formatter<W>) -> fmt::Result {
        match self {
            TakeFault::Failed => Failed.fmt(f),
            TakeFault::NoMemory => NoMemory.fmt(f),
        }
    }
}

impl Error for TakeFault {}

impl From<Failed> for TakeFault {
    ghost from_gives = { λ _ fault. fault ≡ failed_fault };

    fn from(_error: Failed) -> TakeFault {
        TakeFault::Failed
    }
}

impl From<NoMemory> for TakeFault {
    ghost from_gives = { λ _ fault. fault ≡ memory_fault };

    fn from(_error: NoMemory) -> TakeFault {
        TakeFault::NoMemory
    }
}

impl From<AllocError> for TakeFault {
    ghost from_gives = { λ _ fault. fault ≡ memory_fault };

    fn from(_error: AllocError) -> TakeFault {
        TakeFault::NoMemory
    }
}

/// Reads until the source ends or until it gave `most` bytes.
///
/// It takes memory for what it reads and for one buffer of 64 KiB or less.
pub fn read_up_to<S: Source>(alloc: Global, src: &mut S, most: u64) -> Result<Taken, TakeFault>
    ensures count { S.faults src.old ≤ S.faults src.new }
    ensures told { IfOk result (λ taken. S.left src.old ≡ behind taken.bytes (S.left src.new)) }
    ensures most { IfOk result (λ taken. length taken.bytes ≤ most) }
    ensures ended { IfOk result (λ taken. IsTrue taken.ended ↔ (length taken.bytes < most)) }
    ensures at_end { IfOk result (λ taken. IsTrue taken.ended → IsAtEnd (S.left src.new)) }
    ensures nothing { most ≡ 0 → src.new ≡ src.old }
    ensures failed { IsErrOf result TakeFault.Failed → Rose (S.faults src.old) (S.faults src.new) }
    ensures lost { OnErr result (LostUpTo most (S.left src.old) (S.left src.new)) }
{
    let mut bytes = Bytes::new(alloc);
    let mut buf = vec![in alloc; 0u8; most.min(MOST_BYTES as u64) as usize]?;
    while (bytes.len() as u64) < most {
        let want = most - bytes.len() as u64;
        if read_some(src, &mut buf, want, &mut bytes)? == 0 {
            return Ok(Taken { bytes, ended: true });
        }
    }
    Ok(Taken {
        bytes,
        ended: false,
    })
}

// Reads once, by way of the buffer, no more than these bytes, and adds what came.
fn read_some<S: Source>(
    src: &mut S,
    buf: &mut [u8],
    want: u64,
    bytes: &mut Bytes,
) -> Result<usize, TakeFault>
    requires wanted { 0 < want }
    requires room { 0 < length buf.old }
    ensures count { S.faults src.old ≤ S.faults src.new }
    ensures told { OnOk result (behind bytes.old (S.left src.old)
        ≡ behind bytes.new (S.left src.new)) }
    ensures grows { IfOk result (λ k. length bytes.new ≡ length bytes.old + k) }
    ensures within { IfOk result (λ k. k ≤ want) }
    ensures ends { IfOk result (λ k. k ≡ 0 → IsAtEnd (S.left src.new)) }
    ensures failed { IsErrOf result TakeFault.Failed → Rose (S.faults src.old) (S.faults src.new) }
    ensures lost { OnErr result (LostUpTo want (S.left src.old) (S.left src.new)) }
{
    let most = want.min(buf.len() as u64) as usize;
    let (part, _) = buf.split_at_mut(most);
    let count = src.read(part)?;
    let (read, _) = part.split_at(count);
    bytes.append(read)?;
    Ok(count)
}
