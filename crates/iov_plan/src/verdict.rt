//! The verdict on the buffers of a send.

ghost use Rattle.std.specs.Prelude.{◌≡◌, ◌≤◌, sum_by, IfOk};
ghost use Rattle.argo_base.specs.Iovs.{verdict_of, longest_body};

use argo_abi::Iov;
use argo_base::{Errno, LONGEST_BODY};

/// The size of the body that the buffers make up, in bytes, or why they are refused. A sendv has at most 8 buffers; any number
/// is judged. It takes no memory.
///
/// Each buffer is judged in its turn. `Inval`: its pad is not 0, or it is longer than the longest body. `MsgSize`: the buffers up to and
/// with it are.
pub fn count(iovs: &[Iov]) -> Result<u32, Errno>
    ensures verdict { result ≡ verdict_of iovs.now }
    ensures total { IfOk result (λ size. size ≡ sum_by (λ v. v.len) iovs.now) }
    ensures within { IfOk result (λ size. size ≤ longest_body) }
{
    let mut size = 0;
    for iov in iovs {
        if iov.pad != 0 || LONGEST_BODY < iov.len {
            return Err(Errno::Inval);
        }
        size += iov.len;
        if LONGEST_BODY < size {
            return Err(Errno::MsgSize);
        }
    }
    Ok(size)
}
