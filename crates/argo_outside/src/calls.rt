ghost use Rattle.std.specs.Prelude.{◌↔◌, IsTrue, Contains};

use argo_base::Items;

/// Numbers of calls, from 1.
pub type CallList = Items<u64>;

// Whether the list names this call.
pub(crate) fn is_named(calls: &CallList, call: u64) -> bool
    ensures { IsTrue result ↔ Contains calls.now call }
{
    calls.as_slice().contains(&call)
}
