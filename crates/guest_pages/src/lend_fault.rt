//! Why pages were not lent.
use argo_base::NoMemory;

/// Why pages were not lent. Everything is then as it was before the call.
#[derive(Clone, Copy, Debug, PartialEq, Eq)]
pub enum LendFault {
    /// A number is none of the domain's pages, or the page is lent, or a number is repeated.
    Pages,
    /// Memory ran out.
    NoMemory,
}

impl From<NoMemory> for LendFault {
    ghost use Rattle.std.specs.Prelude.{◌≡◌};
    ghost use Rattle.guest_pages.specs.declared.lend_fault.LendFault.TheVariants as fault;

    ghost from_gives = { λ _ e. e ≡ fault.NoMemory };

    fn from(_error: NoMemory) -> LendFault {
        LendFault::NoMemory
    }
}
