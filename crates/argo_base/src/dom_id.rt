//! Numbers of domains.
ghost use Rattle.std.specs.Prelude.{◌≡◌};
ghost use Rattle.argo_base.specs.Match.{is_wildcard};

use std::marker::Model;

/// The number of a domain, or `ANY`. Contracts see it as that number.
///
/// Domains have ids below 0x7FF0, as `DOMID_FIRST_RESERVED` of Xen says; whoever reads an id from a guest may find any 16 bits.
/// The default is 0: what the unused places of a list of fixed capacity hold.
#[derive(Clone, Copy, Debug, Default, PartialEq, Eq, PartialOrd, Ord, Hash)]
pub struct DomId(pub u16);

impl Model for DomId {
    ghost use Rattle.std.specs.Prelude.{ℕ};

    ghost Value = { ℕ };

    ghost view = { λ d. d.0 };

    ghost inverse = { λ n. record { 0 = n } };
}

impl DomId {
    /// The wildcard partner of a ring that takes messages from every domain: `XEN_ARGO_DOMID_ANY`.
    pub const ANY: DomId = DomId(0x7FF4);

    /// Whether it is `ANY`, the rules' wildcard.
    pub fn is_any(self) -> bool
        ensures { result ≡ is_wildcard self }
    {
        self == DomId::ANY
    }
}
