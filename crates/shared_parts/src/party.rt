//! A domain that is alive, as an action finds it.
use crate::live::Live;
use argo_base::DomId;

/// A domain that is alive, as an action finds it while it holds the lock of the domains.
#[derive(Clone, Copy)]
pub struct Party<'a> {
    pub id: DomId,
    pub on: bool,
    pub pages: u32,
    pub generation: u32,
    pub live: &'a Live,
}
