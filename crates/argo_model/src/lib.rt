//! The abstract Argo machine: scripts, actions, replies and what a report shows as types, and in `specs/` every rule as a
//! definition. No function here runs a step.
//!
//! The layers above use the definitions, and one contract: `Access::act`, an action on any world that can tell its state is the
//! rule's. It stands on argo_base.
#![tactic(auto)]

mod access;
mod action;
mod closed;
mod closing;
pub mod examples;
mod line;
mod reply;
mod scripts;
mod serial_world;
mod short;

pub use access::Access;
pub use action::{Action, Address, Answer, Load, Outcome, Unseen};
pub use closed::{
    ClosedDomain, ClosedDomains, ClosedRing, ClosedRings, Heard, HeardLine, HeardLines,
};
pub use closing::{
    DoneLine, DoneList, Final, FinalDomain, FinalDomains, FinalRing, FinalRings, NoticeLine,
    NoticeLines, Run, Runs, TotalList, Totals,
};
pub use line::{Line, Lines};
pub use reply::Reply;
pub use scripts::{Actor, DomainLine, DomainLines, Part, Parts, Scripts};
pub use serial_world::SerialWorld;
pub use short::Short;
