//! A world in which the sections of a script perform their actions, over any form of its domains.
//!
//! A form of the domains gives `DomainActs`; over it `SectionWorld` is a `SerialWorld`, which knows who the sections are and counts
//! what each has done. It stands on argo_model.
#![tactic(auto)]

mod acts;
mod domain_acts;
mod section_world;

pub use acts::act;
pub use domain_acts::DomainActs;
pub use section_world::SectionWorld;
