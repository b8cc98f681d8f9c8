//! Scripts: domains, and sections of lines.

use crate::Lines;
use argo_base::{DomId, Items};
use std::marker::Model;

/// A domain of a script: its id, its count of pages, and whether it may use Argo.
#[derive(Clone, Copy, Debug, PartialEq, Eq)]
pub struct DomainLine {
    pub id: DomId,
    pub pages: u32,
    pub on: bool,
}

/// The domains of a script, in its order.
pub type DomainLines = Items<DomainLine>;

/// Who works through a section: a virtual CPU of a domain of that generation, or the control section.
#[derive(Clone, Copy, Debug, PartialEq, Eq)]
pub enum Actor {
    Vcpu(DomId, u32),
    Control,
}

/// A section of a script. Contracts see it as a `Section`, whose lines stand in their place and within their ranges.
#[derive(Debug, Drop)]
pub struct Part {
    pub actor: Actor,
    pub lines: Lines,
}

impl Model for Part {
    ghost use Rattle.argo_model.specs.Runs.Script.{Section};

    ghost Value = { Section };

    ghost use Rattle.std.specs.Prelude.{IsTrue};
    ghost use Rattle.argo_model.specs.Runs.Script.{is_lawful_section};

    ghost view = { λ p. record { actor = p.actor; lines = p.lines } };

    ghost invariant = { λ p. IsTrue (is_lawful_section (record { actor = p.actor; lines = p.lines })) };
}

/// The sections of a script, in its order. A section's number is its place here, from 0.
pub type Parts = Items<Part>;

/// A whole script. Contracts see it as a `Script`, which keeps the rules on places, ranges, domains and limits.
#[derive(Debug, Drop)]
pub struct Scripts {
    /// The script format, 1 or 2.
    pub version: u32,
    pub domains: DomainLines,
    pub parts: Parts,
}

impl Model for Scripts {
    ghost use Rattle.argo_model.specs.Runs.Script.{Script};

    ghost Value = { Script };

    ghost use Rattle.std.specs.Prelude.{IsTrue};
    ghost use Rattle.argo_model.specs.Runs.Script.{is_lawful};

    ghost view = { λ s. record { version = s.version; domains = s.domains; sections = s.parts } };

    ghost invariant = { λ s. IsTrue (is_lawful (record { version = s.version; domains = s.domains; sections = s.parts })) };
}
