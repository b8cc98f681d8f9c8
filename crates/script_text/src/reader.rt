ghost use Rattle.std.specs.Prelude.{◌≡◌, [], IfOk, IsTrue, IsSome};
ghost use Rattle.std.specs.List.{list_all, list_any};
ghost use Rattle.argo_model.specs.Runs.Script.{is_lawful, is_lawful_section, turns_of, is_control};
ghost use Rattle.script_text.specs.declared.entry.Entry.TheVariants as entries;
ghost use Rattle.script_text.specs.Reading.{last_actor, is_vcpu, is_controller, is_in_place, added, line_read, HasRoom};
ghost use Rattle.script_text.specs.Lines.{words_of};
ghost use Rattle.script_text.specs.Entries.{entry_of};
ghost use Rattle.script_text.specs.Reader.{sections_of};
ghost use Rattle.script_text.specs.Gives.{Gives};

use crate::entry::{
    Entry, await_entry, control_section, domain_entry, load_entry, named_domain, op_entry,
    recv_entry, section_entry, store_entry,
};
use crate::kind::{Cause, ScriptKind};
use crate::verb::{Verb, verb_of};
use crate::words::next_word;
use argo_base::NoMemory;
use argo_model::{Actor, DomainLine, DomainLines, Line, Lines, Part, Parts, Scripts};
use std::alloc::Global;
use std::marker::Model;

const MOST_DOMAINS: usize = 64;

const MOST_PAGES: u64 = 32768;

const MOST_SECTIONS: usize = 64;

const MOST_LINES: u32 = 8192;

const MOST_TURNS: u64 = 1_048_576;

/// What was read of a script. Contracts see it as a script.
#[derive(Debug, Drop)]
pub(crate) struct Reader {
    version: u32,
    domains: DomainLines,
    // The sections before the last one.
    parts: Parts,
    // The last section.
    actor: Option<Actor>,
    lines: Lines,
    pages: u32,
    line_count: u32,
    turn_count: u32,
    has_control: bool,
}

impl Model for Reader {
    ghost use Rattle.argo_model.specs.Runs.Script.{Script};

    ghost Value = { Script };

    ghost use Rattle.script_text.specs.Reader.{script_in, IsCounted};

    ghost view = { script_in };

    ghost invariant = { IsCounted };
}

fn turns_of(line: &Line) -> u32
    ensures { result ≡ turns_of line.now }
{
    match line {
        Line::Await { turns } => *turns,
        _ => 0,
    }
}

fn is_vcpu(actor: Option<Actor>) -> bool
    ensures { result ≡ is_vcpu actor }
{
    matches!(actor, Some(Actor::Vcpu(_, _)))
}

fn is_controller(actor: Option<Actor>) -> bool
    ensures { result ≡ is_controller actor }
{
    matches!(actor, Some(Actor::Control))
}

fn is_control(actor: Actor) -> bool
    ensures { result ≡ is_control actor }
{
    matches!(actor, Actor::Control)
}

// The sections with the last one, if there is one.
fn with_part(mut parts: Parts, actor: Option<Actor>, lines: Lines) -> Result<Parts, NoMemory>
    requires { IsTrue (list_all is_lawful_section (sections_of parts actor lines)) }
    ensures { IfOk result (λ p. p ≡ sections_of parts actor lines) }
{
    if let Some(actor) = actor {
        parts.push(Part { actor, lines })?;
    }
    Ok(parts)
}

impl Reader {
    pub(crate) fn new(alloc: Global, version: u32) -> Self
        ensures { result ≡ record { version = version; domains = []; sections = [] } }
    {
        Reader {
            version,
            domains: DomainLines::new(alloc),
            parts: Parts::new(alloc),
            actor: None,
            lines: Lines::new(alloc),
            pages: 0,
            line_count: 0,
            turn_count: 0,
            has_control: false,
        }
    }

    fn with_domain(mut self, domain: DomainLine) -> Result<Self, Cause>
        ensures { Gives (λ r. r) result (added self (entries.Domain domain)) }
    {
        let pages = u64::from(self.pages) + u64::from(domain.pages);
        if self.domains.len() >= MOST_DOMAINS || pages > MOST_PAGES {
            return Err(Cause::Kind(ScriptKind::Limit));
        }
        self.domains.push(domain)?;
        self.pages = pages as u32;
        Ok(self)
    }

    fn with_section(self, alloc: Global, actor: Actor) -> Result<Self, Cause>
        requires { IsTrue (list_all is_lawful_section self.sections) }
        ensures { Gives (λ r. r) result (added self (entries.Section actor)) }
    {
        let Reader {
            version,
            domains,
            parts,
            actor: last,
            lines,
            pages,
            line_count,
            turn_count,
            has_control,
        } = self;
        let parts = with_part(parts, last, lines)?;
        if parts.len() >= MOST_SECTIONS {
            return Err(Cause::Kind(ScriptKind::Limit));
        }
        Ok(Reader {
            version,
            domains,
            parts,
            actor: Some(actor),
            lines: Lines::new(alloc),
            pages,
            line_count,
            turn_count,
            has_control: has_control || is_control(actor),
        })
    }

    fn with_line(mut self, line: Line) -> Result<Self, Cause>
        requires { IsSome (last_actor self.sections) }
        ensures { Gives (λ r. r) result (added self (entries.Line line)) }
    {
        let turns = u64::from(self.turn_count) + u64::from(turns_of(&line));
        if self.line_count >= MOST_LINES || turns > MOST_TURNS {
            return Err(Cause::Kind(ScriptKind::Limit));
        }
        self.lines.push(line)?;
        self.line_count += 1;
        self.turn_count = turns as u32;
        Ok(self)
    }

    /// The scripts that were read.
    pub(crate) fn finish(self) -> Result<Scripts, NoMemory>
        requires { IsTrue (is_lawful self) }
        ensures { IfOk result (λ s. s ≡ self) }
    {
        let Reader {
            version,
            domains,
            parts,
            actor,
            lines,
            pages: _,
            line_count: _,
            turn_count: _,
            has_control: _,
        } = self;
        let parts = with_part(parts, actor, lines)?;
        Ok(Scripts {
            version,
            domains,
            parts,
        })
    }

    fn is_in_vcpu(&self) -> bool
        ensures { result ≡ is_vcpu (last_actor self.now.sections) }
    {
        is_vcpu(self.actor)
    }

    fn is_in_control(&self) -> bool
        ensures { result ≡ is_controller (last_actor self.now.sections) }
    {
        is_controller(self.actor)
    }

    fn is_in_place(&self, verb: Verb) -> bool
        ensures { result ≡ is_in_place self.now verb }
    {
        match verb {
            Verb::Domain => self.actor.is_none(),
            Verb::Vcpu => true,
            Verb::Control => !self.has_control,
            Verb::Store | Verb::Load | Verb::Op | Verb::Await | Verb::Recv => self.is_in_vcpu(),
            Verb::Destroy | Verb::Reset | Verb::Create => self.is_in_control(),
        }
    }

    // What a line adds, by its verb and the words behind it.
    fn entry(&self, alloc: Global, verb: Verb, rest: &[u8]) -> Result<Entry, Cause>
        ensures { Gives (λ e. e) result (entry_of self.now verb (words_of rest.now)) }
    {
        match verb {
            Verb::Domain => Ok(domain_entry(&self.domains, rest)?),
            Verb::Vcpu => Ok(section_entry(self.version, &self.domains, rest)?),
            Verb::Control => Ok(control_section(rest)?),
            Verb::Store => store_entry(alloc, rest),
            Verb::Load => Ok(load_entry(rest)?),
            Verb::Op => Ok(op_entry(rest)?),
            Verb::Await => Ok(await_entry(rest)?),
            Verb::Recv => Ok(recv_entry(rest)?),
            Verb::Destroy => {
                let dom = named_domain(&self.domains, rest)?;
                Ok(Entry::Line(Line::Destroy { dom }))
            }
            Verb::Reset => {
                let dom = named_domain(&self.domains, rest)?;
                Ok(Entry::Line(Line::Reset { dom }))
            }
            Verb::Create => {
                let dom = named_domain(&self.domains, rest)?;
                Ok(Entry::Line(Line::Create { dom }))
            }
        }
    }

    fn with_entry(self, alloc: Global, entry: Entry) -> Result<Self, Cause>
        requires sections { IsTrue (list_all is_lawful_section self.sections) }
        requires room { HasRoom entry self }
        ensures { Gives (λ r. r) result (added self entry) }
    {
        match entry {
            Entry::Domain(domain) => self.with_domain(domain),
            Entry::Section(actor) => self.with_section(alloc, actor),
            Entry::Line(line) => self.with_line(line),
        }
    }

    /// What was read, with one line more.
    pub(crate) fn with_text(self, alloc: Global, line: &[u8]) -> Result<Self, Cause>
        requires { IsTrue (list_all is_lawful_section self.sections) }
        ensures { Gives (λ r. r) result (line_read self (words_of line.now)) }
    {
        let Some((first, rest)) = next_word(line) else {
            return Ok(self);
        };
        let Some(verb) = verb_of(self.version, first) else {
            return Err(Cause::Kind(ScriptKind::Word));
        };
        if !self.is_in_place(verb) {
            return Err(Cause::Kind(ScriptKind::Place));
        }
        let entry = self.entry(alloc, verb, rest)?;
        self.with_entry(alloc, entry)
    }
}
