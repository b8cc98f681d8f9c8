ghost use Rattle.std.specs.Prelude.{◌≡◌, ◌++◌, length, OnOk};
ghost use Rattle.std.specs.String.{string_bytes};
ghost use Rattle.argo_model.specs.Runs.Report.{schedule_line, done_line, domain_line, ring_line, message_line, notice_line, slots_line, totals_line, life_word, flag_word, partner_word, clean_word};

use crate::hex::push_hex;
use crate::reply::push_reply;
use argo_base::{DomId, Message};
use argo_model::{DoneLine, FinalDomain, FinalRing, NoticeLine, Run, Totals};
use std::alloc::AllocError;

/// A line of a report or of a summary.
#[derive(Clone, Copy)]
pub(crate) enum ReportLine<'a> {
    Opening(u32),
    SummaryOpening,
    Schedule(&'a [Run]),
    Done(&'a DoneLine),
    /// A domain, under the format of the script.
    Domain(u32, &'a FinalDomain),
    /// A ring of that domain.
    Ring(DomId, &'a FinalRing),
    Message(&'a Message),
    Notice(&'a NoticeLine),
    /// Slot bytes from that place on.
    Slots(usize, &'a [u8]),
    Totals(usize, &'a Totals),
    End,
}

impl ReportLine<'_> {
    ghost use Rattle.report_text.specs.Lines.{text_of};

    /// Puts the line into the text, in place of what is there.
    pub(crate) fn fill(&self, text: &mut String) -> Result<(), AllocError>
        ensures { OnOk result (string_bytes text.new ≡ text_of self.now) }
    {
        text.clear();
        match self {
            ReportLine::Opening(version) => writeln!(text, "argo report {version}"),
            ReportLine::SummaryOpening => text.push_str("argo summary 1\n"),
            ReportLine::Schedule(runs) => push_schedule(text, runs),
            ReportLine::Done(done) => push_done(text, done),
            ReportLine::Domain(version, domain) => push_domain(text, *version, domain),
            ReportLine::Ring(owner, ring) => push_ring(text, *owner, ring),
            ReportLine::Message(message) => push_message(text, message),
            ReportLine::Notice(notice) => push_notice(text, notice),
            ReportLine::Slots(at, row) => push_slots(text, *at, row),
            ReportLine::Totals(vcpu, totals) => push_totals(text, *vcpu, totals),
            ReportLine::End => text.push_str("end\n"),
        }
    }
}

fn push_schedule(text: &mut String, runs: &[Run]) -> Result<(), AllocError>
    ensures { OnOk result (string_bytes text.new
        ≡ string_bytes text.old ++ schedule_line runs.now) }
{
    text.push_str("schedule")?;
    for run in runs {
        write!(text, " {}*{}", run.vcpu, run.count)?;
    }
    text.push_str("\n")
}

fn push_done(text: &mut String, done: &DoneLine) -> Result<(), AllocError>
    ensures { OnOk result (string_bytes text.new ≡ string_bytes text.old ++ done_line done.now) }
{
    write!(text, "reply {} {} ", done.vcpu, done.line)?;
    push_reply(text, &done.reply)?;
    text.push_str("\n")
}

fn push_domain(text: &mut String, version: u32, domain: &FinalDomain) -> Result<(), AllocError>
    ensures { OnOk result (string_bytes text.new
        ≡ string_bytes text.old ++ domain_line version domain.now) }
{
    let life = life_of(domain);
    let flag = flag_of(domain);
    let id = domain.id.0;
    if version == 2 {
        writeln!(text, "domain {id} gen {} {life} {flag}", domain.generation)
    } else {
        writeln!(text, "domain {id} {life} {flag}")
    }
}

fn life_of(domain: &FinalDomain) -> &'static str
    ensures { result.now ≡ life_word domain.now }
{
    if !domain.alive {
        "gone"
    } else if domain.on {
        "alive"
    } else {
        "off"
    }
}

fn flag_of(domain: &FinalDomain) -> &'static str
    ensures { result.now ≡ flag_word domain.now.flag }
{
    if domain.flag { "flag" } else { "clear" }
}

fn push_ring(text: &mut String, owner: DomId, ring: &FinalRing) -> Result<(), AllocError>
    ensures { OnOk result (string_bytes text.new
        ≡ string_bytes text.old ++ ring_line owner ring.now) }
{
    write!(text, "ring {} {} ", owner.0, ring.key.port)?;
    push_partner(text, ring.key.partner)?;
    let state = clean_of(ring);
    writeln!(text, " len {} tx {} {state}", ring.len, ring.tx)
}

fn push_partner(text: &mut String, partner: DomId) -> Result<(), AllocError>
    ensures { OnOk result (string_bytes text.new ≡ string_bytes text.old ++ partner_word partner) }
{
    if partner == DomId::ANY {
        text.push_str("any")
    } else {
        write!(text, "{}", partner.0)
    }
}

fn clean_of(ring: &FinalRing) -> &'static str
    ensures { result.now ≡ clean_word ring.now.clean }
{
    if ring.clean { "clean" } else { "dirty" }
}

fn push_message(text: &mut String, message: &Message) -> Result<(), AllocError>
    ensures { OnOk result (string_bytes text.new
        ≡ string_bytes text.old ++ message_line message.now) }
{
    let size = message.body.len();
    let src = message.src.0;
    writeln!(
        text,
        "message {src} {} {} {size}",
        message.port, message.kind
    )
}

fn push_notice(text: &mut String, notice: &NoticeLine) -> Result<(), AllocError>
    ensures { OnOk result (string_bytes text.new
        ≡ string_bytes text.old ++ notice_line notice.now) }
{
    writeln!(text, "notice {} {}", notice.dom.0, notice.size)
}

fn push_slots(text: &mut String, at: usize, row: &[u8]) -> Result<(), AllocError>
    ensures { OnOk result (string_bytes text.new ≡ string_bytes text.old ++ slots_line at row.now) }
{
    write!(text, "slots {at} ")?;
    push_hex(text, row)?;
    text.push_str("\n")
}

fn push_totals(text: &mut String, vcpu: usize, totals: &Totals) -> Result<(), AllocError>
    ensures { OnOk result (string_bytes text.new
        ≡ string_bytes text.old ++ totals_line (vcpu, totals.now)) }
{
    writeln!(
        text,
        "vcpu {vcpu} steps {} accepted {} bytes {}",
        totals.steps, totals.accepted, totals.bytes
    )
}
