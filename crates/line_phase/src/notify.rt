//! The call notify.

ghost use Rattle.std.specs.Prelude.{◌≡◌, ◌+◌, ◌*◌, ◌<◌, length};
ghost use Rattle.line_phase.specs.Entries.{places_from, most_of_notify};
ghost use Rattle.line_phase.specs.Followed.{Leads};
ghost use Rattle.line_phase.specs.Notifying.{ask_entry, entry_answered, sweeps};
ghost use Rattle.argo_model.specs.Programs.Notify.{notify_head, notify_entries, answer_entries};

use crate::cursor::Cursor;
use crate::fetch::reading;
use crate::layout::{ring_data, ring_data_entry};
use crate::phase::{Followed, Phase, Question, Reader, Text};
use crate::reads::{Entry, NotifyRead};
use crate::refusal::refusal;
use argo_base::{DomId, Errno};
use argo_model::{Outcome, Reply};
use std::alloc::Global;

/// The entries that one notify answers at most.
const MOST_ENTRIES: u32 = 256;

impl Entry {
    ghost use Rattle.line_phase.specs.Entries.{places_after, IsEntry};

    /// Where the call goes after this entry.
    pub(crate) fn next(self, alloc: Global) -> Followed
        requires { IsEntry self }
        ensures { Leads (answer_entries (places_after self)) (5 * self.later) result }
    {
        entries(alloc, self.base, self.place + 1, self.later)
    }

    // Asks for room as the entry says.
    fn ask(self, entry: &[u8]) -> Followed
        requires ready { IsEntry self }
        requires size { length entry.now ≡ 20 }
        ensures { Leads (ask_entry self entry.now) (5 * self.later + 3) result }
    {
        let asked = ring_data_entry(entry);
        if asked.ring.pad != 0 || asked.pad != 0 {
            return Followed::Over(refusal(Errno::Inval));
        }
        Followed::To(Phase::Asking(Question::Query {
            entry: self,
            to: DomId(asked.ring.domain_id),
            to_port: asked.ring.aport,
            need: asked.space_required,
        }))
    }

    /// Where the call goes when it was asked for room.
    pub(crate) fn answered(self, alloc: Global, outcome: &Outcome) -> Followed
        requires { IsEntry self }
        ensures { Leads (entry_answered self outcome.now) (5 * self.later + 2) result }
    {
        match outcome {
            Outcome::Answer(answer) => Followed::To(Phase::Writing {
                rest: Cursor::beyond(self.base, 16 + 20 * self.place, 12),
                text: Text::Answer {
                    answer: *answer,
                    entry: self,
                },
            }),
            Outcome::Refused(e) => Followed::Over(refusal(*e)),
            _ => self.next(alloc),
        }
    }
}

impl NotifyRead {
    ghost use Rattle.line_phase.specs.Notifying.{after_notify_read, notify_size, IsNotifyRead, most_after_notify};

    /// Where the call goes with the bytes.
    pub(crate) fn used(self, alloc: Global, got: &[u8]) -> Followed
        requires ready { IsNotifyRead self }
        requires size { length got.now ≡ notify_size self }
        ensures { Leads (after_notify_read self got.now) (most_after_notify self) result }
    {
        match self {
            NotifyRead::Head { base } => head(alloc, base, got),
            NotifyRead::Entry(entry) => entry.ask(got),
        }
    }
}

/// Where a notify goes that has so many sweeps to come, of the rings after a serial.
pub(crate) fn sweep(alloc: Global, base: u64, after: u64, count: u32) -> Followed
    ensures { Leads (sweeps base count after) (count + most_of_notify) result }
{
    if count == 0 {
        return begin(alloc, base);
    }
    Followed::To(Phase::Asking(Question::Sweep {
        base,
        after,
        later: count - 1,
    }))
}

/// Where a notify goes when no ring is left to be swept.
pub(crate) fn begin(alloc: Global, base: u64) -> Followed
    ensures { Leads (notify_entries base) most_of_notify result }
{
    if base == 0 {
        return Followed::Over(Reply::Number(0));
    }
    let rest = Cursor::over(base, 8);
    Followed::To(reading(alloc, rest, Reader::Notify(NotifyRead::Head { base })))
}

// After the 8 bytes that count the entries.
fn head(alloc: Global, base: u64, bytes: &[u8]) -> Followed
    requires { length bytes.now ≡ 8 }
    ensures { Leads (notify_head base bytes.now) 1280 result }
{
    let head = ring_data(bytes);
    if head.pad != 0 {
        return Followed::Over(refusal(Errno::Inval));
    }
    if MOST_ENTRIES < head.nent {
        return Followed::Over(refusal(Errno::Acces));
    }
    entries(alloc, base, 0, head.nent)
}

// So many entries from a place on.
fn entries(alloc: Global, base: u64, place: u32, count: u32) -> Followed
    requires { place + count < 257 }
    ensures { Leads (answer_entries (places_from base place count)) (5 * count) result }
{
    if count == 0 {
        return Followed::Over(Reply::Number(0));
    }
    let entry = Entry {
        base,
        place,
        later: count - 1,
    };
    let rest = Cursor::beyond(base, 8 + 20 * place, 20);
    Followed::To(reading(alloc, rest, Reader::Notify(NotifyRead::Entry(entry))))
}
