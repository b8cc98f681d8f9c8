//! What a domain has that is alive.
ghost use Rattle.std.specs.Prelude.{◌≡◌, ◌+◌, ◌≤◌, IfOk, IfSome, IfNone, length, take, drop};
ghost use Rattle.argo_model.specs.declared.action.Outcome.TheVariants.{Bytes, Fault};
ghost use Rattle.argo_model.specs.Rules.Act as acts;
ghost use Rattle.argo_model.specs.Rules.Effects as effects;

use crate::home::{Home, home_at};
use argo_base::{Bytes, DomId, NoMemory, Piece};
use argo_model::Outcome;
use guest_pages::Private;
use ring_core::Ring;
use ring_table::Table;
use std::alloc::Global;
use std::marker::Model;

/// What only a domain that is alive has. Its pages stand by themselves or in one of its rings, and are moved and not copied.
#[derive(Drop)]
pub struct Live {
    /// The pages that stand by themselves.
    pub(crate) private: Private,
    /// For each page the ring that it stands in.
    pub(crate) homes: Vec<Option<Home>>,
    pub(crate) flag: bool,
    pub(crate) next_serial: u64,
    pub(crate) rings: Table<Ring>,
    /// The domain, which owns the rings.
    pub(crate) dom: DomId,
}

impl Model for Live {
    ghost use Rattle.argo_model.specs.Rules.State.{Live as TheLive};

    ghost Value = { TheLive };

    ghost use Rattle.paged_live.specs.Parts.{Parts, seen, IsParts};

    ghost view = { λ l. seen (record {
      private = l.private;
      homes = l.homes.items;
      flag = l.flag;
      next_serial = l.next_serial;
      rows = l.rings;
    }) };

    ghost invariant = { λ l. IsParts (record {
      private = l.private;
      homes = l.homes.items;
      flag = l.flag;
      next_serial = l.next_serial;
      rows = l.rings;
    }) };
}

impl Live {
    /// Fetches a piece.
    pub(crate) fn fetch(&self, alloc: Global, piece: Piece) -> Result<Outcome, NoMemory>
        requires { piece.off + piece.n ≤ 4096 }
        ensures { IfOk result
            (λ o. o ≡ acts.fetch self.now piece.page piece.off piece.n) }
    {
        match self.shown(piece) {
            Some(bytes) => Ok(Outcome::Bytes(Bytes::copy_of(alloc, bytes)?)),
            None => Ok(Outcome::Fault),
        }
    }

    /// The bytes of a piece, where its page is there.
    pub(crate) fn shown(&self, piece: Piece) -> Option<&[u8]>
        requires { piece.off + piece.n ≤ 4096 }
        ensures some { IfSome result
            (λ bytes. acts.fetch self.now piece.page piece.off piece.n ≡ Bytes bytes.now) }
        ensures none { IfNone result
            (acts.fetch self.now piece.page piece.off piece.n ≡ Fault) }
    {
        if let Some(page) = self.private.page(piece.page) {
            return Some(part_of(page, piece));
        }
        let home = home_at(self.homes.as_slice(), piece.page)?;
        let row = self.rings.find_exact(home.key)?;
        let pages = row.value.row();
        pages.count();
        Some(part_of(pages.page(home.place as usize), piece))
    }

    /// Tells the flag, and clears it.
    pub(crate) fn look(&mut self) -> Outcome
        ensures outcome { result ≡ (acts.look self.old).outcome }
        ensures left { self.new ≡ effects.after self.old (acts.look self.old) }
    {
        let flag = self.flag;
        self.flag = false;
        Outcome::Flag(flag)
    }
}

// The bytes of a piece in its page.
fn part_of(page: &[u8], piece: Piece) -> &[u8]
    requires { piece.off + piece.n ≤ length page.now }
    ensures { result.now ≡ take piece.n (drop piece.off page.now) }
{
    let (_, rest) = page.split_at(piece.off as usize);
    let (part, _) = rest.split_at(piece.n as usize);
    part
}
