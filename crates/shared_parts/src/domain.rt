//! A domain of the world.
ghost use Rattle.std.specs.Prelude.{◌≡◌, IfOk};
ghost use Rattle.shared_parts.specs.Domains.{begun, ended, fresh};

use crate::live::Live;
use argo_base::{DomId, NoMemory, RingId, RingKey};
use argo_model::DomainLine;
use pending_list::Notices;
use std::alloc::Global;
use std::marker::Model;

/// A domain. Whether it is on, and its count of pages, never change.
#[derive(Drop)]
pub(crate) struct Domain {
    pub(crate) on: bool,
    pub(crate) pages: u32,
    /// How often it was made, from 1.
    pub(crate) generation: u32,
    /// What it has, where it is alive.
    pub(crate) life: Option<Live>,
}

impl Model for Domain {
    ghost use Rattle.std.specs.Prelude.{is_some};
    ghost use Rattle.shared_parts.specs.Domains.{Standing};

    ghost Value = { Standing };

    ghost view = { λ x. record {
      on = x.on;
      pages = x.pages;
      generation = x.generation;
      alive = is_some x.life;
    } };
}

impl Domain {
    /// The domain of a line, as it starts.
    pub(crate) fn fresh(alloc: Global, line: &DomainLine) -> Result<Domain, NoMemory>
        ensures { IfOk result (λ x. x ≡ fresh line.now) }
    {
        Ok(Domain {
            on: line.on,
            pages: line.pages,
            generation: 1,
            life: Some(Live::fresh(alloc, line.pages)?),
        })
    }

    /// The domain is gone, with all that it has.
    pub(crate) fn end(&mut self)
        ensures { self.new ≡ ended self.old }
    {
        self.life = None;
    }

    /// The domain is alive in its next generation, with this. The count of generations stands still at its last number, which no script
    /// reaches.
    pub(crate) fn begin_anew(&mut self, live: Live)
        ensures { self.new ≡ begun self.old }
    {
        if self.generation < u32::MAX {
            self.generation += 1;
        }
        self.life = Some(live);
    }

    /// The key of its first ring, by rising key.
    pub(crate) fn first_ring(&mut self) -> Option<RingKey>
        ensures { self.new ≡ self.old }
    {
        let live = self.life.as_mut()?;
        let (key, _) = live.rings.get_mut().first()?;
        Some(key)
    }

    /// Ends a ring: its pages become private again, and its notices come back.
    pub(crate) fn end_ring(&mut self, key: RingKey) -> Notices
        ensures { self.new ≡ self.old }
    {
        let Some(live) = &mut self.life else {
            return Notices::new();
        };
        live.rings.get_mut().end(key, live.private.get_mut())
    }

    /// Takes the notice of a domain away from a ring.
    pub(crate) fn forget(&mut self, key: RingKey, dom: DomId)
        ensures { self.new ≡ self.old }
    {
        if let Some(live) = &mut self.life {
            live.rings.get_mut().forget(key, dom);
        }
    }

    /// How many rings others have for it alone.
    pub(crate) fn count_sends(&mut self) -> usize
        ensures { self.new ≡ self.old }
    {
        match &mut self.life {
            Some(live) => live.sends.get_mut().len(),
            None => 0,
        }
    }

    /// Takes the first of these off its list.
    pub(crate) fn next_send(&mut self) -> Option<RingId>
        ensures { self.new ≡ self.old }
    {
        let live = self.life.as_mut()?;
        live.sends.get_mut().drain_one()
    }

    /// Takes one of these off its list.
    pub(crate) fn drop_send(&mut self, id: RingId)
        ensures { self.new ≡ self.old }
    {
        if let Some(live) = &mut self.life {
            live.sends.get_mut().remove(id);
        }
    }

    /// How many wildcard rings hold a notice of it.
    pub(crate) fn count_wilds(&mut self) -> usize
        ensures { self.new ≡ self.old }
    {
        match &mut self.life {
            Some(live) => live.wilds.get_mut().len(),
            None => 0,
        }
    }

    /// Takes the first of these off its list.
    pub(crate) fn next_wild(&mut self) -> Option<RingId>
        ensures { self.new ≡ self.old }
    {
        let live = self.life.as_mut()?;
        live.wilds.get_mut().drain_one()
    }

    /// Takes one of these off its list.
    pub(crate) fn drop_wild(&mut self, id: RingId)
        ensures { self.new ≡ self.old }
    {
        if let Some(live) = &mut self.life {
            live.wilds.get_mut().remove(id);
        }
    }
}
