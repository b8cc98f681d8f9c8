//! The untaken messages of a ring, which are taken from the front.
ghost use Rattle.std.specs.Prelude.{◌≡◌, ◌≤◌, [], ◌∷◌, ◌++◌, length, drop, IsTrue, IsFalse, OnOk, OnErr};

use argo_base::{Message, Messages, NoMemory};
use std::alloc::Global;
use std::collections::VecDeque;
use std::marker::Model;

/// The messages of a ring that were not taken yet, oldest first. Contracts see them as that list, beside whether one more has
/// room without memory. Those that are taken cost as many steps as they are, however many stay.
#[derive(Debug, Drop)]
pub(crate) struct Log {
    messages: VecDeque<Message>,
}

impl Model for Log {
    ghost use Rattle.std.specs.Prelude.{nat_lt};
    ghost use Rattle.std.specs.VecDeque.{deque_len, deque_capacity};
    ghost use Rattle.argo_base.specs.MessageList.{Listed};

    ghost Value = { Listed };

    ghost view = { λ a. record {
      messages = a.messages.items;
      has_room = nat_lt (deque_len a.messages) (deque_capacity a.messages);
    } };
}

impl Log {
    pub(crate) fn new(alloc: Global) -> Self
        ensures { result.messages ≡ [] }
    {
        Log {
            messages: VecDeque::new(alloc),
        }
    }

    /// Makes room for one message. The list stays.
    pub(crate) fn reserve(&mut self) -> Result<(), NoMemory>
        ensures messages { self.new.messages ≡ self.old.messages }
        ensures ok { OnOk result (IsTrue self.new.has_room) }
        ensures err { OnErr result (IsFalse self.old.has_room) }
    {
        self.messages.reserve(1)?;
        Ok(())
    }

    /// Adds a message at the end, into the room that was made.
    pub(crate) fn push_reserved(&mut self, x: Message)
        requires { IsTrue self.old.has_room }
        ensures { self.new.messages ≡ self.old.messages ++ x ∷ [] }
    {
        self.messages.push_back_reserved(x);
    }

    /// Takes the first `k` messages off.
    pub(crate) fn drop_first(&mut self, k: usize)
        requires { k ≤ length self.old.messages }
        ensures messages { self.new.messages ≡ drop k self.old.messages }
        ensures room { IsTrue self.old.has_room → IsTrue self.new.has_room }
    {
        for _ in 0..k {
            self.messages.pop_front();
        }
    }

    /// Takes all messages off.
    pub(crate) fn clear(&mut self)
        ensures messages { self.new.messages ≡ [] }
        ensures room { IsTrue self.old.has_room → IsTrue self.new.has_room }
    {
        self.messages.clear();
    }

    pub(crate) fn messages(&self) -> &VecDeque<Message>
        ensures { result.now.items ≡ self.now.messages }
    {
        &self.messages
    }

    /// The messages as a report shows them. It takes no memory.
    pub(crate) fn into_messages(self) -> Messages
        ensures { result ≡ self.messages }
    {
        let Log { messages } = self;
        Messages::from_vec(messages.into_vec())
    }
}
