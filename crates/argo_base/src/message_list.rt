//! The untaken messages of a ring, with room for one more made beforehand.
ghost use Rattle.std.specs.Prelude.{◌≡◌, ◌≤◌, ◌<◌, ◌↔◌, [], ◌∷◌, ◌++◌, length, drop, IsTrue, IsFalse, Some, slice_get, OnOk, OnErr};

use crate::{Message, Messages, NoMemory};
use std::alloc::Global;
use std::marker::Model;

/// The messages of a ring that were not taken yet, oldest first. Contracts see them as that list, beside whether one more
/// has room without memory.
#[derive(Debug, Drop)]
pub struct MessageList {
    items: Vec<Message>,
}

impl Model for MessageList {
    ghost use Rattle.std.specs.Prelude.{nat_lt, vec_len, vec_capacity};
    ghost use Rattle.argo_base.specs.MessageList.{Listed};

    ghost Value = { Listed };

    ghost view = { λ a. record {
      messages = a.items.items;
      has_room = nat_lt (vec_len a.items) (vec_capacity a.items);
    } };
}

impl MessageList {
    pub fn new(alloc: Global) -> Self
        ensures { result.messages ≡ [] }
    {
        MessageList {
            items: Vec::new(alloc),
        }
    }

    /// The list of these messages. It takes no memory.
    pub fn from_messages(messages: Messages) -> Self
        ensures { result.messages ≡ messages }
    {
        MessageList {
            items: messages.into_vec(),
        }
    }

    /// The messages as a report shows them. It takes no memory.
    pub fn into_messages(self) -> Messages
        ensures { result ≡ self.messages }
    {
        let MessageList { items } = self;
        Messages::from_vec(items)
    }

    /// Makes room for one message. The list stays; want of memory comes only where there was no room.
    pub fn reserve(&mut self) -> Result<(), NoMemory>
        ensures messages { self.new.messages ≡ self.old.messages }
        ensures ok { OnOk result (IsTrue self.new.has_room) }
        ensures err { OnErr result (IsFalse self.old.has_room) }
    {
        self.items.reserve(1)?;
        Ok(())
    }

    /// Adds a message at the end, into the room that was made. It takes no memory.
    pub fn push_reserved(&mut self, x: Message)
        requires { IsTrue self.old.has_room }
        ensures { self.new.messages ≡ self.old.messages ++ x ∷ [] }
    {
        self.items.push_reserved(x);
    }

    /// Adds a message at the end. Where memory runs out, the message is dropped and the list stays; that is only where there
    /// was no room.
    pub fn push(&mut self, x: Message) -> Result<(), NoMemory>
        ensures ok { OnOk result (self.new.messages ≡ self.old.messages ++ x ∷ []) }
        ensures err { OnErr result (self.new.messages ≡ self.old.messages) }
        ensures full { OnErr result (IsFalse self.old.has_room) }
    {
        self.items.push(x)?;
        Ok(())
    }

    /// Takes the first `k` messages off. It takes no memory.
    pub fn drop_first(&mut self, k: usize)
        requires { k ≤ length self.old.messages }
        ensures messages { self.new.messages ≡ drop k self.old.messages }
        ensures room { IsTrue self.old.has_room → IsTrue self.new.has_room }
    {
        let kept = self.items.len() - k;
        self.items.rotate_left(k);
        self.items.truncate(kept);
    }

    /// Takes all messages off. It takes no memory.
    pub fn clear(&mut self)
        ensures messages { self.new.messages ≡ [] }
        ensures room { IsTrue self.old.has_room → IsTrue self.new.has_room }
    {
        self.items.clear();
    }

    pub fn len(&self) -> usize
        ensures { result ≡ length self.now.messages }
    {
        self.items.len()
    }

    pub fn is_empty(&self) -> bool
        ensures { IsTrue result ↔ (self.now.messages ≡ []) }
    {
        self.items.is_empty()
    }

    pub fn get(&self, place: usize) -> &Message
        requires { place < length self.now.messages }
        ensures { slice_get self.now.messages place ≡ Some result.now }
    {
        &self.items[place]
    }

    pub fn as_slice(&self) -> &[Message]
        ensures { result.now ≡ self.now.messages }
    {
        self.items.as_slice()
    }
}
