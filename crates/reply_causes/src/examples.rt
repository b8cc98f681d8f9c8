//! Worked examples of the tables of causes: the reply of each row, for a call in small states.

ghost use Rattle.reply_causes.specs.Examples.Controls.{ControlRows};
ghost use Rattle.reply_causes.specs.Examples.Memories.{MemoryRows};
ghost use Rattle.reply_causes.specs.Examples.Notifies.{NotifyRows};
ghost use Rattle.reply_causes.specs.Examples.Recvs.{RecvRows};
ghost use Rattle.reply_causes.specs.Examples.Registers.{RegisterRows, UnregisterRows};
ghost use Rattle.reply_causes.specs.Examples.Sends.{SendRows};

/// The rows of sendv.
pub fn sends()
    ensures { SendRows }
{}

/// The rows of register_ring.
pub fn registrations()
    ensures { RegisterRows }
{}

/// The rows of unregister_ring.
pub fn endings()
    ensures { UnregisterRows }
{}

/// The rows of notify.
pub fn notifies()
    ensures { NotifyRows }
{}

/// The rows of recv.
pub fn recvs()
    ensures { RecvRows }
{}

/// The rows of store, load and await.
pub fn memory()
    ensures { MemoryRows }
{}

/// The rows of destroy, reset, create and unknown commands.
pub fn control()
    ensures { ControlRows }
{}
