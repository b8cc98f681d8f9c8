//! The hypercalls, as a virtual CPU makes them.

ghost use Rattle.reply_causes.specs.Causes.{NotifiesHaveCauses, RegistersHaveCauses, UnknownsHaveCauses, UnregistersHaveCauses};
ghost use Rattle.reply_causes.specs.Sends.{SendsHaveCauses};

/// register_ring has the reply of its table: a flag, a structure or a list that is refused; a partner, a caller; a ring that stands, no
/// place for one more, pages that may not be used; or 0.
pub fn register_ring()
    ensures { RegistersHaveCauses }
{}

/// unregister_ring has the reply of its table: an argument or a structure that is refused, a caller that is off, no such ring; or 0.
pub fn unregister_ring()
    ensures { UnregistersHaveCauses }
{}

/// sendv has the reply of its table. After -11 the caller's notice stands on the ring that it met, for no smaller size; and a count
/// says that the last step brought the message, the fetched bytes under the caller's domain and the port that it named.
pub fn sendv()
    ensures { SendsHaveCauses }
{}

/// notify has the reply of its table: an argument that is refused; a caller that is off at a sweep; a head that is refused; an entry
/// that is refused, a caller that is off at its question, an absent place for its answer; or 0.
pub fn notify()
    ensures { NotifiesHaveCauses }
{}

/// A command that is none of the four is refused with -95.
pub fn unknown_command()
    ensures { UnknownsHaveCauses }
{}
