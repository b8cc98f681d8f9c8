//! The other lines of scripts.

ghost use Rattle.reply_causes.specs.Gone.{LostExactlyWhereAway};
ghost use Rattle.reply_causes.specs.Causes.{AwaitsHaveCauses, AwaitsLookTurns, CreatesHaveCauses, DestroysHaveCauses, LoadsHaveCauses, RecvsHaveCauses, ResetsHaveCauses, StoresHaveCauses};

/// A store is a fault exactly where a piece of its range was absent when its step put it.
pub fn store()
    ensures { StoresHaveCauses }
{}

/// A load is a fault exactly where a piece of its range was absent when its step fetched it, and else tells what its steps found.
pub fn load()
    ensures { LoadsHaveCauses }
{}

/// An await has a signal exactly where one of its looks found the flag. Without one it has looked as often as it may.
pub fn await_flag()
    ensures causes { AwaitsHaveCauses }
    ensures turns { AwaitsLookTurns }
{}

/// A recv has the reply of its table: an absent word, words that are no places of the ring, equal words; an absent header or one that
/// makes no sense; an absent body; an absent rx word when it is put; or the message.
pub fn recv()
    ensures { RecvsHaveCauses }
{}

/// A domain that is not alive is not destroyed: -3, and else 0.
pub fn destroy()
    ensures { DestroysHaveCauses }
{}

/// A domain that is not alive is not reset: -3, and else 0.
pub fn reset()
    ensures { ResetsHaveCauses }
{}

/// A domain that the script does not have is not created, -3, nor one that is alive, -17; and else 0.
pub fn create()
    ensures { CreatesHaveCauses }
{}

/// An outcome of a line is `Gone`, and its reply `gone`, exactly where at one of its steps the section's domain was not alive, or was of
/// another generation. The control section has no such outcome.
pub fn gone()
    ensures { LostExactlyWhereAway }
{}
