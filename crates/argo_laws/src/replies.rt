//! Why each reply of a run came.

ghost use Rattle.argo_laws.specs.Replies.{AllRepliesHaveCauses};

/// For every script and schedule: each step of the run is of a line of the script, by the rules the next action of its program; a reply
/// ends its line, and has its one cause.
pub fn replies_have_causes()
    ensures { AllRepliesHaveCauses }
{}
