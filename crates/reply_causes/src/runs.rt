//! The replies of runs.

ghost use Rattle.reply_causes.specs.Runs.{AllRepliesHaveCauses};

/// For every script and schedule: the transitions of the run are its steps; those of each line are the next actions of its program, with
/// the outcomes and states of the rules; a reply ends its line; and each reply has its one cause.
pub fn replies_have_causes()
    ensures { AllRepliesHaveCauses }
{}
