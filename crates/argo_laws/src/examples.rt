//! Worked examples of the laws of notices, flags and names: few steps each, in a small state.

ghost use Rattle.argo_laws.specs.Examples.{FlagsAreCleared, FlagsAreSet, NamesGoOn, NoticesEnd, NoticesStay};

/// Each way in which a notice ends, and whether its domain is signalled.
pub fn notices_end()
    ensures { NoticesEnd }
{}

/// Steps near to those, after which the notice stands.
pub fn notices_stay()
    ensures { NoticesStay }
{}

/// Each way in which a flag is set.
pub fn flags_are_set()
    ensures { FlagsAreSet }
{}

/// Each way in which a flag is cleared.
pub fn flags_are_cleared()
    ensures { FlagsAreCleared }
{}

/// A ring that is made after another ended has another name.
pub fn names_go_on()
    ensures { NamesGoOn }
{}
