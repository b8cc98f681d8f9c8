ghost use Rattle.serial_run.specs.Picks.{PicksAreUnique};

/// A script has at most one complete schedule of picks for a seed. So its reports that are written whole are the same.
pub fn picks_are_unique()
    ensures { PicksAreUnique }
{}
