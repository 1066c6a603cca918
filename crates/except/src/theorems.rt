// The theorem on the day sets of an except.
ghost use Rattle.except.specs.Theorems.{DaySetsExcepted};

// On every day a tuple is in an except exactly when the left source has it and the right one has not.
pub fn day_sets_are_excepted()
    ensures { DaySetsExcepted }
{}
