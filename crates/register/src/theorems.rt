// The laws of the register. Each function stands for the theorem that its contract names.
ghost use Rattle.register.specs.Runs.{AnyHistory, NamesApart};

// Whatever was called, refused calls too: each call was refused exactly where the table says; the register has on each day what the one-day
// register of that day has; and published relations have the same rows exactly when their sets agree on every day, and no list of rows with
// those sets is shorter.
pub fn any_history()
    ensures { AnyHistory }
{}

// A register that holds names as numbers tells them apart.
pub fn names_apart()
    ensures { NamesApart }
{}
