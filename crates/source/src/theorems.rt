// The theorems on sources.
ghost use Rattle.source.specs.Theorems.{DaySetOfPlaces, NoReason};

// A tuple is in a source's set on a day exactly when a filled place has it on that day.
pub fn day_set_is_of_places()
    ensures { DaySetOfPlaces }
{}

// A table of rows that keep the bounds of every source is not refused.
pub fn sound_rows_are_a_table()
    ensures { NoReason }
{}
