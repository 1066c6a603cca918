// Small tables, as one fact about the definitions.
ghost use Rattle.tallies.specs.Examples.{Tables};

// Rows that meet, an except, joins, tallies, periods and a word, each with its canonical list or its value.
pub fn tables_hold()
    ensures { Tables }
{}
