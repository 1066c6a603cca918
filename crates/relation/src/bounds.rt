// The bounds of the subject, each by its name.

// Numbers lie between its negation and this, both included.
pub const LARGEST_NUMBER: i64 = 1_000_000_000_000;

// Every day is below this, and no period ends after it.
pub const END_OF_DAYS: u32 = 1_000_000;

// A relation has one to this many columns.
pub const MOST_COLUMNS: usize = 6;

// A source has at most this many places.
pub const MOST_PLACES: usize = 1_000_000_000;

// Only this many entries of a work area count.
pub const MOST_WORK: usize = 65_536;

// A word has one to this many bytes.
pub const WORD_BYTES: usize = 8;

// A register has room for this many names.
pub const ENTRIES: usize = 16;

// A register holds at most this many rows.
pub const MOST_STORED: usize = 16_384;
