// A list as text, and its parts.
pub use listing::show::{KindLetters, ListText, RowLine, ValueText};
