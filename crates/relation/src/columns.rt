// The kinds of a relation's columns.
use crate::bounds::MOST_COLUMNS;
use crate::few::Few;
use crate::kinds::Kind;

// The kinds of up to six columns. A call takes them as a slice.
pub type Kinds = Few<Kind, MOST_COLUMNS>;
