// Equal kinds.
ghost use Rattle.std.specs.Prelude.{◌≡◌};
ghost use Rattle.layers.specs.Alike.{alike, same_kinds};

use relation::kinds::Kind;
use source::asks::Source;

// Whether two columns are both there, with the same kind.
pub fn alike(a: Option<Kind>, b: Option<Kind>) -> bool
    ensures { result ≡ alike a b }
{
    a.is_some() && a == b
}

// Whether two sources have as many columns, each with the same kind.
pub fn same_kinds<L: Source, R: Source>(left: &L, right: &R) -> bool
    ensures { result ≡ same_kinds (L.Source.meaning left.now).kinds (R.Source.meaning right.now).kinds }
{
    let columns = left.columns();
    columns == right.columns() && (1..columns + 1).all(|c| alike(left.kind(c), right.kind(c)))
}
