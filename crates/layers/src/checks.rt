// When a layer over two sources is refused.
ghost use Rattle.std.specs.Prelude.{⊤};
ghost use Rattle.relation.specs.Refusals.{Answers};
ghost use Rattle.layers.specs.Checks.{too_many, no_pair};

use crate::kinds::same_kinds;
use relation::bounds::MOST_PLACES;
use relation::refusals::{Reason, Refusal};
use source::asks::Source;

// Refused where there are more places than a source may have.
pub fn check_places(places: usize) -> Result<(), Refusal>
    ensures { Answers result (too_many places) (λ _. ⊤) }
{
    if places > MOST_PLACES {
        return Err(Reason::TooManyPlaces.into());
    }
    Ok(())
}

// Refused where the kinds of two sources differ, and then where a layer over both would have too many places.
pub fn check_pair<L: Source, R: Source>(left: &L, right: &R, places: usize) -> Result<(), Refusal>
    ensures { Answers result (no_pair (L.Source.meaning left.now) (R.Source.meaning right.now) places) (λ _. ⊤) }
{
    if !same_kinds(left, right) {
        return Err(Reason::Misfit.into());
    }
    check_places(places)
}
