// Which instruments were out on a day without cover, and at what value? Step by step, over any sources:
// each step is a plan of layers over the step before, and can be collected into a work area.
ghost use Rattle.relation.specs.Refusals.{Answers};
ghost use Rattle.collect.specs.Collects.{Collects};
ghost use Rattle.tally.specs.Tallying.{Tallies};
ghost use Rattle.plans.specs.Questions.{out, bare, valued, uncovered, out_plan, bare_plan, valued_plan, uncovered_plan, no_out, no_bare, no_valued, no_uncovered, collected, totalled, total_value, IsPlan};

use collect::collects::collect;
use except::excepts::Except;
use join::joins::Join;
use join::pairs::Pair;
use layers::projects::Project;
use layers::windows::Window;
use relation::days::Span;
use relation::refusals::Refusal;
use relation::rows::Row;
use source::asks::Source;
use tallies::rules::Tally;
use tally::calls::tally;
use tree::Node;

// The instrument stands in the first column of each list.
const INSTRUMENT: [usize; 1] = [1];

const BY_INSTRUMENT: [Pair; 1] = [Pair { left: 1, right: 1 }];

// The instruments that were out: the first column of the hires.
fn ask_out<H: Source + Drop>(hires: H) -> Result<Project<H>, Refusal>
    ensures { Answers result (no_out (H.Source.meaning hires)) (λ p. IsPlan (⟦<Project<H> as Source>⟧.meaning p) (out_plan (H.Source.meaning hires))) }
{
    Project::new(hires, &INSTRUMENT)
}

// Those that were out without cover.
fn ask_bare<H: Source + Drop, C: Source + Drop>(
    hires: H,
    covers: C,
) -> Result<Except<Project<H>, Project<C>>, Refusal>
    ensures { Answers result (no_bare (H.Source.meaning hires) (C.Source.meaning covers)) (λ p. IsPlan (⟦<Except<Project<H>, Project<C>> as Source>⟧.meaning p) (bare_plan (H.Source.meaning hires) (C.Source.meaning covers))) }
{
    let instruments = ask_out(hires)?;
    let covered = ask_out(covers)?;
    Except::new(instruments, covered)
}

// The same with the value and the owner that the list of values has on the day.
fn ask_valued<H: Source + Drop, C: Source + Drop, V: Source + Drop>(
    hires: H,
    covers: C,
    values: V,
) -> Result<Join<Except<Project<H>, Project<C>>, V>, Refusal>
    ensures { Answers result (no_valued (H.Source.meaning hires) (C.Source.meaning covers) (V.Source.meaning values)) (λ p. IsPlan (⟦<Join<Except<Project<H>, Project<C>>, V> as Source>⟧.meaning p) (valued_plan (H.Source.meaning hires) (C.Source.meaning covers) (V.Source.meaning values))) }
{
    let left = ask_bare(hires, covers)?;
    Join::new(left, values, &BY_INSTRUMENT)
}

// The same on some days.
fn ask_uncovered<H: Source + Drop, C: Source + Drop, V: Source + Drop>(
    hires: H,
    covers: C,
    values: V,
    days: Span,
) -> Result<Window<Join<Except<Project<H>, Project<C>>, V>>, Refusal>
    ensures { Answers result (no_uncovered (H.Source.meaning hires) (C.Source.meaning covers) (V.Source.meaning values) days.first days.end) (λ p. IsPlan (⟦<Window<Join<Except<Project<H>, Project<C>>, V>> as Source>⟧.meaning p) (uncovered_plan (H.Source.meaning hires) (C.Source.meaning covers) (V.Source.meaning values) days.first days.end)) }
{
    let joined = ask_valued(hires, covers, values)?;
    Window::new(joined, days)
}

// Each list is made in two areas that the caller lends, and reads just the sources that it needs. The three sources are of three types,
// and each call takes only some: a struct of them would be made for one call and taken apart in it. A list is a function for each
// question, since each ends in a layer of another type.

// Lists the instruments that were out.
pub fn list_out<H: Source + Drop>(
    hires: H,
    rows: &mut [Row],
    index: &mut [Node],
) -> Result<usize, Refusal>
    ensures { Collects (collected (no_out (H.Source.meaning hires)) (out_plan (H.Source.meaning hires)) rows.old index.old) (out (H.Source.meaning hires)) rows.old index.old result rows.new index.new }
{
    let asked = ask_out(hires)?;
    collect(&asked, rows, index)
}

// Lists those that were out without cover.
pub fn list_bare<H: Source + Drop, C: Source + Drop>(
    hires: H,
    covers: C,
    rows: &mut [Row],
    index: &mut [Node],
) -> Result<usize, Refusal>
    ensures { Collects (collected (no_bare (H.Source.meaning hires) (C.Source.meaning covers)) (bare_plan (H.Source.meaning hires) (C.Source.meaning covers)) rows.old index.old) (bare (H.Source.meaning hires) (C.Source.meaning covers)) rows.old index.old result rows.new index.new }
{
    let asked = ask_bare(hires, covers)?;
    collect(&asked, rows, index)
}

// Lists the same with the value and the owner that the list of values has on the day.
pub fn list_valued<H: Source + Drop, C: Source + Drop, V: Source + Drop>(
    hires: H,
    covers: C,
    values: V,
    rows: &mut [Row],
    index: &mut [Node],
) -> Result<usize, Refusal>
    ensures { Collects (collected (no_valued (H.Source.meaning hires) (C.Source.meaning covers) (V.Source.meaning values)) (valued_plan (H.Source.meaning hires) (C.Source.meaning covers) (V.Source.meaning values)) rows.old index.old) (valued (H.Source.meaning hires) (C.Source.meaning covers) (V.Source.meaning values)) rows.old index.old result rows.new index.new }
{
    let asked = ask_valued(hires, covers, values)?;
    collect(&asked, rows, index)
}

// Lists the same on some days.
pub fn list_uncovered<H: Source + Drop, C: Source + Drop, V: Source + Drop>(
    hires: H,
    covers: C,
    values: V,
    days: Span,
    rows: &mut [Row],
    index: &mut [Node],
) -> Result<usize, Refusal>
    ensures { Collects (collected (no_uncovered (H.Source.meaning hires) (C.Source.meaning covers) (V.Source.meaning values) days.first days.end) (uncovered_plan (H.Source.meaning hires) (C.Source.meaning covers) (V.Source.meaning values) days.first days.end) rows.old index.old) (uncovered (H.Source.meaning hires) (C.Source.meaning covers) (V.Source.meaning values) days.first days.end) rows.old index.old result rows.new index.new }
{
    let asked = ask_uncovered(hires, covers, values, days)?;
    collect(&asked, rows, index)
}

// The total value of these on each day, for each group of equal values in the columns `by` of the valued list.
pub fn total_uncovered<H: Source + Drop, C: Source + Drop, V: Source + Drop>(
    hires: H,
    covers: C,
    values: V,
    days: Span,
    by: &[usize],
    rows: &mut [Row],
    index: &mut [Node],
) -> Result<usize, Refusal>
    ensures { Tallies (totalled (no_uncovered (H.Source.meaning hires) (C.Source.meaning covers) (V.Source.meaning values) days.first days.end) (uncovered_plan (H.Source.meaning hires) (C.Source.meaning covers) (V.Source.meaning values) days.first days.end) by.now rows.old index.old) total_value by.now (uncovered (H.Source.meaning hires) (C.Source.meaning covers) (V.Source.meaning values) days.first days.end) rows.old index.old result rows.new index.new }
{
    let asked = ask_uncovered(hires, covers, values, days)?;
    tally(&asked, Tally::Sum(2), by, rows, index)
}
