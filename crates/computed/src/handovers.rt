// The handovers: a plan of layers over watches, collected into a work area.
ghost use Rattle.relation.specs.Refusals.{Answers};
ghost use Rattle.collect.specs.Collects.{Collects};
ghost use Rattle.plans.specs.Questions.{collected, IsPlan};
ghost use Rattle.computed.specs.Handovers.{handovers, outside_plan, pairs_plan, handovers_plan, no_outside, no_pairs, no_handovers};
ghost use Rattle.computed.specs.Watches.{watches};

use crate::watches::Watches;
use collect::collects::collect;
use except::excepts::Except;
use join::joins::Join;
use join::pairs::Pair;
use layers::selects::Select;
use layers::windows::Window;
use relation::conditions::{Condition, Sign, Term};
use relation::days::Span;
use relation::refusals::Refusal;
use relation::rows::Row;
use source::asks::Source;
use tree::Node;

const BY_WATCHMAN: [Pair; 1] = [Pair { left: 1, right: 1 }];

// The second watch has the larger number.
const LATER: Condition = Condition {
    column: 2,
    sign: Sign::Less,
    term: Term::Column(3),
};

// The watches without some days.
fn ask_outside(all: Watches, days: Span) -> Result<Except<Watches, Window<Watches>>, Refusal>
    ensures { Answers result (no_outside all.count days.first days.end) (λ p. IsPlan (⟦<Except<Watches, Window<Watches>> as Source>⟧.meaning p) (outside_plan (watches all.count) days.first days.end)) }
{
    let inside = Window::new(all, days)?;
    Except::new(all, inside)
}

// Each of these beside each watch of the same watchman that shares a day with it.
fn ask_pairs(
    all: Watches,
    days: Span,
) -> Result<Join<Except<Watches, Window<Watches>>, Watches>, Refusal>
    ensures { Answers result (no_pairs all.count days.first days.end) (λ p. IsPlan (⟦<Join<Except<Watches, Window<Watches>>, Watches> as Source>⟧.meaning p) (pairs_plan (watches all.count) days.first days.end)) }
{
    let outside = ask_outside(all, days)?;
    Join::new(outside, all, &BY_WATCHMAN)
}

// Two watches of one watchman that share a day, the earlier one outside some days.
fn ask_handovers(
    all: Watches,
    days: Span,
) -> Result<Select<Join<Except<Watches, Window<Watches>>, Watches>>, Refusal>
    ensures { Answers result (no_handovers all.count days.first days.end) (λ p. IsPlan (⟦<Select<Join<Except<Watches, Window<Watches>>, Watches>> as Source>⟧.meaning p) (handovers_plan (watches all.count) days.first days.end)) }
{
    let pairs = ask_pairs(all, days)?;
    Select::new(pairs, LATER)
}

// Lists the handovers of so many watches.
pub fn list_handovers(
    count: usize,
    days: Span,
    rows: &mut [Row],
    index: &mut [Node],
) -> Result<usize, Refusal>
    ensures { Collects (collected (no_handovers count days.first days.end) (handovers_plan (watches count) days.first days.end) rows.old index.old) (handovers (watches count) days.first days.end) rows.old index.old result rows.new index.new }
{
    let asked = ask_handovers(Watches::new(count)?, days)?;
    collect(&asked, rows, index)
}
