// Tallies of tables and of a project: small cases, and the whole way from rows to a tallied list, in which no call asks anything of its caller.
#![tactic(auto)]

use layers::projects::Project;
use relation::kinds::Kind;
use relation::refusals::Refusal;
use relation::rows::Row;
use source::tables::Table;
use tallies::rules::Tally;
use tally::calls::tally;
use tree::Node;

// Tallies plain rows of some kinds.
pub fn tally_rows(
    rows: &[Row],
    kinds: &[Kind],
    what: Tally,
    by: &[usize],
    work: &mut [Row],
    index: &mut [Node],
) -> Result<usize, Refusal> {
    let table = Table::open(rows, kinds)?;
    tally(&table, what, by, work, index)
}

// Counts what some columns of plain rows hold.
pub fn count_projected(
    rows: &[Row],
    kinds: &[Kind],
    columns: &[usize],
    work: &mut [Row],
    index: &mut [Node],
) -> Result<usize, Refusal> {
    let project = Project::new(Table::open(rows, kinds)?, columns)?;
    tally(&project, Tally::Count, &[], work, index)
}

#[cfg(test)]
mod tests {
    use super::*;
    use relation::refusals::Reason;
    use std::process::Abort;
    use std::test::Fail;

    // The words a and b.
    const A: i64 = 97 << 56;

    const B: i64 = 98 << 56;

    fn row(first: u32, end: u32, a: i64, b: i64) -> Row {
        wide(first, end, a, b, 0)
    }

    fn wide(first: u32, end: u32, a: i64, b: i64, c: i64) -> Row {
        Row {
            first,
            end,
            values: [a, b, c, 0, 0, 0],
        }
    }

    // A row that no call writes.
    fn mark() -> Row {
        row(3, 5, 77, 88)
    }

    fn all_blank(rt: &impl Abort, rows: &[Row], index: &[Node]) -> Result<(), Fail> {
        assert!(rt; rows.iter().all(|row| *row == Row::blank()));
        assert!(rt; index.iter().all(|node| *node == Node::blank()));
        Ok(())
    }

    // Checks that the tally of the rows is the list `want`, and that all else is blank.
    fn gives(
        rt: &impl Abort,
        rows: &[Row],
        kinds: &[Kind],
        what: Tally,
        by: &[usize],
        want: &[Row],
    ) -> Result<(), Fail> {
        let mut work = [mark(); 12];
        let mut index = [Node::blank(); 12];
        let count = tally_rows(rows, kinds, what, by, &mut work, &mut index)?;
        assert_eq!(rt; count, want.len());
        for (got, want) in work.iter().zip(want) {
            assert_eq!(rt; got, want);
        }
        assert!(rt; count <= 12);
        all_blank(rt, &work[count..12], &index)
    }

    fn refused_by(
        rt: &impl Abort,
        rows: &[Row],
        kinds: &[Kind],
        what: Tally,
        by: &[usize],
        reason: Reason,
    ) -> Result<(), Fail> {
        let mut work = [mark(); 5];
        let mut index = [Node::blank(); 12];
        match tally_rows(rows, kinds, what, by, &mut work, &mut index) {
            Ok(_) => Err(Fail::new("not refused")),
            Err(refusal) => {
                assert_eq!(rt; refusal.reason, reason);
                for row in &work {
                    assert_eq!(rt; row, &mark());
                }
                Ok(())
            }
        }
    }

    #[test]
    fn counts_and_sums_each_day(rt: HostRuntime) -> Result<(), Fail> {
        let rows = [row(0, 4, 1, 0), row(2, 6, 2, 0)];
        let one = &[Kind::Number];
        gives(
            &rt,
            &rows,
            one,
            Tally::Count,
            &[],
            &[row(0, 2, 1, 0), row(4, 6, 1, 0), row(2, 4, 2, 0)],
        )?;
        gives(
            &rt,
            &rows,
            one,
            Tally::Sum(1),
            &[],
            &[row(0, 2, 1, 0), row(4, 6, 2, 0), row(2, 4, 3, 0)],
        )?;
        gives(
            &rt,
            &rows,
            one,
            Tally::Min(1),
            &[],
            &[row(0, 4, 1, 0), row(4, 6, 2, 0)],
        )?;
        gives(
            &rt,
            &rows,
            one,
            Tally::Max(1),
            &[],
            &[row(0, 2, 1, 0), row(2, 6, 2, 0)],
        )?;
        gives(&rt, &[], one, Tally::Count, &[], &[])
    }

    #[test]
    fn counts_tuples_and_not_rows(rt: HostRuntime) -> Result<(), Fail> {
        let one = &[Kind::Number];
        gives(
            &rt,
            &[row(0, 4, 7, 0), row(2, 6, 7, 0)],
            one,
            Tally::Count,
            &[],
            &[row(0, 6, 1, 0)],
        )?;
        gives(
            &rt,
            &[row(0, 4, 7, 0), row(2, 6, 7, 0)],
            one,
            Tally::Sum(1),
            &[],
            &[row(0, 6, 7, 0)],
        )?;
        let mut work = [mark(); 12];
        let mut index = [Node::blank(); 12];
        let rows = [row(0, 4, 1, 10), row(2, 6, 1, 20)];
        let both = &[Kind::Number, Kind::Number];
        let count = count_projected(&rows, both, &[1], &mut work, &mut index)?;
        assert_eq!(rt; count, 1);
        assert_eq!(rt; work[0], row(0, 6, 1, 0));
        Ok(())
    }

    #[test]
    fn keeps_groups_apart(rt: HostRuntime) -> Result<(), Fail> {
        let rows = [row(0, 4, B, 5), row(1, 3, A, 2), row(2, 6, B, -3)];
        let both = &[Kind::Word, Kind::Number];
        gives(
            &rt,
            &rows,
            both,
            Tally::Sum(2),
            &[1],
            &[
                row(1, 3, A, 2),
                row(4, 6, B, -3),
                row(2, 4, B, 2),
                row(0, 2, B, 5),
            ],
        )?;
        gives(
            &rt,
            &rows,
            both,
            Tally::Count,
            &[1, 1],
            &[
                wide(1, 3, A, A, 1),
                wide(0, 2, B, B, 1),
                wide(4, 6, B, B, 1),
                wide(2, 4, B, B, 2),
            ],
        )?;
        gives(
            &rt,
            &rows,
            both,
            Tally::Min(1),
            &[],
            &[row(1, 3, A, 0), row(0, 1, B, 0), row(3, 6, B, 0)],
        )?;
        gives(&rt, &rows, both, Tally::Max(1), &[], &[row(0, 6, B, 0)])
    }

    #[test]
    fn holds_sums_to_the_bounds(rt: HostRuntime) -> Result<(), Fail> {
        let one = &[Kind::Number];
        let large = row(0, 4, 1_000_000_000_000, 0);
        gives(
            &rt,
            &[large, row(0, 4, -1, 0)],
            one,
            Tally::Sum(1),
            &[],
            &[row(0, 4, 999_999_999_999, 0)],
        )?;
        let mut work = [mark(); 12];
        let mut index = [Node::blank(); 12];
        match tally_rows(
            &[large, row(3, 5, 1, 0)],
            one,
            Tally::Sum(1),
            &[],
            &mut work,
            &mut index,
        ) {
            Ok(_) => Err(Fail::new("not refused")),
            Err(refusal) => {
                assert_eq!(rt; refusal.reason, Reason::SumOutside);
                all_blank(&rt, &work, &index)
            }
        }
    }

    #[test]
    fn says_why_it_refuses(rt: HostRuntime) -> Result<(), Fail> {
        let rows = [row(0, 4, A, 1), row(2, 6, B, 2)];
        let both = &[Kind::Word, Kind::Number];
        refused_by(&rt, &rows, both, Tally::Sum(1), &[], Reason::Misfit)?;
        refused_by(&rt, &rows, both, Tally::Max(3), &[], Reason::Misfit)?;
        refused_by(&rt, &rows, both, Tally::Count, &[0], Reason::Misfit)?;
        refused_by(&rt, &rows, both, Tally::Count, &[3], Reason::Misfit)?;
        refused_by(
            &rt,
            &rows,
            both,
            Tally::Count,
            &[1, 2, 1, 2, 1, 2],
            Reason::Misfit,
        )?;
        refused_by(
            &rt,
            &rows,
            both,
            Tally::Count,
            &[1, 2, 1, 2, 1],
            Reason::ShortWork,
        )
    }
}
