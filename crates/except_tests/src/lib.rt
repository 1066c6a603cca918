// Excepts over tables: small cases, and the whole way from rows to the rows of an except, in which no call asks anything of its caller.
#![tactic(auto)]

use except::excepts::Except;
use relation::kinds::Kind;
use relation::refusals::Refusal;
use relation::rows::Row;
use source::filled::Filled;
use source::tables::Table;

// Writes the rows of the left table except the right one, in the order of the places, as far as there is room.
// Answers how many were written.
pub fn write_except(
    left: &[Row],
    right: &[Row],
    left_kinds: &[Kind],
    right_kinds: &[Kind],
    out: &mut [Row],
) -> Result<usize, Refusal> {
    let source = Except::new(
        Table::open(left, left_kinds)?,
        Table::open(right, right_kinds)?,
    )?;
    let room = out.len();
    for (slot, row) in out.iter_mut().zip(Filled::new(&source)) {
        *slot = row;
    }
    Ok(Filled::new(&source).take(room).count())
}

#[cfg(test)]
mod tests {
    use super::*;
    use relation::refusals::Reason;
    use std::process::Abort;
    use std::test::Fail;

    fn row(first: u32, end: u32, value: i64) -> Row {
        Row {
            first,
            end,
            values: [value, 0, 0, 0, 0, 0],
        }
    }

    // Checks that the left rows except the right ones are the rows `want`, one column of numbers each.
    fn leaves(rt: &impl Abort, left: &[Row], right: &[Row], want: &[Row]) -> Result<(), Fail> {
        let mut out = [Row::blank(); 8];
        let count = write_except(left, right, &[Kind::Number], &[Kind::Number], &mut out)?;
        assert_eq!(rt; count, want.len());
        for (got, want) in out.iter().zip(want) {
            assert_eq!(rt; got, want);
        }
        Ok(())
    }

    #[test]
    fn cuts_what_is_blocked(rt: HostRuntime) -> Result<(), Fail> {
        let left = [row(0, 10, 7)];
        leaves(
            &rt,
            &left,
            &[row(3, 5, 7), row(4, 6, 7)],
            &[row(0, 3, 7), row(6, 10, 7)],
        )?;
        leaves(&rt, &left, &left, &[])?;
        leaves(&rt, &left, &[row(3, 5, 8)], &left)?;
        leaves(
            &rt,
            &left,
            &[row(2, 5, 7), row(3, 5, 7)],
            &[row(0, 2, 7), row(5, 10, 7)],
        )?;
        leaves(
            &rt,
            &left,
            &[row(6, 8, 7), row(0, 1, 7), row(3, 4, 7)],
            &[row(8, 10, 7), row(1, 3, 7), row(4, 6, 7)],
        )?;
        leaves(
            &rt,
            &left,
            &[row(0, 2, 7), row(10, 12, 7)],
            &[row(2, 10, 7)],
        )
    }

    #[test]
    fn wants_equal_kinds(rt: HostRuntime) -> Result<(), Fail> {
        let mut out = [Row::blank(); 1];
        match write_except(&[], &[], &[Kind::Number], &[Kind::Word], &mut out) {
            Ok(_) => Err(Fail::new("made of different kinds")),
            Err(refusal) => {
                assert_eq!(rt; refusal.reason, Reason::Misfit);
                Ok(())
            },
        }
    }
}
