// Tests of the register.
#![tactic(auto)]

#[cfg(test)]
mod tests {
    use register::registers::Register;
    use relation::kinds::Kind;
    use relation::refusals::Refusal;
    use relation::rows::Row;
    use std::process::Abort;
    use std::test::Fail;
    use tree::Node;

    const NUMBER: [Kind; 1] = [Kind::Number];

    fn row(first: u32, end: u32, value: i64) -> Row {
        Row {
            first,
            end,
            values: [value, 0, 0, 0, 0, 0],
        }
    }

    // The number of the refusal, and 0 where there is none: the rules give a refusal by its number.
    fn refused(r: Result<usize, Refusal>) -> u32 {
        r.err().map_or(0, |refusal| refusal.reason.number())
    }

    // Publishes a relation of numbers with these rows; the work area has room for as many as `room` says, four at the most.
    fn load(reg: &mut Register, name: &[u8], rows: &[Row], room: usize) -> Result<usize, Refusal> {
        let mut work = [Row::blank(); 4];
        let mut index = [Node::blank(); 4];
        let end = room.min(4);
        let slip = reg.draft(name, &NUMBER)?;
        for row in rows {
            if let Err(refusal) = reg.put(&slip, *row, &NUMBER) {
                let _ = reg.abandon(slip);
                return Err(refusal);
            }
        }
        match reg.publish(slip, &mut work[0..end], &mut index[0..end]) {
            Ok(kept) => Ok(kept),
            Err((refusal, slip)) => {
                let _ = reg.abandon(slip);
                Err(refusal)
            }
        }
    }

    // What is shown after a load.
    fn shows(rt: &impl Abort, rows: &[Row], text: &[u8]) {
        let mut lent = [row(1, 2, 3); 4];
        let mut output = [b'#'; 50];
        let mut reg = Register::new(7, &mut lent);
        assert_eq!(rt; refused(load(&mut reg, b"a", rows, 4)), 0);
        let shown = reg.show(b"a", &mut output);
        assert_eq!(rt; refused(shown), 0);
        assert!(rt; text.len() < 50);
        assert!(rt; &output[0..text.len()] == text);
        assert_eq!(rt; output[text.len()], b'#');
    }

    #[test]
    fn periods_that_meet_become_one(rt: HostRuntime) {
        shows(&rt, &[row(5, 9, 7), row(0, 5, 7)], b"a n 1\n0 9 7\n");
    }

    #[test]
    fn a_gap_stays(rt: HostRuntime) {
        shows(&rt, &[row(6, 9, 7), row(0, 5, 7)], b"a n 2\n0 5 7\n6 9 7\n");
    }

    #[test]
    fn an_outer_period_takes_the_others_in(rt: HostRuntime) {
        shows(
            &rt,
            &[row(0, 9, 7), row(1, 2, 7), row(8, 12, 7), row(3, 4, -1)],
            b"a n 2\n3 4 -1\n0 12 7\n",
        );
    }

    #[test]
    fn a_load_says_why_not(rt: HostRuntime) {
        let mut lent = [row(1, 2, 3); 2];
        let mut reg = Register::new(7, &mut lent);
        let three = [row(0, 5, 1), row(0, 5, 2), row(0, 5, 3)];
        let mut unused = row(0, 5, 1);
        unused.values[1] = 1;
        assert_eq!(rt; refused(load(&mut reg, b"base", &[], 4)), 3);
        assert_eq!(rt; refused(load(&mut reg, b"a", &[row(5, 5, 1)], 4)), 5);
        assert_eq!(rt; refused(load(&mut reg, b"a", &[row(5, 1000001, 1)], 4)), 5);
        assert_eq!(rt;
            refused(load(&mut reg, b"a", &[row(0, 5, 1000000000001)], 4)),
            6
        );
        assert_eq!(rt; refused(load(&mut reg, b"a", &[unused], 4)), 11);
        assert_eq!(rt; refused(load(&mut reg, b"a", &three, 4)), 9);
        assert_eq!(rt; refused(load(&mut reg, b"a", &three[0..2], 1)), 8);
        assert_eq!(rt; refused(load(&mut reg, b"a", &three[0..2], 2)), 0);
        assert_eq!(rt; refused(load(&mut reg, b"a", &[], 4)), 3);
        assert_eq!(rt; refused(load(&mut reg, b"b", &three[0..1], 4)), 9);
        assert_eq!(rt; refused(reg.drop(b"b")), 3);
        assert_eq!(rt; refused(reg.drop(b"a")), 0);
        assert_eq!(rt; refused(load(&mut reg, b"b", &three[0..2], 2)), 0);
    }

    #[test]
    fn a_slip_fits_one_register(rt: HostRuntime) -> Result<(), Fail> {
        let mut lent = [row(1, 2, 3); 2];
        let mut others = [row(1, 2, 3); 2];
        let mut output = [0; 50];
        let mut reg = Register::new(7, &mut lent);
        let mut other = Register::new(8, &mut others);
        let slip = reg.draft(b"a", &NUMBER)?;
        let there = other.put(&slip, row(0, 5, 1), &NUMBER);
        let here = reg.put(&slip, row(0, 5, 1), &NUMBER);
        let misfit = reg.put(&slip, row(0, 5, 1), &[Kind::Word]);
        let shown = reg.show(b"a", &mut output);
        let dropped = reg.drop(b"a");
        let left = reg.abandon(slip);
        assert_eq!(rt; refused(there), 14);
        assert_eq!(rt; refused(here), 0);
        assert_eq!(rt; refused(misfit), 4);
        assert_eq!(rt; refused(shown), 3);
        assert_eq!(rt; refused(dropped), 3);
        assert_eq!(rt; refused(left), 0);
        Ok(())
    }

    #[test]
    fn show_needs_room(rt: HostRuntime) {
        let mut lent = [row(1, 2, 3); 2];
        let mut output = [0; 6];
        let mut reg = Register::new(7, &mut lent);
        assert_eq!(rt; refused(load(&mut reg, b"ab", &[], 4)), 0);
        assert_eq!(rt; refused(reg.show(b"ab", &mut output)), 12);
        assert_eq!(rt; output[0], 0);
        assert_eq!(rt; refused(reg.drop(b"ab")), 0);
        assert_eq!(rt; refused(load(&mut reg, b"a", &[], 4)), 0);
        assert_eq!(rt; refused(reg.show(b"a", &mut output)), 0);
        assert!(rt; &output == b"a n 0\n");
    }
}
