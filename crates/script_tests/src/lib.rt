// Tests of the check of scripts.
#![tactic(auto)]

#[cfg(test)]
mod tests {
    use grammar::forms::read_line;
    use grammar::lines::{Line, Operand, Query};
    use relation::conditions::Term;
    use script::check::check;
    use script::script::CheckedScript;

    // The number of the refusal and its line, as ten times the line and the number, or 0.
    // Numbers, since the rules give a refusal by its number and the examples are taken from there.
    fn refusal(text: &[u8]) -> usize {
        let mut script = CheckedScript::new();
        match check(text, &mut script) {
            Ok(()) => 0,
            Err(refusal) => refusal
                .line
                .wrapping_mul(10)
                .wrapping_add(refusal.reason.number() as usize),
        }
    }

    #[test]
    fn forms(rt: HostRuntime) {
        assert_eq!(rt; refusal(b""), 0);
        assert_eq!(rt;
            refusal(
                b"load hire w\nrow 0 10 'v1'\nend\n# note\n\n  union bare = hire  cover during 0 -5",
            ),
            0
        );
        assert_eq!(rt; refusal(b"show a\nshow a b"), 22);
        assert_eq!(rt;
            refusal(
                b"select s = a where c1 = c2\nselect s = a where c1 >= 'x'\nselect s = a where c7 = 1",
            ),
            32
        );
        assert_eq!(rt; refusal(b"project p = a on c1\nproject p = a\n"), 22);
        assert_eq!(rt; refusal(b"except e = a b\nexcept e a b\n"), 22);
        assert_eq!(rt;
            refusal(b"join j = a during 1 2 b on c1 c2 c3 c4\njoin j = a b\njoin j = a b on c1"),
            32
        );
        assert_eq!(rt; refusal(b"count n = a by c1 c2\ncount n = a of c1\n"), 22);
        assert_eq!(rt;
            refusal(b"max n = a of c1 by c2\nmin n = a of c2\nsum n = a by c1"),
            32
        );
        assert_eq!(rt; refusal(b"drop c1\ndrop load\ndrop during\n"), 32);
        assert_eq!(rt; refusal(b"drop \xff"), 12);
    }

    #[test]
    fn loads(rt: HostRuntime) {
        assert_eq!(rt; refusal(b"drop a\nload hire w\nrow 0 10 'v1'\n"), 22);
        assert_eq!(rt; refusal(b"load hire w\nrow 0 10 'v1'\nnone\n"), 32);
        assert_eq!(rt; refusal(b"drop a\nrow 0 10 'v1'\n"), 22);
        assert_eq!(rt; refusal(b"end"), 12);
        assert_eq!(rt; refusal(b"load a n\nload b n\nend\n"), 22);
        assert_eq!(rt; refusal(b"load a nw\n# x\n\nrow 0 10 -0\nend\n"), 42);
        assert_eq!(rt;
            refusal(b"load a nw\nrow 0 10 1 2 3 4 5 6 7 'b-_Z9'\nend\ndrop a"),
            0
        );
    }

    #[test]
    fn held(rt: HostRuntime) {
        let mut script = CheckedScript::new();
        assert_eq!(rt; script.text().len(), 0);
        assert_eq!(rt; check(b"drop a\n", &mut script).is_ok(), true);
        assert_eq!(rt; check(b"drop\n", &mut script).is_ok(), false);
        assert_eq!(rt; script.text().len(), 7);
        assert_eq!(rt; script.text().len(), 7);
    }

    #[test]
    fn parts(rt: HostRuntime) {
        let n = match read_line(b"  load  hire  wn ") {
            Some(Line::Load(name, kinds)) => name
                .len()
                .wrapping_mul(10)
                .wrapping_add(kinds.as_slice().len()),
            _ => 0,
        };
        assert_eq!(rt; n, 42);
        let z = match read_line(b"select s = a during -1 2 where c3 < 'a'") {
            Some(Line::Query(_, Query::Select(Operand { during, .. }, condition))) => {
                match (during, condition.term) {
                    (Some((from, until)), Term::Word(word)) => {
                        word.wrapping_add(from).wrapping_add(until)
                    }
                    _ => 0,
                }
            }
            _ => 0,
        };
        assert_eq!(rt; z, 6989586621679009793);
    }
}
