// Tests of the readers of words and of a list's lines.
#![tactic(auto)]

#[cfg(test)]
mod tests {
    use lists::header::read_header;
    use lists::is_blank;
    use lists::rows::read_row;
    use relation::kinds::Kind;
    use std::test::Fail;
    use words::lines::Lines;
    use words::numbers::signed;
    use words::reader::{Word, Words};

    // The number of the reason why a header is refused, or 0. The rules give a refusal by its number, and the examples here do.
    fn header(line: &[u8]) -> u32 {
        read_header(line).map_or_else(|reason| reason.number(), |_| 0)
    }

    const TWO: [Kind; 2] = [Kind::Number, Kind::Word];

    // One kind more than a relation may have.
    const SEVEN: [Kind; 7] = [
        Kind::Number,
        Kind::Word,
        Kind::Number,
        Kind::Number,
        Kind::Number,
        Kind::Number,
        Kind::Number,
    ];

    // The number of the reason why a row is refused, or 0.
    fn row(line: &[u8], kinds: &[Kind]) -> u32 {
        read_row(line, kinds).map_or_else(|reason| reason.number(), |_| 0)
    }

    fn place(word: Option<Word>) -> usize {
        word.map_or(99, |word| word.place)
    }

    fn size(line: Option<&[u8]>) -> usize {
        line.map_or(99, |line| line.len())
    }

    #[test]
    fn headers(rt: HostRuntime) {
        assert_eq!(rt; header(b"hire wn"), 0);
        assert_eq!(rt; header(b"  hire  nnnnnn "), 0);
        assert_eq!(rt; header(b"hire"), 2);
        assert_eq!(rt; header(b"hire w n"), 2);
        assert_eq!(rt; header(b"hire x"), 2);
        assert_eq!(rt; header(b"during x"), 2);
        assert_eq!(rt; header(b"during w"), 3);
        assert_eq!(rt; header(b"1hire w"), 3);
        assert_eq!(rt; header(b"hire wwwwwww"), 4);
    }

    #[test]
    fn rows(rt: HostRuntime) {
        assert_eq!(rt; row(b"0 10 7 'v1'", &TWO), 0);
        assert_eq!(rt; row(b"0 10", &TWO), 2);
        assert_eq!(rt; row(b"0 10 07 'v1'", &TWO), 2);
        assert_eq!(rt; row(b"0 10 -0 'v1'", &TWO), 2);
        assert_eq!(rt; row(b"0 10 12345678901234 'v1'", &TWO), 2);
        assert_eq!(rt; row(b"0 10 7 'v1", &TWO), 2);
        assert_eq!(rt; row(b"0 10 7", &TWO), 4);
        assert_eq!(rt; row(b"0 10 7 7", &TWO), 4);
        assert_eq!(rt; row(b"9 9 7 7 7 7 7 7 7", &SEVEN), 4);
        assert_eq!(rt; row(b"9 9 9999999999999 'v1'", &TWO), 5);
        assert_eq!(rt; row(b"0 1000001 7 'v1'", &TWO), 5);
        assert_eq!(rt; row(b"0 1000000 1000000000000 'v1'", &TWO), 0);
        assert_eq!(rt; row(b"0 1000000 -1000000000001 'v1'", &TWO), 6);
    }

    #[test]
    fn held(rt: HostRuntime) -> Result<(), Fail> {
        let row = read_row(b"999999 1000000 'a'", &[Kind::Word]).map_err(|_| Fail::new("refused"))?;
        assert_eq!(rt; row.first, 999999);
        assert_eq!(rt; row.end, 1000000);
        assert_eq!(rt; row.values[0], 6989586621679009792);
        assert_eq!(rt; row.values[5], 0);
        Ok(())
    }

    #[test]
    fn words(rt: HostRuntime) {
        assert_eq!(rt; signed(b"-9999999999999"), Some(-9999999999999));
        assert_eq!(rt; signed(b"\xff"), None);
        assert_eq!(rt; is_blank(b"   "), true);
        assert_eq!(rt; is_blank(b" #x 1 2"), true);
        assert_eq!(rt; is_blank(b" x#"), false);
        let mut left = Words::new(b"  bc d ");
        assert_eq!(rt; place(left.next()), 2);
        assert_eq!(rt; place(left.next()), 5);
        assert_eq!(rt; place(left.next()), 99);
        let mut lines = Lines::new(b"a\n\n  bc d");
        assert_eq!(rt; size(lines.next()), 1);
        assert_eq!(rt; size(lines.next()), 0);
        assert_eq!(rt; size(lines.next()), 6);
        assert_eq!(rt; size(lines.next()), 99);
    }
}
