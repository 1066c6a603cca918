// Tests of lists as text.
#![tactic(auto)]

#[cfg(test)]
mod tests {
    use listing::list::write_list;
    use relation::kinds::Kind;
    use relation::refusals::{Reason, Refusal};
    use relation::rows::Row;
    use relation::values::word_value;
    use std::process::Abort;

    const FILLER: u8 = b'#';

    fn row(first: u32, end: u32, one: i64, two: i64) -> Row {
        Row {
            first,
            end,
            values: [one, two, 0, 0, 0, 0],
        }
    }

    // The number of the value that a word is held as.
    fn held(word: &[u8]) -> i64 {
        word_value(word).unwrap_or(0)
    }

    // The text is written whole, and the output behind it is as it was.
    fn gives(rt: &impl Abort, name: &[u8], kinds: &[Kind], rows: &[Row], text: &[u8]) {
        let mut output = [FILLER; 100];
        assert!(rt; text.len() <= 100);
        assert_eq!(rt; write_list(name, kinds, rows, &mut output), Ok(text.len()));
        assert!(rt; &output[0..text.len()] == text);
        for b in &output[text.len()..100] {
            assert_eq!(rt; *b, FILLER);
        }
    }

    #[test]
    fn bare(rt: HostRuntime) {
        let word = &[Kind::Word];
        gives(
            &rt,
            b"bare",
            word,
            &[row(6, 10, held(b"v1"), 0)],
            b"bare w 1\n6 10 'v1'\n",
        );
    }

    #[test]
    fn no_rows(rt: HostRuntime) {
        gives(&rt, b"a", &[Kind::Number, Kind::Word], &[], b"a nw 0\n");
    }

    #[test]
    fn rows_in_the_order_given(rt: HostRuntime) {
        let both = &[Kind::Word, Kind::Number];
        let rows = [
            row(10, 20, held(b"b_2"), -7),
            row(0, 1000000, held(b"a"), 0),
        ];
        gives(
            &rt,
            b"hires",
            both,
            &rows,
            b"hires wn 2\n10 20 'b_2' -7\n0 1000000 'a' 0\n",
        );
    }

    #[test]
    fn numbers(rt: HostRuntime) {
        let two = &[Kind::Number; 2];
        gives(
            &rt,
            b"n",
            two,
            &[row(0, 1, -1000000000000, 1000000000000)],
            b"n nn 1\n0 1 -1000000000000 1000000000000\n",
        );
        gives(
            &rt,
            b"n",
            two,
            &[row(0, 1, i64::MIN, i64::MAX)],
            b"n nn 1\n0 1 -9223372036854775808 9223372036854775807\n",
        );
        gives(
            &rt,
            b"n",
            two,
            &[row(99, 100, -10, 10)],
            b"n nn 1\n99 100 -10 10\n",
        );
    }

    #[test]
    fn no_word(rt: HostRuntime) {
        gives(
            &rt,
            b"w",
            &[Kind::Word],
            &[row(0, 1, 5, 0)],
            b"w w 1\n0 1 ''\n",
        );
    }

    #[test]
    fn six_columns(rt: HostRuntime) {
        let all = Row {
            first: 1,
            end: 2,
            values: [1, 2, 3, 4, 5, 6],
        };
        gives(
            &rt,
            b"six",
            &[Kind::Number; 6],
            &[all],
            b"six nnnnnn 1\n1 2 1 2 3 4 5 6\n",
        );
    }

    #[test]
    fn fits_exactly_or_not_at_all(rt: HostRuntime) {
        let word = &[Kind::Word];
        let rows = [row(6, 10, held(b"v1"), 0)];
        let mut exact = [FILLER; 19];
        assert_eq!(rt; write_list(b"bare", word, &rows, &mut exact), Ok(19));
        assert!(rt; &exact == b"bare w 1\n6 10 'v1'\n");
        let mut short = [FILLER; 18];
        let refused = Err(Refusal::plain(Reason::ShortOutput));
        assert_eq!(rt; write_list(b"bare", word, &rows, &mut short), refused);
        assert_eq!(rt; Reason::ShortOutput.number(), 12);
        for b in &short {
            assert_eq!(rt; *b, FILLER);
        }
        let mut none: [u8; 0] = [];
        assert_eq!(rt; write_list(b"bare", word, &rows, &mut none), refused);
    }
}
