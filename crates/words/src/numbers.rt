// The numbers of a text: 1 to 13 digits, a minus sign perhaps before.
ghost use Rattle.std.specs.Prelude.{◌≡◌, ◌^◌, ◌<◌, IfSome, Some};
ghost use Rattle.words.specs.Number.{natural, minus, number};

// The number that 1 to 13 digits write, the first of several not 0.
// By hand: `parse` takes a plus sign and zeros in front, which write no number here.
fn digits(ds: &[u8]) -> Option<u64>
    ensures value { result ≡ natural ds.now }
    ensures bound { IfSome result (λ n. n < 10 ^ 13) }
{
    if ds.is_empty() || ds.len() > 13 {
        return None;
    }
    if ds.len() > 1 && ds[0] == b'0' {
        return None;
    }
    let mut n: u64 = 0;
    for d in ds {
        if !d.is_ascii_digit() {
            return None;
        }
        n = n * 10 + (*d - b'0') as u64;
    }
    Some(n)
}

// The number below 0 that digits after a minus sign write.
fn negative(n: u64) -> Option<i64>
    requires { n < 10 ^ 13 }
    ensures { result ≡ minus (Some n) }
{
    if n == 0 { None } else { Some(-(n as i64)) }
}

// The number that a word writes.
pub fn signed(text: &[u8]) -> Option<i64>
    ensures { result ≡ number text.now }
{
    let [first, rest @ ..] = text else {
        return None;
    };
    match *first as char {
        '-' => negative(digits(rest)?),
        _ => Some(digits(text)? as i64),
    }
}
