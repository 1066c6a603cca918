// Where a byte stands.
ghost use Rattle.std.specs.Prelude.{◌≡◌, ◌==◌};
ghost use Rattle.std.specs.List.{position, position_or_len};

fn find(bytes: &[u8], wanted: u8) -> Option<usize>
    ensures { result ≡ position (λ b. b == wanted) bytes.now }
{
    bytes.iter().position(|b| *b == wanted)
}

// How many bytes stand before the first that is `end`: all, if none is.
pub(crate) fn length_before(bytes: &[u8], end: u8) -> usize
    ensures { result ≡ position_or_len (λ b. b == end) bytes.now }
{
    find(bytes, end).unwrap_or(bytes.len())
}
