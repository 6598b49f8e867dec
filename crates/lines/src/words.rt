//! The words of a field: compared, and cut at a mark.
ghost use Rattle.std.specs.Prelude.{◌≡◌, Some, None, MatchOption};
ghost use Rattle.std.specs.Str.{bytes_eq};
ghost use Rattle.lines.specs.Readings.{cut as cut_at};

/// Whether a field is a word.
pub(crate) fn is(field: &[u8], word: &[u8]) -> bool
    ensures { result ≡ bytes_eq field.now word.now }
{
    field == word
}

/// The bytes before the first one of a mark, and those after it.
pub(crate) fn cut(bytes: &[u8], mark: u8) -> Option<(&[u8], &[u8])>
    ensures { MatchOption result (cut_at mark bytes.now ≡ None) (λ c. cut_at mark bytes.now ≡ Some (c.0.now, c.1.now)) }
{
    let at = bytes.iter().position(|b| *b == mark)?;
    Some((&bytes[..at], &bytes[at + 1..]))
}
