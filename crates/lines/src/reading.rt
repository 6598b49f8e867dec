//! What a line of a console script means.
ghost use Rattle.std.specs.Prelude.{◌≡◌};
ghost use Rattle.lines.specs.Lines.{remark, meaning};

use crate::calls::{Call, read_call};
use crate::fields::Fields;

/// What a line means.
#[derive(Clone, Copy)]
pub enum Line {
    /// The line has no field, or is a remark.
    Passed,
    /// The line is a call.
    Call(Call),
    /// The line is neither.
    Unreadable,
}

/// Whether the first byte of a line is `#`.
fn is_remark(line: &[u8]) -> bool
    ensures { result ≡ remark line.now }
{
    matches!(line, [b'#', ..])
}

/// Reads a line, given without its line feed.
pub fn read_line(line: &[u8]) -> Line
    ensures { result ≡ meaning line.now }
{
    if is_remark(line) {
        return Line::Passed;
    }
    let mut fields = Fields::of(line);
    let Some(word) = fields.next() else {
        return Line::Passed;
    };
    match read_call(word, fields) {
        Some(call) => Line::Call(call),
        None => Line::Unreadable,
    }
}
