//! The fields of a line.
ghost use Rattle.std.specs.Prelude.{◌≡◌, ℕ, List, Option};
ghost use Rattle.std.specs.Iterator.{YieldsFirstRef, item_count};
ghost use Rattle.lines.specs.Fields.{blank, left, fields as fields_of};
ghost use Rattle.lines.specs.Readings.{Takes};

/// A value that a field may stand for.
pub(crate) trait FromField: Sized {
    // The value of a field, where it stands for one.
    ghost reads: { List ℕ → Option Self };

    /// Reads a field.
    fn from_field(field: &[u8]) -> Option<Self>
        ensures { result ≡ reads field.now };
}

/// Whether a byte is a blank.
fn is_blank(byte: u8) -> bool
    ensures { result ≡ blank byte }
{
    matches!(byte, b' ' | b'\t' | b'\r')
}

/// The fields of a line that are still to be read.
#[derive(Drop)]
pub(crate) struct Fields<'a> {
    rest: &'a [u8],
}

impl<'a> Fields<'a> {
    /// All the fields of a line.
    pub(crate) fn of(line: &'a [u8]) -> Fields<'a>
        ensures { left result ≡ fields_of line.now }
    {
        Fields { rest: line }
    }

    /// Takes the next field, and reads it.
    pub(crate) fn read<T: FromField>(&mut self) -> Option<T>
        ensures { Takes T.reads (left self.old) result (left self.new) }
    {
        T::from_field(self.next()?)
    }
}

impl<'a> Iterator for Fields<'a> {
    type Item = &'a [u8];

    ghost next_gives = { YieldsFirstRef left };

    ghost remaining = { item_count left };

    fn next(&mut self) -> Option<&'a [u8]> {
        let blanks = self.rest.iter().position(|b| !is_blank(*b))?;
        let line = &self.rest[blanks..];
        let width = line.iter().position(|b| is_blank(*b)).unwrap_or(line.len());
        let (field, rest) = line.split_at(width);
        self.rest = rest;
        Some(field)
    }
}
