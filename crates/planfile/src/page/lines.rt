//! Lines of a report.
ghost use Rattle.std.specs.Prelude.{◌≡◌, ◌≤◌, ◌++◌, length};
ghost use Rattle.planfile.specs.Pages.{text};
ghost use Rattle.planfile.specs.Reports.{field, line, refused_line};

use crate::page::Page;

impl Page {
    /// Writes a number, and the byte that ends it.
    fn field(&mut self, n: u64, end: u8)
        requires { length (text self.old) ≤ 480 }
        ensures { text self.new ≡ text self.old ++ field n end }
    {
        self.number(n);
        self.push(end);
    }

    /// Writes three numbers, one blank apart, and ends the line.
    pub(crate) fn line(&mut self, a: u64, b: u64, c: u64)
        requires { length (text self.old) ≤ 400 }
        ensures { text self.new ≡ text self.old ++ line a b c }
    {
        self.field(a, b' ');
        self.field(b, b' ');
        self.field(c, b'\n');
    }

    /// Writes a place and the number of a refusal, and ends the line.
    pub(crate) fn refused_line(&mut self, place: u64, number: u64)
        requires { length (text self.old) ≤ 400 }
        ensures { text self.new ≡ text self.old ++ refused_line place number }
    {
        self.field(place, b' ');
        self.write(b"refused ");
        self.field(number, b'\n');
    }
}
