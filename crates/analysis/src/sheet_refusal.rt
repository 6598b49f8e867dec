ghost use Rattle.std.specs.Prelude.{◌≡◌};
ghost use Rattle.analysis.specs.Refusals.{sheet_number};

/// Why an operation on a sheet was refused; the sheet is left as it was.
#[derive(Clone, Copy, Debug, PartialEq, Eq)]
pub enum SheetRefusal {
    /// The sheet has fewer than 257 cells.
    Short = 10,
}

impl SheetRefusal {
    // Stays: `u8::from` would be no plainer, as the body is one cast and the name `number` says what the u8 is.
    /// The number of the reason.
    pub fn number(self) -> u8
        ensures { result ≡ sheet_number self }
    {
        self as u8
    }
}
