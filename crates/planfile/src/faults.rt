//! Why a plan file is not loaded.
ghost use Rattle.std.specs.Prelude.{◌≡◌};
ghost use Rattle.planfile.specs.declared.faults.Cause.TheVariants.{File, Book};
ghost use Rattle.planfile.specs.Faults.{told};

use book::Refusal;

/// What is wrong with the file itself; each fault has the number by which it is told.
#[derive(Clone, Copy, Debug, PartialEq, Eq)]
pub enum FileFault {
    /// There are more than 16 tasks, or the file is too short for its contents.
    Contents = 20,
    /// The place is above 15 or used before, or the body does not start where the one before it ended, or it passes the file's end.
    Entry = 21,
    /// The body's length is below 6, or is not 6 and 3 for each pair.
    Length = 22,
    /// There are bytes after the last body.
    Trailing = 23,
}

/// Who refuses: the file's layer, or the book's.
#[derive(Clone, Copy, Debug, PartialEq, Eq)]
pub enum Cause {
    File(FileFault),
    Book(Refusal),
}

/// Why a plan file is not loaded, and at which byte.
#[derive(Clone, Copy, Debug, PartialEq, Eq)]
pub struct Fault {
    cause: Cause,
    offset: usize,
}

impl Fault {
    /// A fault of the file itself.
    pub(crate) fn file(fault: FileFault, offset: usize) -> Fault
        ensures { result ≡ record { cause = File fault; offset = offset } }
    {
        Fault {
            cause: Cause::File(fault),
            offset,
        }
    }

    /// The same fault, told at an offset.
    pub(crate) fn at(self, offset: usize) -> Fault
        ensures { result ≡ record { cause = self.cause; offset = offset } }
    {
        Fault { offset, ..self }
    }

    // Stays: an enum would be no plainer here and in `number`: docs/PLANFILE.md fixes the numbers of the layers and of the faults, and the report prints them.
    /// The layer: 1 for the file, 2 for the book.
    pub fn layer(&self) -> u8
        ensures { result ≡ (told self.now).layer }
    {
        match self.cause {
            Cause::File(_) => 1,
            Cause::Book(_) => 2,
        }
    }

    /// The number of the fault within its layer.
    pub fn number(&self) -> u8
        ensures { result ≡ (told self.now).number }
    {
        match self.cause {
            Cause::File(fault) => fault as u8,
            Cause::Book(refusal) => refusal.number(),
        }
    }

    /// The byte at which the fault is told.
    pub fn offset(&self) -> usize
        ensures { result ≡ (told self.now).offset }
    {
        self.offset
    }
}

impl From<Refusal> for Fault {
    ghost from_gives = { λ refusal r. r ≡ record { cause = Book refusal; offset = 0 } };

    fn from(refusal: Refusal) -> Fault {
        Fault {
            cause: Cause::Book(refusal),
            offset: 0,
        }
    }
}
