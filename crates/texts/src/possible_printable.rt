//! How a possibility is printed.
ghost use Rattle.texts.specs.Texts.{possible_size, possible_alone, possible_text};
ghost use Rattle.std.proofs.Common.{refl};

use crate::printable::Printable;
use crate::writing::write_text;
use analysis::Possible;
use std::alloc::AllocError;

impl Printable for Possible {
    ghost size = { possible_size };

    ghost text = { possible_text };

    ghost nought_sized = { refl };

    ghost nought_alone = { λ x e. possible_alone x e };

    fn size(self) -> u64 {
        self as u64
    }

    // Stays: the new form is no plainer: a `Display` in `kinds` would match the same two cases, and be copied from here.
    fn write(self, out: &mut Vec<u8>) -> Result<(), AllocError> {
        match self {
            Possible::No => write_text(b"no", out),
            Possible::Yes => write_text(b"yes", out),
        }
    }
}
