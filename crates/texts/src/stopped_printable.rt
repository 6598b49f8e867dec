//! How a count and a heaviest weight are printed.
ghost use Rattle.std.specs.Prelude.{decimal};
ghost use Rattle.kinds.specs.StoppedWeight.{same_stopped};
ghost use Rattle.std.proofs.Common.{refl};

use crate::printable::Printable;
use crate::writing::write_number;
use kinds::{Stopped, Summing};
use std::alloc::AllocError;

impl<S: Summing> Printable for Stopped<S> {
    ghost size = { λ x. x.value };

    ghost text = { λ x. decimal x.value };

    ghost nought_sized = { refl };

    ghost nought_alone = { λ x e. same_stopped _ _ e };

    fn size(self) -> u64 {
        self.value()
    }

    fn write(self, out: &mut Vec<u8>) -> Result<(), AllocError> {
        write_number(self.value(), out)
    }
}
