//! Kinds of weight that can be printed.
ghost use Rattle.std.specs.Prelude.{◌≡◌, ℕ, List, ◌++◌, OnOk};

use std::alloc::AllocError;
use theory::Weight;

/// A kind whose elements can be printed.
pub trait Printable: Weight {
    /// The number of an element: 0 at nought alone.
    ghost size: { Self → ℕ };

    /// The text of an element.
    ghost text: { Self → List ℕ };

    /// The number of the element.
    fn size(self) -> u64
        ensures { result ≡ size self };

    /// Writes the text of the element after what is written.
    fn write(self, out: &mut Vec<u8>) -> Result<(), AllocError>
        ensures { OnOk result (out.new.items ≡ out.old.items ++ text self) };

    ghost nought_sized: { size Self.Weight.ops.nought ≡ 0 };

    ghost nought_alone: { (x : Self) → size x ≡ 0 → x ≡ Self.Weight.ops.nought };
}
