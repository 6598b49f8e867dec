//! Texts and numbers, written after what is written.
ghost use Rattle.std.specs.Prelude.{◌≡◌, ◌++◌, decimal, OnOk};
ghost use Rattle.texts.specs.Texts.{field, ending};

use itoa::Buffer;
use std::alloc::AllocError;

/// Writes a text after what is written.
pub fn write_text(text: &[u8], out: &mut Vec<u8>) -> Result<(), AllocError>
    ensures { OnOk result (out.new.items ≡ out.old.items ++ text.now) }
{
    out.extend_from_slice(text)
}

/// Writes a number in decimal, without leading noughts.
pub fn write_number(n: u64, out: &mut Vec<u8>) -> Result<(), AllocError>
    ensures { OnOk result (out.new.items ≡ out.old.items ++ decimal n) }
{
    let mut digits = Buffer::new();
    write_text(digits.format(n).as_bytes(), out)
}

/// Writes a label and a number.
pub fn write_field(label: &[u8], n: u64, out: &mut Vec<u8>) -> Result<(), AllocError>
    ensures { OnOk result (out.new.items ≡ out.old.items ++ field label.now n) }
{
    write_text(label, out)?;
    write_number(n, out)
}

/// Writes a label and the number that ends a line.
pub fn write_ending(label: &[u8], n: u64, out: &mut Vec<u8>) -> Result<(), AllocError>
    ensures { OnOk result (out.new.items ≡ out.old.items ++ ending label.now n) }
{
    write_field(label, n, out)?;
    write_text(b"\n", out)
}
