//! The parts of a chart's line: a label and a bar.
ghost use Rattle.std.specs.Prelude.{◌≡◌, ◌++◌, replicate, OnOk};
ghost use Rattle.answers.specs.Charts.{padded, bar_length, bar};

use itoa::Buffer;
use std::alloc::AllocError;
use texts::write_text;

/// Writes a byte several times.
fn write_repeated(byte: u8, count: u128, out: &mut Vec<u8>) -> Result<(), AllocError>
    ensures { OnOk result (out.new.items ≡ out.old.items ++ replicate count byte) }
{
    // Stays: no plainer otherwise: a length is a u128, as a size may be above the largest one, and `resize` and `repeat_n` take a usize.
    for _ in 0..count {
        out.push(byte)?;
    }
    Ok(())
}

/// Writes a time, with blanks before it to a width of four.
pub(crate) fn write_padded(time: usize, out: &mut Vec<u8>) -> Result<(), AllocError>
    ensures { OnOk result (out.new.items ≡ out.old.items ++ padded time) }
{
    let mut buffer = Buffer::new();
    let digits = buffer.format(time as u64).as_bytes();
    write_repeated(b' ', 4usize.saturating_sub(digits.len()) as u128, out)?;
    write_text(digits, out)
}

/// The length of a bar: 50 times the size over the largest size, rounded up; 0 where the largest is 0.
#[tactic(auto, using(crate::proofs::Barred::up_is_ceil, crate::proofs::Barred::up_by_nought))]
fn bar_length(size: u64, most: u64) -> u128
    ensures { result ≡ bar_length most size }
{
    if most == 0 {
        return 0;
    }
    (50 * size as u128).div_ceil(most as u128)
}

/// Writes the bar of a size, and ends the line.
pub(crate) fn write_bar(size: u64, most: u64, out: &mut Vec<u8>) -> Result<(), AllocError>
    ensures { OnOk result (out.new.items ≡ out.old.items ++ bar most size) }
{
    write_text(b" |", out)?;
    write_repeated(b'#', bar_length(size, most), out)?;
    write_text(b"\n", out)
}
