//! The numbers of a line.
ghost use Rattle.std.specs.Prelude.{◌≡◌, ◌-◌, true, false, MatchOption};
ghost use Rattle.lines.specs.Numbers.{digit as is_digit, byte, word, long, whole};

use crate::fields::FromField;

/// The value of a digit.
fn digit(byte: u8) -> Option<u64>
    ensures { MatchOption result (is_digit byte ≡ false) (λ d. (is_digit byte ≡ true) × (d ≡ byte - 48)) }
{
    match byte {
        b'0'..=b'9' => Some(u64::from(byte - b'0')),
        _ => None,
    }
}

impl FromField for u64 {
    ghost reads = { whole };

    fn from_field(field: &[u8]) -> Option<u64> {
        if field.is_empty() {
            return None;
        }
        let mut value: u64 = 0;
        for byte in field {
            value = value.checked_mul(10)?.checked_add(digit(*byte)?)?;
        }
        Some(value)
    }
}

// Stays: one impl over `TryFrom<u64>` for the three would be no plainer: it overlaps with those of kinds and rules, and knows no limit for `reads`.
impl FromField for u32 {
    ghost reads = { long };

    #[tactic(auto, using(crate::proofs::Numbered::smaller, crate::proofs::Numbered::no_smaller))]
    fn from_field(field: &[u8]) -> Option<u32> {
        let number = u64::from_field(field)?;
        u32::try_from(number).ok()
    }
}

impl FromField for u16 {
    ghost reads = { word };

    #[tactic(auto, using(crate::proofs::Numbered::smaller, crate::proofs::Numbered::no_smaller))]
    fn from_field(field: &[u8]) -> Option<u16> {
        let number = u64::from_field(field)?;
        u16::try_from(number).ok()
    }
}

impl FromField for u8 {
    ghost reads = { byte };

    #[tactic(auto, using(crate::proofs::Numbered::smaller, crate::proofs::Numbered::no_smaller))]
    fn from_field(field: &[u8]) -> Option<u8> {
        let number = u64::from_field(field)?;
        u8::try_from(number).ok()
    }
}
