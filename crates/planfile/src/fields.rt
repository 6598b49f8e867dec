//! The fields of a plan file.
ghost use Rattle.std.specs.Prelude.{◌≡◌, ◌+◌, ◌<◌, ◌≤◌, length, MatchResult};
ghost use Rattle.planfile.specs.Fields.{byte, word, pair};

use crate::faults::Fault;
use analysis::Pair;

/// The fields of a file, and the fault that is given for a file that ends before one of them.
#[derive(Clone, Copy)]
pub(crate) struct Fields<'a> {
    pub(crate) file: &'a [u8],
    pub(crate) missing: Fault,
}

impl Fields<'_> {
    /// The byte at an offset.
    pub(crate) fn byte(&self, at: usize) -> Result<u8, Fault>
        ensures { MatchResult result (λ b. (at < length self.now.file.now) × (b ≡ byte self.now.file.now at)) (λ e. (length self.now.file.now ≤ at) × (e ≡ self.now.missing)) }
    {
        self.file.get(at).copied().ok_or(self.missing)
    }

    /// The two bytes at an offset, the high one first.
    pub(crate) fn word(&self, at: usize) -> Result<u16, Fault>
        ensures { MatchResult result (λ w. (at + 1 < length self.now.file.now) × (w ≡ word self.now.file.now at)) (λ e. (length self.now.file.now ≤ at + 1) × (e ≡ self.now.missing)) }
    {
        let high = self.byte(at)?;
        let low = self.byte(at + 1)?;
        Ok(u16::from_be_bytes([high, low]))
    }

    /// The pair at an offset: a time, then its weight.
    pub(crate) fn pair(&self, at: usize) -> Result<Pair, Fault>
        ensures { MatchResult result (λ p. (at + 2 < length self.now.file.now) × (p ≡ pair self.now.file.now at)) (λ e. (length self.now.file.now ≤ at + 2) × (e ≡ self.now.missing)) }
    {
        let time = self.byte(at)?;
        let weight = self.word(at + 1)?;
        Ok(Pair { time, weight })
    }
}
