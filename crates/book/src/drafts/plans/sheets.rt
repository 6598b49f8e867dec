//! The sheets that a question is given.
ghost use Rattle.std.specs.Prelude.{◌≡◌, ◌≤◌, false, length, MatchResult};
ghost use Rattle.book.specs.Asks.{long};
ghost use Rattle.book.specs.Refusals.{number};

use crate::refusals::Refusal;

/// Refuses two sheets unless both have 257 cells or more.
pub(super) fn check_sheets<W>(answer: &[W], work: &[W]) -> Result<(), Refusal>
    ensures { MatchResult result (λ _. (257 ≤ length answer.now) × (257 ≤ length work.now)) (λ e. (number e ≡ 10) × (long (length answer.now) (length work.now) ≡ false)) }
{
    if answer.len() < 257 || work.len() < 257 {
        return Err(Refusal::Sheet);
    }
    Ok(())
}
