//! What is asked of a book.
use super::rules::SimRule;

/// What is asked: a rule, a place, and the index of a job or of a round.
#[derive(Clone, Copy)]
pub struct SimAsk {
    pub rule: SimRule,
    pub place: u32,
    pub index: u32,
}
