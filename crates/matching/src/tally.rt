//! How many questions of a group were asked, and what came of them.
use book::Refusal;
use simulator::SimKind;

/// The kinds of the exact answer, with the names of their groups.
pub(crate) const KINDS: [(SimKind, &str); 3] = [
    (SimKind::Counts, "response in counts"),
    (SimKind::Possible, "response in possible"),
    (SimKind::Heaviest, "response in heaviest"),
];

/// The questions of a group: asked, answered and not refused, of these the late ones, passed over as too large, and with
/// differing answers.
#[derive(Clone, Copy, Default)]
pub struct Tally {
    pub asked: u32,
    pub answered: u32,
    pub late: u32,
    pub skipped: u32,
    pub differ: u32,
}

/// The groups of edits and questions; those of the exact answer by kind, in the order of `KINDS`.
#[derive(Clone, Copy, Default)]
pub struct Tallies {
    pub edits: Tally,
    // Stays: one tally for each kind, in the order of `KINDS`; three by name would be counted and printed one by one, no plainer.
    pub exact: [Tally; 3],
    pub rounded: Tally,
    pub task: Tally,
}

impl Tally {
    /// Counts a question: whether it was answered, and whether all was as it should be.
    pub(crate) fn count(&mut self, answered: bool, right: bool) {
        self.asked = self.asked.saturating_add(1);
        self.answered = self.answered.saturating_add(answered.into());
        self.differ = self.differ.saturating_add((!right).into());
    }

    /// Counts an answer as late, if it is.
    pub(crate) fn count_late(&mut self, late: bool) {
        self.late = self.late.saturating_add(late.into());
    }

    /// Counts a question by its late weight or its refusal, and whether all was as it should be.
    pub(crate) fn count_answer(&mut self, late: Result<u64, Refusal>, right: bool) {
        self.count(late.is_ok(), right);
        self.count_late(late.is_ok_and(|late| late > 0));
    }

    /// Counts a question that was passed over.
    pub(crate) fn skip(&mut self) {
        self.skipped = self.skipped.saturating_add(1);
    }
}

impl Tallies {
    /// Counts a question that was passed over in each kind.
    pub(crate) fn skip_exact(&mut self) {
        for tally in self.exact.iter_mut() {
            tally.skip();
        }
    }
}

/// How often each refusal came, by its number.
#[derive(Clone, Copy, Default)]
pub struct Refusals {
    pub times: [u32; 14],
}

impl Refusals {
    /// Counts an answer, if it is a refusal.
    pub(crate) fn count<T: Drop>(&mut self, answer: Result<T, Refusal>) {
        if let Err(refusal) = answer {
            if let Some(times) = self.times.get_mut(usize::from(refusal.number())) {
                *times = times.saturating_add(1);
            }
        }
    }
}
