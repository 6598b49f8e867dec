//! Ranking rules, who goes ahead of whom, and the kinds of weights.
use super::jobs::Job;
use super::tables::SimTable;

/// A rule that ranks jobs: sixteen ranks by place, by period, by the tick of the deadline, or later releases first.
#[derive(Clone, Copy)]
pub enum SimRule {
    Table([u64; 16]),
    Period,
    Deadline,
    LaterFirst,
}

/// A kind of weights: how many, whether at all, or the heaviest.
#[derive(Clone, Copy)]
pub enum SimKind {
    Counts,
    Possible,
    Heaviest,
}

// What decides who goes ahead: the rank, then the release, then the place. The smaller one goes ahead.
#[derive(Clone, Copy, Default, PartialEq, Eq, PartialOrd, Ord)]
pub(crate) struct Priority {
    pub rank: u64,
    pub release: u64,
    pub place: u32,
}

impl SimRule {
    // The rank of the job.
    pub(crate) fn rank(&self, job: &Job) -> u64 {
        match self {
            SimRule::Table(ranks) => ranks.get(job.place as usize).copied().unwrap_or(0),
            SimRule::Period => u64::from(job.task.period),
            SimRule::Deadline => job.due(),
            SimRule::LaterFirst => u64::MAX - job.release,
        }
    }
}

impl SimKind {
    // The weight of a scenario in the kind, from the product of its weights.
    pub(crate) fn read(self, product: u128) -> u128 {
        match self {
            SimKind::Counts | SimKind::Heaviest => product,
            SimKind::Possible => 1,
        }
    }

    // The sum of two weights of the kind.
    pub(crate) fn sum(self, one: u128, other: u128) -> u128 {
        match self {
            SimKind::Counts => one.saturating_add(other),
            SimKind::Possible | SimKind::Heaviest => one.max(other),
        }
    }

    // The total of a table in the kind.
    pub(crate) fn total(self, table: &SimTable) -> u128 {
        match self {
            SimKind::Counts => u128::from(table.total()),
            SimKind::Possible => 1,
            SimKind::Heaviest => u128::from(table.largest()),
        }
    }
}
