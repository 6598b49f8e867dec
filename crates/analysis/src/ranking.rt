ghost use Rattle.std.specs.Prelude.{◌≡◌, ℕ};
ghost use Rattle.analysis.specs.Ranks.{table_rank, deadline_rank};

/// A rule that ranks a job by its place, its period, its deadline and its release. The lower rank goes ahead.
pub trait Ranking {
    /// The rank by place, period, deadline and release.
    ghost ranks: { Self → ℕ → ℕ → ℕ → ℕ → ℕ };

    // Stays: a struct of the four would be packed by each caller to be unpacked by each rule, which reads one or two of them: no plainer.
    fn rank(&self, place: u8, period: u16, deadline: u8, release: u64) -> u64
        ensures { result ≡ ranks self.now place period deadline release };
}

/// The rank stands in a table, by place; a place above 15 counts as 15.
#[derive(Clone, Copy, Debug, PartialEq, Eq)]
pub struct TableRule {
    pub ranks: [u64; 16],
}

impl Ranking for TableRule {
    ghost ranks = { λ s place _ _ _. table_rank s.ranks place };

    fn rank(&self, place: u8, _period: u16, _deadline: u8, _release: u64) -> u64 {
        self.ranks[place.min(15) as usize]
    }
}

/// The shorter period goes ahead.
#[derive(Clone, Copy, Debug, PartialEq, Eq)]
pub struct PeriodRule;

impl Ranking for PeriodRule {
    ghost ranks = { λ _ _ period _ _. period };

    fn rank(&self, _place: u8, period: u16, _deadline: u8, _release: u64) -> u64 {
        period as u64
    }
}

/// The earlier deadline goes ahead.
#[derive(Clone, Copy, Debug, PartialEq, Eq)]
pub struct DeadlineRule;

impl Ranking for DeadlineRule {
    ghost ranks = { λ _ _ _ deadline release. deadline_rank deadline release };

    fn rank(&self, _place: u8, _period: u16, deadline: u8, release: u64) -> u64 {
        release.saturating_add(deadline as u64)
    }
}
