//! The rule that a line names, as a ranking rule.
ghost use Rattle.lines.specs.Ranks.{rule_rank};

use crate::rules::Rule;
use analysis::{DeadlineRule, PeriodRule, Ranking};

impl Ranking for Rule {
    ghost ranks = { rule_rank };

    fn rank(&self, place: u8, period: u16, deadline: u8, release: u64) -> u64 {
        match self {
            Rule::Period => PeriodRule.rank(place, period, deadline, release),
            Rule::Deadline => DeadlineRule.rank(place, period, deadline, release),
            Rule::Table(table) => table.rank(place, period, deadline, release),
        }
    }
}
