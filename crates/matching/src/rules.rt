//! The ranking rules that questions are asked under.
ghost use Rattle.matching.specs.Ranks.{rule_rank};

use analysis::{DeadlineRule, PeriodRule, Ranking, TableRule};
use simulator::SimRule;

/// A ranking rule.
#[derive(Clone, Copy)]
pub enum Rule {
    /// The rank stands in a table, by place.
    Table(TableRule),
    /// The shorter period goes ahead.
    Period,
    /// The earlier deadline goes ahead.
    Deadline,
    /// The later release goes ahead.
    LaterFirst,
}

impl Ranking for Rule {
    ghost ranks = { rule_rank };

    fn rank(&self, place: u8, period: u16, deadline: u8, release: u64) -> u64 {
        match self {
            Rule::Table(table) => table.rank(place, period, deadline, release),
            Rule::Period => PeriodRule.rank(place, period, deadline, release),
            Rule::Deadline => DeadlineRule.rank(place, period, deadline, release),
            Rule::LaterFirst => u64::MAX - release,
        }
    }
}

impl From<Rule> for SimRule {
    fn from(rule: Rule) -> SimRule {
        match rule {
            Rule::Table(table) => SimRule::Table(table.ranks),
            Rule::Period => SimRule::Period,
            Rule::Deadline => SimRule::Deadline,
            Rule::LaterFirst => SimRule::LaterFirst,
        }
    }
}
