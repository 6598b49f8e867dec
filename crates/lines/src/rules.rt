//! The kinds and the rules that a line names.
ghost use Rattle.std.specs.Prelude.{◌≡◌, Some, None, MatchOption};
ghost use Rattle.lines.specs.Rules.{kind as kind_of, rule as rule_of, table as table_of, ranks as ranks_of};

use crate::fields::FromField;
use crate::words::cut;
use analysis::{ShortList, TableRule};

/// Which weights a response is asked in.
#[derive(Clone, Copy, Debug, PartialEq, Eq)]
pub enum Kind {
    /// Counts: weights are summed.
    Counts,
    /// Whether a response is possible.
    Possible,
    /// The heaviest of the weights.
    Heaviest,
}

/// By which rule jobs are ranked.
#[derive(Clone, Copy)]
pub enum Rule {
    /// The shorter period goes ahead.
    Period,
    /// The earlier deadline goes ahead.
    Deadline,
    /// The rank stands in a table, by place.
    Table(TableRule),
}

impl FromField for Kind {
    ghost reads = { kind_of };

    fn from_field(field: &[u8]) -> Option<Kind> {
        match field {
            b"counts" => Some(Kind::Counts),
            b"possible" => Some(Kind::Possible),
            b"heaviest" => Some(Kind::Heaviest),
            _ => None,
        }
    }
}

/// Reads sixteen ranks, with a comma between two.
fn read_ranks(list: &[u8]) -> Option<TableRule>
    ensures { MatchOption result (ranks_of 15 list.now ≡ None) (λ t. ranks_of 15 list.now ≡ Some t.ranks) }
{
    let mut ranks = ShortList::<u64, 16>::new(0);
    for piece in list.split(|b| *b == b',') {
        let rank = u64::from_field(piece)?;
        ranks.push(rank).ok()?;
    }
    let ranks = <[u64; 16]>::try_from(ranks.as_slice()).ok()?;
    Some(TableRule { ranks })
}

/// Reads `table:` and the ranks of a table.
fn read_table(field: &[u8]) -> Option<Rule>
    ensures { result ≡ table_of field.now }
{
    match cut(field, b':')? {
        (b"table", list) => Some(Rule::Table(read_ranks(list)?)),
        _ => None,
    }
}

impl FromField for Rule {
    ghost reads = { rule_of };

    fn from_field(field: &[u8]) -> Option<Rule> {
        match field {
            b"period" => Some(Rule::Period),
            b"deadline" => Some(Rule::Deadline),
            _ => read_table(field),
        }
    }
}
