//! How a time table is made and read.
ghost use Rattle.std.specs.Prelude.{◌≡◌, true, false, MatchOption};
ghost use Rattle.board.specs.Pairs.{lawful, no_work};
ghost use Rattle.board.specs.Tables.{table_pairs};

use crate::tables::TimeTable;
use analysis::Pair;

/// Whether the pairs make a time table.
fn is_lawful(pairs: &[Pair]) -> bool
    ensures { result ≡ lawful pairs.now }
{
    if pairs.len() == 0 || pairs.len() > 16 {
        return false;
    }
    let mut low: u16 = 0;
    let mut sum: u32 = 0;
    for p in pairs {
        if (p.time as u16) < low || p.weight == 0 {
            return false;
        }
        low = p.time as u16 + 1;
        sum += p.weight as u32;
    }
    sum <= 65535
}

impl TimeTable {
    /// The table of the pairs, where they make one.
    pub fn new(pairs: &[Pair]) -> Option<TimeTable>
        ensures { MatchOption result (lawful pairs.now ≡ false) (λ t. (lawful pairs.now ≡ true) × (table_pairs t ≡ pairs.now)) }
    {
        if !is_lawful(pairs) {
            return None;
        }
        let mut held = [Pair { time: 0, weight: 0 }; 16];
        held[..pairs.len()].copy_from_slice(pairs);
        Some(TimeTable {
            held,
            len: pairs.len() as u8,
        })
    }

    /// The table of no work: time 0 with weight 1.
    pub fn no_work() -> TimeTable
        ensures { table_pairs result ≡ no_work }
    {
        TimeTable {
            held: [Pair { time: 0, weight: 1 }; 16],
            len: 1,
        }
    }

    /// The pairs of the table.
    pub fn pairs(&self) -> &[Pair]
        ensures { result.now ≡ table_pairs self.now }
    {
        &self.held[0..self.len as usize]
    }
}
