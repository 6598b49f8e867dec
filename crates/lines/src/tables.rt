//! The pairs of a table, as a line gives them.
ghost use Rattle.std.specs.Prelude.{◌≡◌, []};
ghost use Rattle.std.specs.Option.{option_map};
ghost use Rattle.lines.specs.Fields.{left};
ghost use Rattle.lines.specs.Tables.{pair as pair_of, pairs as pairs_of, listed, kept, with_pair};

use crate::fields::{Fields, FromField};
use crate::words::cut;
use analysis::{Pair, ShortList};

/// The first seventeen pairs of a list; the places after them hold a pair of noughts.
#[derive(Clone, Copy)]
pub struct PairList {
    held: ShortList<Pair, 17>,
}

impl PairList {
    /// An empty list.
    fn new() -> PairList
        ensures { result ≡ kept [] }
    {
        PairList {
            held: ShortList::new(Pair { time: 0, weight: 0 }),
        }
    }

    /// Adds a pair, unless seventeen are held.
    fn push(&mut self, pair: Pair)
        ensures { self.new ≡ with_pair self.old pair }
    {
        let _ = self.held.push(pair);
    }

    /// The pairs that are held.
    pub fn pairs(&self) -> &[Pair]
        ensures { result.now ≡ listed self.now }
    {
        self.held.as_slice()
    }
}

impl FromField for Pair {
    ghost reads = { pair_of };

    fn from_field(field: &[u8]) -> Option<Pair> {
        let (time, weight) = cut(field, b':')?;
        let time = u8::from_field(time)?;
        let weight = u16::from_field(weight)?;
        Some(Pair { time, weight })
    }
}

/// Reads all the fields as pairs.
pub(crate) fn pairs(fields: Fields) -> Option<PairList>
    ensures { result ≡ option_map kept (pairs_of (left fields.entry)) }
{
    let mut list = PairList::new();
    for field in fields {
        list.push(Pair::from_field(field)?);
    }
    Some(list)
}
