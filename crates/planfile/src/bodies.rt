//! The bodies of a plan file: the task of each, read and entered into a draft.
ghost use Rattle.std.specs.Prelude.{◌≡◌, ◌+◌, ◌*◌, ◌<◌, ◌≤◌, [], length, take, true, if◌then◌else◌, MatchResult, nat_le};
ghost use Rattle.planfile.specs.Fields.{byte as field, word as wide};
ghost use Rattle.planfile.specs.Bodies.{pairs, wrong_in, within};

use crate::contents::Entry;
use crate::faults::Fault;
use crate::fields::Fields;
use analysis::{Pair, ShortList};

/// The body of a task. A table of more than 16 pairs is held as an empty one, which the book refuses alike.
#[derive(Clone, Copy)]
pub(crate) struct Body {
    pub(crate) period: u16,
    pub(crate) phase: u16,
    pub(crate) deadline: u8,
    pub(crate) table: ShortList<Pair, 16>,
}

/// The pairs from an offset on.
fn read_pairs(fields: &Fields, at: usize, count: usize) -> Result<ShortList<Pair, 16>, Fault>
    requires { (at ≤ length fields.now.file.now) × (count ≤ 16) }
    ensures { MatchResult result (λ ps. ps.items ≡ pairs fields.now.file.now at count) (λ e. (length fields.now.file.now < at + 3 * count) × (e ≡ fields.now.missing)) }
{
    let mut held = ShortList::new(Pair { time: 0, weight: 0 });
    // Stays: pair `i` is read at its offset by the reader that answers the fault: chunks would go past it, and offsets by `step_by` are no plainer.
    for i in 0..count {
        let pair = fields.pair(at + 3 * i)?;
        let Ok(()) = held.push(pair) else {
            unreachable!()
        };
    }
    Ok(held)
}

impl Body {
    /// The body at an offset.
    pub(crate) fn read(fields: &Fields, at: usize) -> Result<Body, Fault>
        ensures { let f = fields.now.file.now in MatchResult result (λ b. (b.period ≡ wide f at) × (b.phase ≡ wide f (at + 2)) × (b.deadline ≡ field f (at + 4)) × (b.table.items ≡ (if nat_le (field f (at + 5)) 16 then pairs f (at + 6) (field f (at + 5)) else []))) (λ e. (length f < at + 6 + 3 * field f (at + 5)) × (e ≡ fields.now.missing)) }
    {
        let period = fields.word(at)?;
        let phase = fields.word(at + 2)?;
        let deadline = fields.byte(at + 4)?;
        let named = fields.byte(at + 5)? as usize;
        // Stays: no plainer otherwise: the book refuses a table of more than 16 pairs as an empty one, so an Option would be a case that each use takes away.
        let count = if named <= 16 { named } else { 0 };
        let table = read_pairs(fields, at + 6, count)?;
        Ok(Body {
            period,
            phase,
            deadline,
            table,
        })
    }
}

/// The bodies of a plan file, each of which lies in it with its pairs.
#[derive(Clone, Copy)]
pub(crate) struct Bodies<'a> {
    pub(crate) fields: Fields<'a>,
    pub(crate) entries: &'a [Entry],
    ghost fits: { within fields.file.now entries.now ≡ true },
}

impl Bodies<'_> {
    /// Where the first wrong pair of the first `count` bodies stands: one with weight 0, or with a time not above the time of the pair
    /// before it.
    pub(crate) fn first_wrong_pair(&self, count: usize) -> Result<Option<usize>, Fault>
        requires { count ≤ length self.now.entries.now }
        ensures { MatchResult result (λ o. o ≡ wrong_in self.now.fields.file.now (take count self.now.entries.now)) (λ _. ⊥) }
    {
        let entries = &self.entries[..count];
        let mut found = None;
        'bodies: for entry in entries {
            let first = entry.start as usize + 6;
            let named = self.fields.byte(entry.start as usize + 5)? as usize;
            let mut low: u16 = 0;
            // Stays: pair `i` is read at its offset by the reader that answers the fault: chunks would go past it, and offsets by `step_by` are no plainer.
            for i in 0..named {
                let pair = self.fields.pair(first + 3 * i)?;
                if (pair.time as u16) < low || pair.weight == 0 {
                    found = Some(first + 3 * i);
                    break 'bodies;
                }
                low = pair.time as u16 + 1;
            }
        }
        Ok(found)
    }
}
