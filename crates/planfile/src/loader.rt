//! Loading a plan file: a whole new draft, or none.
ghost use Rattle.std.specs.Prelude.{◌≡◌, ◌<◌, length, take, None, MatchResult, slice_index_or};
ghost use Rattle.book.specs.Refusals.{number};
ghost use Rattle.book.specs.Drafts.{draft_book};
ghost use Rattle.planfile.specs.Faults.{outcome, fault_in};
ghost use Rattle.planfile.specs.Contents.{blank};
ghost use Rattle.planfile.specs.Bodies.{wrong_in, refusal_offset, bodies_entered};
ghost use Rattle.planfile.specs.Loads.{loaded, fault_of, book_or};

use crate::bodies::{Bodies, Body};
use crate::contents::Contents;
use crate::faults::{Fault, FileFault};
use crate::fields::Fields;
use book::{Draft, Refusal};

impl Bodies<'_> {
    /// Where a refusal of body `i` is told, when no body before it has a wrong pair: at the body; for a table at the first wrong pair, or
    /// at the number of pairs where that is not 1 to 16 or no pair is wrong.
    fn refused_at(&self, i: usize, refusal: Refusal) -> Result<usize, Fault>
        requires listed { i < length self.now.entries.now }
        requires right { wrong_in self.now.fields.file.now (take i self.now.entries.now) ≡ None }
        ensures { MatchResult result (λ at. at ≡ refusal_offset self.now.fields.file.now (slice_index_or self.now.entries.now i blank) (number refusal)) (λ _. ⊥) }
    {
        let start = self.entries[i].start as usize;
        let Refusal::Table = refusal else {
            return Ok(start);
        };
        let named = self.fields.byte(start + 5)?;
        if named == 0 || named > 16 {
            return Ok(start + 5);
        }
        let wrong = self.first_wrong_pair(i + 1)?;
        Ok(wrong.unwrap_or(start + 5))
    }

    /// Enters each body in its order.
    fn enter(&self, draft: &mut Draft) -> Result<(), Fault>
        ensures { outcome result (draft_book draft.new) ≡ bodies_entered self.now.fields.file.now (draft_book draft.old) self.now.entries.now }
    {
        for (i, entry) in self.entries.iter().enumerate() {
            let body = Body::read(&self.fields, entry.start as usize)?;
            let table = body.table.as_slice();
            if let Err(refusal) = draft.enter(
                entry.place,
                body.period,
                body.phase,
                body.deadline,
                table,
            ) {
                let offset = self.refused_at(i, refusal)?;
                return Err(Fault::from(refusal).at(offset));
            }
        }
        Ok(())
    }
}

/// Makes a whole new draft of the file's tasks, or leaves the old one.
pub fn load(draft: &mut Draft, file: &[u8]) -> Result<(), Fault>
    ensures answers { fault_in result ≡ fault_of (loaded file.now) }
    ensures leaves { draft_book draft.new ≡ book_or (loaded file.now) (draft_book draft.old) }
{
    let contents = Contents::read(file)?;
    // Each body lies in the file, so that this fault never comes.
    let missing = Fault::file(FileFault::Entry, 0);
    let bodies = Bodies {
        fields: Fields { file, missing },
        entries: contents.entries.as_slice(),
    };
    let mut next = Draft::new();
    bodies.enter(&mut next)?;
    if contents.end < file.len() {
        return Err(Fault::file(FileFault::Trailing, contents.end));
    }
    *draft = next;
    Ok(())
}
