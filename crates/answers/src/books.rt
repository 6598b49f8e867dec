//! What is shown of a draft and of a plan.
ghost use Rattle.std.specs.Prelude.{◌≡◌, ◌++◌, OnOk};
ghost use Rattle.book.specs.Drafts.{draft_book, plan_book};
ghost use Rattle.answers.specs.Books.{places_text, book_text, draft_text, plan_text};

use crate::tasks::{write_place, write_table};
use book::{Draft, Plan};
use std::alloc::AllocError;
use texts::{write_field, write_text};

/// Writes the lines of the tasks of a draft, by rising place.
fn write_places(draft: &Draft, out: &mut Vec<u8>) -> Result<(), AllocError>
    ensures { OnOk result (out.new.items ≡ out.old.items ++ places_text (draft_book draft.now).places) }
{
    // Stays: no plainer otherwise: the loop runs over the places themselves, of which the draft is asked, and counts nothing beside.
    for place in 0..16 {
        write_place(place, draft.entry(place), out)?;
    }
    Ok(())
}

/// Writes a first line, and what a draft holds.
fn write_book(first: &[u8], draft: &Draft, out: &mut Vec<u8>) -> Result<(), AllocError>
    ensures { OnOk result (out.new.items ≡ out.old.items ++ book_text first.now (draft_book draft.now)) }
{
    let opening = draft.opening_table();
    write_text(first, out)?;
    write_field(b"rounds ", draft.round_count() as u64, out)?;
    write_table(b" opening", opening.pairs(), out)?;
    write_places(draft, out)?;
    Ok(())
}

/// Writes what a draft holds.
pub fn write_draft(draft: &Draft, out: &mut Vec<u8>) -> Result<(), AllocError>
    ensures { OnOk result (out.new.items ≡ out.old.items ++ draft_text (draft_book draft.now)) }
{
    write_book(b"draft\n", draft, out)?;
    Ok(())
}

/// Writes what a plan holds.
pub fn write_plan(plan: &Plan, out: &mut Vec<u8>) -> Result<(), AllocError>
    ensures { OnOk result (out.new.items ≡ out.old.items ++ plan_text (plan_book plan.now)) }
{
    write_book(b"plan\n", plan.draft(), out)?;
    Ok(())
}
