//! Calls on a draft.
ghost use Rattle.std.specs.Prelude.{◌≡◌, ◌++◌, IfOk, OnOk};
ghost use Rattle.book.specs.Drafts.{draft_book};
ghost use Rattle.book.specs.Refusals.{answer};
ghost use Rattle.script.specs.States.{state_of};
ghost use Rattle.script.specs.Replies.{done_text, draft_reply, draft_after};

use crate::scripts::ScriptBook;
use answers::{Answer, write_draft};
use book::{Draft, Refusal};
use lines::Call;
use std::alloc::AllocError;

/// Writes that an edit is done, or why it is refused.
fn write_done(edited: Result<(), Refusal>, out: &mut Vec<u8>) -> Result<(), AllocError>
    ensures { OnOk result (out.new.items ≡ out.old.items ++ done_text (answer edited)) }
{
    edited
        .map_or_else(Answer::Refused, |()| Answer::Done)
        .write(out)
}

/// Makes a call on a draft and writes its answer.
pub(crate) fn on_draft(
    mut draft: Draft,
    call: &Call,
    out: &mut Vec<u8>,
) -> Result<ScriptBook, AllocError>
    ensures { IfOk result (λ b. (state_of b ≡ draft_after (draft_book draft) call.now) × (out.new.items ≡ out.old.items ++ draft_reply (draft_book draft) call.now)) }
{
    match call {
        Call::Enter {
            place,
            period,
            phase,
            deadline,
            table,
        } => {
            let entered = draft.enter(*place, *period, *phase, *deadline, table.pairs());
            write_done(entered, out)?;
        }
        Call::Withdraw { place } => write_done(draft.withdraw(*place), out)?,
        Call::Opening { table } => write_done(draft.opening(table.pairs()), out)?,
        Call::Rounds { rounds } => write_done(draft.rounds(*rounds), out)?,
        Call::Issue => {
            Answer::Done.write(out)?;
            return Ok(ScriptBook::Plan(draft.issue()));
        }
        Call::Show => write_draft(&draft, out)?,
        Call::Reopen | Call::Response { .. } | Call::Rounded { .. } | Call::Task { .. } => {
            Answer::IssueFirst.write(out)?;
        }
    }
    Ok(ScriptBook::Draft(draft))
}
