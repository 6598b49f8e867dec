//! One line of a script after another.
ghost use Rattle.std.specs.Prelude.{◌≡◌, ◌++◌, IfOk};
ghost use Rattle.board.specs.Model.{new_book};
ghost use Rattle.script.specs.States.{Drafted, state_of};
ghost use Rattle.script.specs.Replies.{reply, after, line_reply, line_after};

use crate::drafts::on_draft;
use crate::plans::on_plan;
use crate::scripts::ScriptBook;
use answers::Answer;
use book::Draft;
use lines::{Call, Line};
use std::alloc::AllocError;

impl ScriptBook {
    /// The book that a script begins with: a new draft.
    pub fn new() -> ScriptBook
        ensures { state_of result ≡ Drafted new_book }
    {
        ScriptBook::Draft(Draft::new())
    }

    /// Makes a call and writes its answer, with a chart of each response where one is wanted.
    pub fn call(self, call: &Call, chart: bool, out: &mut Vec<u8>) -> Result<ScriptBook, AllocError>
        ensures { IfOk result (λ b. (state_of b ≡ after (state_of self) call.now) × (out.new.items ≡ out.old.items ++ reply chart (state_of self) call.now)) }
    {
        match self {
            ScriptBook::Draft(draft) => on_draft(draft, call, out),
            ScriptBook::Plan(plan) => on_plan(plan, call, chart, out),
        }
    }

    /// Does what the line with a number says, and writes its answer.
    pub fn line(
        self,
        line: &Line,
        number: u64,
        chart: bool,
        out: &mut Vec<u8>,
    ) -> Result<ScriptBook, AllocError>
        ensures { IfOk result (λ b. (state_of b ≡ line_after (state_of self) line.now) × (out.new.items ≡ out.old.items ++ line_reply chart number (state_of self) line.now)) }
    {
        match line {
            Line::Passed => Ok(self),
            Line::Call(call) => self.call(call, chart, out),
            Line::Unreadable => {
                Answer::Unreadable(number).write(out)?;
                Ok(self)
            }
        }
    }
}
