//! The answers that have one line.
ghost use Rattle.std.specs.Prelude.{◌≡◌, ◌++◌, Some, OnOk};
ghost use Rattle.answers.specs.Answers.{task_text, answer_text};

use book::{Refusal, TaskLateness};
use std::alloc::AllocError;
use std::fmt;
use texts::{write_ending, write_field, write_text};

/// What a call answers, where the answer has one line. It prints that line with its end.
#[derive(Clone, Copy, Debug, PartialEq, Eq)]
pub enum Answer {
    /// The call is done.
    Done,
    /// The call is refused.
    Refused(Refusal),
    /// The rounded late weight of a job.
    Late(u64),
    /// The jobs of a task in a round, and the sum of their rounded late weights.
    Task(TaskLateness),
    /// The call needs a plan.
    IssueFirst,
    /// The call needs a draft.
    ReopenFirst,
    /// The line with this number cannot be read.
    Unreadable(u64),
}

/// Writes the jobs of a task and their late weight.
fn write_task(task: &TaskLateness, out: &mut Vec<u8>) -> Result<(), AllocError>
    ensures { OnOk result (out.new.items ≡ out.old.items ++ task_text task.now) }
{
    write_field(b"jobs ", task.jobs as u64, out)?;
    write_ending(b" late ", task.late, out)
}

impl fmt::Display for Answer {
    ghost output = { λ answer. Some (answer_text answer) };

    fn fmt<W: fmt::Write>(&self, f: &mut fmt::Formatter<W>) -> fmt::Result {
        match self {
            Answer::Done => writeln!(f, "ok"),
            Answer::Refused(refusal) => writeln!(f, "refused {}", refusal.number()),
            Answer::Late(weight) => writeln!(f, "late {weight}"),
            Answer::Task(task) => writeln!(f, "jobs {} late {}", task.jobs, task.late),
            Answer::IssueFirst => writeln!(f, "not now: issue it first"),
            Answer::ReopenFirst => writeln!(f, "not now: reopen it first"),
            Answer::Unreadable(line) => writeln!(f, "unreadable: {line}"),
        }
    }
}

impl Answer {
    /// Writes the line of the answer after what is written.
    pub fn write(&self, out: &mut Vec<u8>) -> Result<(), AllocError>
        ensures { OnOk result (out.new.items ≡ out.old.items ++ answer_text self.now) }
    {
        match self {
            Answer::Done => write_text(b"ok\n", out),
            Answer::Refused(refusal) => write_ending(b"refused ", refusal.number() as u64, out),
            Answer::Late(weight) => write_ending(b"late ", *weight, out),
            Answer::Task(task) => write_task(task, out),
            Answer::IssueFirst => write_text(b"not now: issue it first\n", out),
            Answer::ReopenFirst => write_text(b"not now: reopen it first\n", out),
            Answer::Unreadable(line) => write_ending(b"unreadable: ", *line, out),
        }
    }
}
