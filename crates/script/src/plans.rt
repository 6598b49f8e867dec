//! Calls on a plan.
ghost use Rattle.std.specs.Prelude.{◌≡◌, ◌*◌, ◌^◌, ◌<◌, ◌++◌, IfOk, OnOk};
ghost use Rattle.std.specs.Mem.{type_size};
ghost use Rattle.analysis.specs.Cells.{cells};
ghost use Rattle.book.specs.Asks.{rounded_answer, task_answer};
ghost use Rattle.answers.specs.Answers.{answer_text};
ghost use Rattle.book.specs.Drafts.{plan_book};
ghost use Rattle.lines.specs.Ranks.{rule_rank};
ghost use Rattle.script.specs.States.{state_of};
ghost use Rattle.script.specs.Questions.{drawn, job_text, kind_text, rounded_text, task_answer_text};
ghost use Rattle.script.specs.Replies.{plan_reply, plan_after};

use crate::scripts::ScriptBook;
use analysis::{Count, Heaviest, Possible, Weight};
use answers::{Answer, write_chart, write_plan, write_response};
use book::Plan;
use lines::{Call, Kind, Rule};
use std::alloc::AllocError;
use texts::Printable;

// Stays: `chart` and `out` are no struct, since `out` is the caller's and calls on a draft take it without `chart`: no plainer.
/// Writes the answer on a sheet, and its chart where one is wanted.
fn write_drawn<W: Printable>(sheet: &[W], chart: bool, out: &mut Vec<u8>) -> Result<(), AllocError>
    ensures { OnOk result (out.new.items ≡ out.old.items ++ drawn chart W.size W.text (cells W.ops sheet.now)) }
{
    write_response(sheet, out)?;
    if chart {
        write_chart(sheet, out)?;
    }
    Ok(())
}

/// What a line asks of a plan: the rule that ranks the jobs, a place, and the number of a job of its task or of a round.
#[derive(Clone, Copy)]
struct Question {
    rule: Rule,
    place: u8,
    number: u32,
}

impl Question {
    /// The question with these parts.
    fn new(rule: Rule, place: u8, number: u32) -> Question
        ensures { result ≡ record { rule = rule; place = place; number = number } }
    {
        Question {
            rule,
            place,
            number,
        }
    }
}

/// Asks for the exact answer of a job in a kind and writes it.
fn respond<W: Printable>(
    plan: &Plan,
    asked: Question,
    chart: bool,
    out: &mut Vec<u8>,
) -> Result<(), AllocError>
    requires { 257 * type_size W.row < 2 ^ 63 }
    ensures { OnOk result (out.new.items ≡ out.old.items ++ job_text chart W.ops W.size W.text (rule_rank asked.rule) (plan_book plan.now) asked.place asked.number) }
{
    let mut answer = [W::nought(); 257];
    let mut work = [W::nought(); 257];
    match plan.response(
        &asked.rule,
        asked.place,
        asked.number,
        &mut answer,
        &mut work,
    ) {
        Ok(()) => write_drawn(&answer, chart, out),
        Err(refusal) => Answer::Refused(refusal).write(out),
    }
}

/// Asks for the exact answer of a job in the kind that a line names, and writes it.
fn respond_in(
    kind: Kind,
    plan: &Plan,
    asked: Question,
    chart: bool,
    out: &mut Vec<u8>,
) -> Result<(), AllocError>
    ensures { OnOk result (out.new.items ≡ out.old.items ++ kind_text chart kind (rule_rank asked.rule) (plan_book plan.now) asked.place asked.number) }
{
    match kind {
        Kind::Counts => respond::<Count>(plan, asked, chart, out),
        Kind::Possible => respond::<Possible>(plan, asked, chart, out),
        Kind::Heaviest => respond::<Heaviest>(plan, asked, chart, out),
    }
}

// Stays: `rounded` and `task` differ in the question, which one function would take as a closure over two sheets and a rule: no plainer.
/// The answer to the question for the rounded late weight of a job.
fn rounded(plan: &Plan, asked: Question) -> Answer
    ensures { answer_text result ≡ rounded_text (rounded_answer (rule_rank asked.rule) (plan_book plan.now) asked.place asked.number 257 257) }
{
    let Question {
        rule,
        place,
        number,
    } = asked;
    let mut answer = [Count::new(0); 257];
    let mut work = [Count::new(0); 257];
    plan.rounded(&rule, place, number, &mut answer, &mut work)
        .map_or_else(Answer::Refused, Answer::Late)
}

/// The answer to the question for the jobs of a task in a round.
fn task(plan: &Plan, asked: Question) -> Answer
    ensures { answer_text result ≡ task_answer_text (task_answer (rule_rank asked.rule) (plan_book plan.now) asked.place asked.number 257 257) }
{
    let Question {
        rule,
        place,
        number,
    } = asked;
    let mut answer = [Count::new(0); 257];
    let mut work = [Count::new(0); 257];
    plan.task(&rule, place, number, &mut answer, &mut work)
        .map_or_else(Answer::Refused, Answer::Task)
}

/// Makes a call on a plan and writes its answer.
pub(crate) fn on_plan(
    plan: Plan,
    call: &Call,
    chart: bool,
    out: &mut Vec<u8>,
) -> Result<ScriptBook, AllocError>
    ensures { IfOk result (λ b. (state_of b ≡ plan_after (plan_book plan) call.now) × (out.new.items ≡ out.old.items ++ plan_reply chart (plan_book plan) call.now)) }
{
    match *call {
        Call::Enter { .. }
        | Call::Withdraw { .. }
        | Call::Opening { .. }
        | Call::Rounds { .. }
        | Call::Issue => {
            Answer::ReopenFirst.write(out)?;
        }
        Call::Reopen => {
            Answer::Done.write(out)?;
            return Ok(ScriptBook::Draft(plan.reopen()));
        }
        Call::Response {
            kind,
            rule,
            place,
            index,
        } => respond_in(kind, &plan, Question::new(rule, place, index), chart, out)?,
        Call::Rounded { rule, place, index } => {
            rounded(&plan, Question::new(rule, place, index)).write(out)?
        }
        Call::Task { rule, place, round } => {
            task(&plan, Question::new(rule, place, round)).write(out)?
        }
        Call::Show => write_plan(&plan, out)?,
    }
    Ok(ScriptBook::Plan(plan))
}
