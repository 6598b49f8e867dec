//! The shares of late jobs of a published example: three tasks with uniform running times.
use crate::asks::{Ask, task};
use crate::edits::{Edit, Entering, edit_draft};
use crate::rules::Rule;
use crate::tables::{Table, add_pair, empty_table};
use book::{Draft, Plan, Refusal, TaskLateness};
use std::{fmt, io};

/// The times from `low` up to but without `end`, each of weight 1.
fn uniform(low: u8, end: u8) -> Table {
    let mut table = empty_table();
    for time in low..end {
        add_pair(&mut table, time, 1);
    }
    table
}

/// The times 16 to 36 in sixteen pairs: the first ten times in couples, each at the longer time of the two.
fn merged() -> Table {
    let mut table = empty_table();
    for couple in 0..5u8 {
        add_pair(&mut table, 17 + 2 * couple, 2);
    }
    for time in 26..37u8 {
        add_pair(&mut table, time, 1);
    }
    table
}

/// The times 0, 7 and 14: with one of the times 16 to 22 they add up to each of 16 to 36.
fn sevens() -> Table {
    let mut table = empty_table();
    for step in 0..3u8 {
        add_pair(&mut table, 7 * step, 1);
    }
    table
}

/// Enters a task whose deadline is its period.
fn enter(draft: &mut Draft, place: u8, period: u8, table: Table) -> Result<(), Refusal> {
    let task = Entering {
        place,
        period: period.into(),
        phase: 0,
        deadline: period,
        table,
    };
    edit_draft(draft, &Edit::Enter(task))
}

/// A draft of eight rounds with the first two tasks.
fn first_tasks() -> Result<Draft, Refusal> {
    let mut draft = Draft::new();
    edit_draft(&mut draft, &Edit::Rounds(8))?;
    enter(&mut draft, 0, 20, uniform(4, 11))?;
    enter(&mut draft, 1, 60, uniform(12, 23))?;
    Ok(draft)
}

/// The plan with the third task at place 2, its times merged.
fn merged_plan() -> Result<Plan, Refusal> {
    let mut draft = first_tasks()?;
    enter(&mut draft, 2, 90, merged())?;
    Ok(draft.issue())
}

/// The plan with the third task in two parts, at places 2 and 3: the second part ends when the task does.
fn parted_plan() -> Result<Plan, Refusal> {
    let mut draft = first_tasks()?;
    enter(&mut draft, 2, 90, sevens())?;
    enter(&mut draft, 3, 90, uniform(16, 23))?;
    Ok(draft.issue())
}

/// A share in ten-thousandths, printed as a decimal number.
#[derive(Clone, Copy)]
struct Share(u64);

impl Share {
    /// The late share of the jobs, rounded up.
    fn of(lateness: &TaskLateness) -> Share {
        let whole = u64::from(lateness.jobs) * 1_048_576;
        if whole == 0 {
            return Share(0);
        }
        Share(lateness.late.saturating_mul(10_000).div_ceil(whole))
    }
}

impl fmt::Display for Share {
    fn fmt<W: fmt::Write>(&self, f: &mut fmt::Formatter<W>) -> fmt::Result {
        let whole = self.0 / 10_000;
        let rest = self.0 % 10_000;
        write!(f, "{whole}.{rest:04}")
    }
}

/// Prints the late share of a task's jobs in the seventh of eight rounds, beside the published one.
fn print_share(
    rt: &HostRuntime,
    plan: &Plan,
    rule: Rule,
    name: &str,
    place: u8,
    published: Share,
) -> io::Result<()> {
    let ask = Ask {
        rule,
        place,
        index: 6,
        short: false,
    };
    match task(plan, &ask) {
        Ok(lateness) => {
            let late = Share::of(&lateness);
            println!(rt; "{name}, place {place}: late {late}, published {published}")
        }
        Err(refusal) => {
            let number = refusal.number();
            println!(rt; "{name}, place {place}: refused with {number}")
        }
    }
}

/// Prints the shares of the three tasks under both rules; the third task ends at the place `last`.
fn print_plan(rt: &HostRuntime, plan: Result<Plan, Refusal>, last: u8) -> io::Result<()> {
    match plan {
        Ok(plan) => {
            print_share(rt, &plan, Rule::Period, "period rule", 0, Share(0))?;
            print_share(rt, &plan, Rule::Period, "period rule", 1, Share(0))?;
            print_share(rt, &plan, Rule::Period, "period rule", last, Share(3852))?;
            print_share(rt, &plan, Rule::Deadline, "deadline rule", 0, Share(224))?;
            print_share(rt, &plan, Rule::Deadline, "deadline rule", 1, Share(169))?;
            print_share(rt, &plan, Rule::Deadline, "deadline rule", last, Share(81))
        }
        Err(refusal) => {
            let number = refusal.number();
            println!(rt; "an edit was refused with {number}")
        }
    }
}

/// Prints the shares with the third task's times merged, and with the third task in two parts.
pub(crate) fn print_figures(rt: &HostRuntime) -> io::Result<()> {
    println!(rt; "late shares, the third task's 21 times merged into 16 pairs:")?;
    print_plan(rt, merged_plan(), 2)?;
    println!(rt; "late shares, the third task in two parts at places 2 and 3:")?;
    print_plan(rt, parted_plan(), 3)
}
