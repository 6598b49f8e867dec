//! Runs of calls on two books, of which the second has worse tables: no answer of the second may be better.
use crate::asks::{Ask, exact, rounded, task};
use crate::books::{Look, draw_look, draw_step};
use crate::edits::{Edit, Entering, edit_draft};
use crate::generator::Generator;
use crate::questions::draw_ask;
use crate::tables::{Table, add_pair, empty_table};
use crate::tally::{KINDS, Tallies, Tally};
use book::{Draft, Plan, Refusal, TaskLateness, TimeTable};
use simulator::SimKind;

/// How a table is made worse.
#[derive(Clone, Copy)]
enum Way {
    /// Times are longer. The totals in every kind stay.
    Longer,
    /// Weight moves to later pairs. The total in counts stays.
    Heavier,
}

/// Two drafts, of which the second has worse tables.
#[derive(Drop)]
pub struct Drafts {
    first: Draft,
    second: Draft,
}

/// The plans of two drafts.
#[derive(Drop)]
pub struct Plans {
    first: Plan,
    second: Plan,
}

/// The last time of the table, where it has a pair.
fn last_time(table: &Table) -> Option<u8> {
    table.as_slice().last().map(|pair| pair.time)
}

/// The table with longer times.
fn longer(g: &mut Generator, table: &Table) -> Table {
    let room = last_time(table).map_or(0, |last| u8::MAX - last);
    let mut by: u8 = 0;
    let mut later = empty_table();
    for pair in table.as_slice() {
        by = by.saturating_add(g.below(4) as u8).min(room);
        add_pair(&mut later, pair.time.saturating_add(by), pair.weight);
    }
    later
}

/// The table with a part of each weight moved to the next pair.
fn heavier(g: &mut Generator, table: &Table) -> Table {
    let last = last_time(table);
    let mut moved: u16 = 0;
    let mut later = empty_table();
    for pair in table.as_slice() {
        let held = pair.weight.saturating_add(moved);
        moved = if last == Some(pair.time) {
            0
        } else {
            g.below(held as u32) as u16
        };
        add_pair(&mut later, pair.time, held.saturating_sub(moved));
    }
    later
}

// Stays: `Way` is drawn and compared too, so a closure in its place would need a name beside it: no plainer.
/// A worse table of equal total, or the same table where it is not lawful.
fn worse_table(g: &mut Generator, way: Way, table: &Table) -> Table {
    if TimeTable::new(table.as_slice()).is_none() {
        return *table;
    }
    match way {
        Way::Longer => longer(g, table),
        Way::Heavier => heavier(g, table),
    }
}

/// The edit with a worse table, if it has one.
fn worse_edit(g: &mut Generator, way: Way, edit: &Edit) -> Edit {
    match edit {
        Edit::Enter(task) => Edit::Enter(Entering {
            table: worse_table(g, way, &task.table),
            ..*task
        }),
        Edit::Opening(table) => Edit::Opening(worse_table(g, way, table)),
        Edit::Withdraw(_) | Edit::Rounds(_) => *edit,
    }
}

/// The lateness of one job.
fn one_job(late: u64) -> TaskLateness {
    TaskLateness { jobs: 1, late }
}

/// The late cell of the exact answer.
fn late_cell(plan: &Plan, kind: SimKind, ask: &Ask) -> Result<TaskLateness, Refusal> {
    Ok(one_job(exact(plan, kind, ask)?[256]))
}

/// The rounded late weight of a job.
fn late_job(plan: &Plan, ask: &Ask) -> Result<TaskLateness, Refusal> {
    Ok(one_job(rounded(plan, ask)?))
}

/// Counts two answers: of as many jobs the second weight is to be at least the first; or both are to be the same refusal.
fn count_two(
    tally: &mut Tally,
    first: Result<TaskLateness, Refusal>,
    second: Result<TaskLateness, Refusal>,
) {
    match (first, second) {
        (Ok(first), Ok(second)) => {
            tally.count(true, first.jobs == second.jobs && first.late <= second.late);
            tally.count_late(first.late < second.late);
        }
        _ => tally.count(false, first == second),
    }
}

impl Drafts {
    /// Two empty drafts.
    fn new() -> Drafts {
        Drafts {
            first: Draft::new(),
            second: Draft::new(),
        }
    }

    /// The plans of both.
    fn issue(self) -> Plans {
        let Drafts { first, second } = self;
        Plans {
            first: first.issue(),
            second: second.issue(),
        }
    }
}

impl Plans {
    /// The drafts of both, to be edited again.
    fn reopen(self) -> Drafts {
        let Plans { first, second } = self;
        Drafts {
            first: first.reopen(),
            second: second.reopen(),
        }
    }

    /// Asks both for the late weight of a job in a kind.
    fn ask_exact(&self, tally: &mut Tally, kind: SimKind, ask: &Ask) {
        let first = late_cell(&self.first, kind, ask);
        count_two(tally, first, late_cell(&self.second, kind, ask));
    }

    /// Asks both for the rounded late weight of a job.
    fn ask_rounded(&self, tally: &mut Tally, ask: &Ask) {
        let first = late_job(&self.first, ask);
        count_two(tally, first, late_job(&self.second, ask));
    }

    /// Asks both for the jobs of a round and their late weights.
    fn ask_task(&self, tally: &mut Tally, ask: &Ask) {
        let first = task(&self.first, ask);
        count_two(tally, first, task(&self.second, ask));
    }
}

impl Tallies {
    /// Makes drawn edits on the first draft, and worse ones on the second.
    fn edit_two(&mut self, g: &mut Generator, way: Way, look: &Look, drafts: &mut Drafts) {
        for step in 0..8u32 {
            let edit = draw_step(g, look, step);
            let first = edit_draft(&mut drafts.first, &edit);
            let second = edit_draft(&mut drafts.second, &worse_edit(g, way, &edit));
            self.edits.count(first.is_ok(), first == second);
        }
    }

    /// Asks drawn questions of both plans; the heaviest ones only where times are longer.
    fn ask_two(&mut self, g: &mut Generator, way: Way, plans: &Plans) {
        for _ in 0..2u32 {
            let ask = draw_ask(g, &plans.first, 5);
            for (tally, (kind, _)) in self.exact.iter_mut().zip(KINDS) {
                if !matches!((way, kind), (Way::Heavier, SimKind::Heaviest)) {
                    plans.ask_exact(tally, kind, &ask);
                }
            }
            plans.ask_rounded(&mut self.rounded, &ask);
            plans.ask_task(&mut self.task, &draw_ask(g, &plans.first, 3));
        }
    }

    /// Runs calls on two new books: edits, questions, edits again, questions again.
    fn run_two(&mut self, g: &mut Generator, way: Way) {
        let look = draw_look(g);
        let mut drafts = Drafts::new();
        self.edit_two(g, way, &look, &mut drafts);
        let plans = drafts.issue();
        self.ask_two(g, way, &plans);
        let mut drafts = plans.reopen();
        self.edit_two(g, way, &look, &mut drafts);
        self.ask_two(g, way, &drafts.issue());
    }

    /// Makes `runs` runs in each of the two ways.
    pub(crate) fn run_pairs(&mut self, g: &mut Generator, runs: u32) {
        for _ in 0..runs {
            self.run_two(g, Way::Longer);
            self.run_two(g, Way::Heavier);
        }
    }
}
