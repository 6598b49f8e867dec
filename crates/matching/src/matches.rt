//! Generated books and questions, put to the book and to the simulator.
use crate::asks::{Ask, rounded};
use crate::books::{Look, draw_look, draw_step};
use crate::compare::is_close;
use crate::generator::Generator;
use crate::questions::draw_ask;
use crate::sides::{Asked, Drafted};
use crate::tally::{KINDS, Refusals, Tallies, Tally};
use simulator::{SimAsk, SimBook};

/// The most scenarios of a question that is put to the simulator.
const MOST_SCENARIOS: u64 = 3000;

/// The groups of the generated books, and how often each refusal came.
#[derive(Clone, Copy, Default)]
pub struct MatchTallies {
    pub groups: Tallies,
    pub close: Tally,
    pub refusals: Refusals,
}

/// The question with its index halved until the simulator can answer it, or `None` if no halving helps.
fn fitting(sim: &SimBook, ask: &Ask) -> Option<Ask> {
    let mut fitting = *ask;
    for _ in 0..6u32 {
        if sim.scenarios(&SimAsk::from(fitting)) <= MOST_SCENARIOS {
            return Some(fitting);
        }
        fitting.index /= 2;
    }
    None
}

/// Holds the rounded late weight against the exact share, where there are both.
fn match_close(tally: &mut Tally, asked: &Asked, ask: &Ask) {
    let totals = asked.sim.totals(&SimAsk::from(*ask));
    if let (Ok(late), Ok(totals)) = (rounded(&asked.plan, ask), totals) {
        match is_close(late, &totals) {
            Some(close) => tally.count_answer(Ok(late), close),
            None => tally.skip(),
        }
    }
}

impl MatchTallies {
    /// Makes drawn edits on both sides.
    fn edit(&mut self, g: &mut Generator, look: &Look, drafted: &mut Drafted) {
        for step in 0..8u32 {
            let edit = drafted.edit(&draw_step(g, look, step));
            self.groups.edits.count(edit.ours.is_ok(), edit.same);
            self.refusals.count(edit.ours);
        }
    }

    /// Asks both sides for the exact answer in each kind, and for the rounded one.
    fn ask_exact(&mut self, asked: &Asked, ask: &Ask) {
        for (tally, (kind, _)) in self.groups.exact.iter_mut().zip(KINDS) {
            let exact = asked.exact(kind, ask);
            tally.count_answer(exact.ours.map(|cells| cells[256]), exact.same);
            self.refusals.count(exact.ours);
        }
        match_close(&mut self.close, asked, ask);
    }

    /// Asks drawn questions of both sides.
    fn ask(&mut self, g: &mut Generator, asked: &Asked) {
        let ask = draw_ask(g, &asked.plan, 8);
        match fitting(&asked.sim, &ask) {
            Some(ask) => self.ask_exact(asked, &ask),
            None => self.groups.skip_exact(),
        }
        let late = asked.rounded(&ask);
        self.groups.rounded.count_answer(late.ours, late.same);
        self.refusals.count(late.ours);
        let round = asked.task(&draw_ask(g, &asked.plan, 3));
        let late = round.ours.map(|lateness| lateness.late);
        self.groups.task.count_answer(late, round.same);
        self.refusals.count(round.ours);
    }

    /// Edits a new book, asks questions, edits the book again, and asks again.
    fn run(&mut self, g: &mut Generator) {
        let look = draw_look(g);
        let mut drafted = Drafted::new();
        self.edit(g, &look, &mut drafted);
        let asked = drafted.issue();
        self.ask(g, &asked);
        let mut drafted = asked.reopen();
        self.edit(g, &look, &mut drafted);
        self.ask(g, &drafted.issue());
    }

    /// Makes `runs` runs.
    pub(crate) fn run_all(&mut self, g: &mut Generator, runs: u32) {
        for _ in 0..runs {
            self.run(g);
        }
    }
}
