//! A book on both sides: the proved one and the simulator's.
use crate::asks::{Ask, exact, rounded, task};
use crate::compare::same;
use crate::edits::{Edit, edit_draft};
use crate::sims::{edit_sim, sim_exact, sim_rounded, sim_task};
use book::{Draft, Plan, Refusal, TaskLateness};
use simulator::{SimBook, SimKind, SimLateness};

/// Our answer, and whether the simulator's is the same.
#[derive(Clone, Copy)]
pub struct Compared<T> {
    pub ours: Result<T, Refusal>,
    pub same: bool,
}

/// A draft on both sides.
#[derive(Drop)]
pub struct Drafted {
    draft: Draft,
    sim: SimBook,
}

/// An issued book on both sides.
#[derive(Drop)]
pub struct Asked {
    pub plan: Plan,
    pub sim: SimBook,
}

// Stays: no `From`, since neither type is of this crate.
/// The lateness as one of the simulator.
fn sim_lateness(lateness: TaskLateness) -> SimLateness {
    SimLateness {
        jobs: lateness.jobs,
        late: lateness.late.into(),
    }
}

impl Drafted {
    /// An empty book.
    pub(crate) fn new() -> Drafted {
        Drafted {
            draft: Draft::new(),
            sim: SimBook::new(),
        }
    }

    /// Edits the book.
    pub(crate) fn edit(&mut self, edit: &Edit) -> Compared<()> {
        let ours = edit_draft(&mut self.draft, edit);
        let theirs = edit_sim(&mut self.sim, edit);
        Compared {
            ours,
            same: same(ours, theirs),
        }
    }

    /// The book, to be asked.
    pub(crate) fn issue(self) -> Asked {
        let Drafted { draft, sim } = self;
        Asked {
            plan: draft.issue(),
            sim,
        }
    }
}

impl Asked {
    /// The book, to be edited again.
    pub(crate) fn reopen(self) -> Drafted {
        let Asked { plan, sim } = self;
        Drafted {
            draft: plan.reopen(),
            sim,
        }
    }

    // Stays: the three questions differ in what is asked on each side and in how ours is turned; one function would take three closures.
    /// Asks for the exact answer in a kind.
    pub(crate) fn exact(&self, kind: SimKind, ask: &Ask) -> Compared<[u64; 257]> {
        let ours = exact(&self.plan, kind, ask);
        let theirs = sim_exact(&self.sim, kind, ask);
        Compared {
            ours,
            same: same(ours.map(|cells| cells.map(u128::from)), theirs),
        }
    }

    /// Asks for the rounded late weight of a job.
    pub(crate) fn rounded(&self, ask: &Ask) -> Compared<u64> {
        let ours = rounded(&self.plan, ask);
        let theirs = sim_rounded(&self.sim, ask);
        Compared {
            ours,
            same: same(ours.map(u128::from), theirs),
        }
    }

    /// Asks for the lateness of a round.
    pub(crate) fn task(&self, ask: &Ask) -> Compared<TaskLateness> {
        let ours = task(&self.plan, ask);
        let theirs = sim_task(&self.sim, ask);
        Compared {
            ours,
            same: same(ours.map(sim_lateness), theirs),
        }
    }
}
