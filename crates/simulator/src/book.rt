//! The book: its tasks, its opening table and its rounds, and the edits of them.
ghost use Rattle.std.specs.Prelude.{◌≡◌, ◌<◌, ◌≤◌, Some, MatchResult, OnSome, slice_set};
ghost use Rattle.simulator.specs.Refusals.{number, answer};
ghost use Rattle.simulator.specs.Tables.{Holds};
ghost use Rattle.simulator.specs.Edits.{empty, table_number, task_number, early_number, Made, Entered, withdraw_number, withdrawn, rounds_number, with_rounds};

use super::refusals::SimRefusal;
use super::tables::{SimPair, SimTable};

/// A task: its jobs are released at phase, phase + period, phase + 2 × period and so on.
#[derive(Clone, Copy)]
pub struct SimTask {
    pub period: u32,
    pub phase: u32,
    pub deadline: u32,
    pub table: SimTable,
}

/// A book: the tasks by place, the work at tick 0, and the rounds of the window.
#[derive(Clone, Copy)]
pub struct SimBook {
    pub tasks: [Option<SimTask>; 16],
    pub opening: SimTable,
    pub rounds: u32,
}

// Whether each period divides the length.
fn all_divide(tasks: &[Option<SimTask>], length: u32) -> bool {
    tasks
        .iter()
        .flatten()
        .all(|task| task.period != 0 && length % task.period == 0)
}

// The hyperperiod: the least of 1 to 4,096 that each period divides.
fn hyperperiod_of(tasks: &[Option<SimTask>]) -> Option<u32> {
    (1..4097).find(|length| all_divide(tasks, *length))
}

// How many jobs the tasks release in a hyperperiod.
fn jobs_in(tasks: &[Option<SimTask>], hyperperiod: u32) -> u32 {
    tasks
        .iter()
        .flatten()
        .map(|task| hyperperiod.checked_div(task.period).unwrap_or(0))
        .fold(0, u32::saturating_add)
}

// The tasks with this one at the place, or the refusal.
fn with_task(
    tasks: &[Option<SimTask>; 16],
    place: usize,
    task: SimTask,
) -> Result<[Option<SimTask>; 16], SimRefusal>
    requires { place < 16 }
    ensures { MatchResult result (λ after. after ≡ slice_set tasks.now place (Some task)) (λ e. (6 ≤ number e) × (number e ≤ 7)) }
{
    let mut after = *tasks;
    after[place] = Some(task);
    let hyperperiod = hyperperiod_of(&after).ok_or(SimRefusal::Hyperperiod)?;
    if jobs_in(&after, hyperperiod) > 64 {
        return Err(SimRefusal::Jobs);
    }
    Ok(after)
}

impl SimTask {
    // The task of these parts, or the first refusal.
    fn new(period: u32, phase: u32, deadline: u32, pairs: &[SimPair]) -> Result<SimTask, SimRefusal>
        ensures { MatchResult result (λ task. (task_number period phase deadline pairs.now ≡ 0) × Made period phase deadline pairs.now task) (λ e. (2 ≤ number e) × (number e ≡ task_number period phase deadline pairs.now)) }
    {
        if period < 1 || period > 4096 {
            return Err(SimRefusal::Period);
        }
        if phase >= period {
            return Err(SimRefusal::Phase);
        }
        if deadline < 1 || deadline > 254 {
            return Err(SimRefusal::Deadline);
        }
        let table = SimTable::new(pairs).ok_or(SimRefusal::Table)?;
        Ok(SimTask {
            period,
            phase,
            deadline,
            table,
        })
    }
}

impl SimBook {
    /// The empty book: no task, no work at tick 0, one round.
    pub fn new() -> SimBook
        ensures { result ≡ empty }
    {
        SimBook {
            tasks: [None; 16],
            opening: SimTable::no_work(),
            rounds: 1,
        }
    }

    /// Puts a task at the place, or answers the first refusal.
    // Stays: the parts of a task are no struct here: each caller would make it only to have it taken apart, so it is no plainer.
    pub fn enter(
        &mut self,
        place: u32,
        period: u32,
        phase: u32,
        deadline: u32,
        pairs: &[SimPair],
    ) -> Result<(), SimRefusal>
        ensures early { 0 < early_number place period phase deadline pairs.now → answer result ≡ early_number place period phase deadline pairs.now }
        ensures others { early_number place period phase deadline pairs.now ≡ 0 → 0 < answer result → (6 ≤ answer result) × (answer result ≤ 7) }
        ensures refused { 0 < answer result → self.new ≡ self.old }
        ensures entered { answer result ≡ 0 → Entered place (Made period phase deadline pairs.now) self.old self.new }
    {
        if place > 15 {
            return Err(SimRefusal::Place);
        }
        let task = SimTask::new(period, phase, deadline, pairs)?;
        self.tasks = with_task(&self.tasks, place as usize, task)?;
        Ok(())
    }

    /// Empties the place; refused for a place above 15 and for an empty one.
    pub fn withdraw(&mut self, place: u32) -> Result<(), SimRefusal>
        ensures number { answer result ≡ withdraw_number self.old place }
        ensures book { self.new ≡ withdrawn self.old place }
    {
        if place > 15 {
            return Err(SimRefusal::Place);
        }
        let place = place as usize;
        if self.tasks[place].is_none() {
            return Err(SimRefusal::Empty);
        }
        self.tasks[place] = None;
        Ok(())
    }

    /// Sets the opening table; refused where the pairs make none.
    pub fn opening(&mut self, pairs: &[SimPair]) -> Result<(), SimRefusal>
        ensures number { answer result ≡ table_number pairs.now }
        ensures refused { 0 < answer result → self.new ≡ self.old }
        ensures set { answer result ≡ 0 → Holds self.new.opening pairs.now }
        ensures tasks { self.new.tasks ≡ self.old.tasks }
        ensures rounds { self.new.rounds ≡ self.old.rounds }
    {
        self.opening = SimTable::new(pairs).ok_or(SimRefusal::Table)?;
        Ok(())
    }

    /// Sets the rounds; refused where they are not 1 to 8.
    pub fn rounds(&mut self, rounds: u32) -> Result<(), SimRefusal>
        ensures number { answer result ≡ rounds_number rounds }
        ensures book { self.new ≡ with_rounds self.old rounds }
    {
        if rounds < 1 || rounds > 8 {
            return Err(SimRefusal::Rounds);
        }
        self.rounds = rounds;
        Ok(())
    }

    // The hyperperiod of the tasks.
    pub(crate) fn hyperperiod(&self) -> Option<u32> {
        hyperperiod_of(&self.tasks)
    }

    // The task at the place.
    pub(crate) fn entry(&self, place: u32) -> Option<&SimTask>
        ensures { OnSome result (place ≤ 15) }
    {
        self.tasks.get(place as usize)?.as_ref()
    }
}
