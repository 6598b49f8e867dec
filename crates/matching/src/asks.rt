//! Questions that are put to a plan, and their answers or refusals.
ghost use Rattle.std.specs.Prelude.{◌*◌, ◌^◌, ◌<◌, ◌≤◌};
ghost use Rattle.std.specs.Mem.{type_size};

use crate::rules::Rule;
use analysis::{Count, Heaviest, Possible, Weight};
use book::{Plan, Refusal, TaskLateness};
use simulator::{SimAsk, SimKind};

/// What is asked: a rule, a place, the index of a job or a round, and whether the sheets are one cell too short.
#[derive(Clone, Copy)]
pub struct Ask {
    pub rule: Rule,
    pub place: u8,
    pub index: u32,
    pub short: bool,
}

impl Ask {
    /// How many cells the sheets have.
    pub(crate) fn cells(&self) -> usize
        ensures { result ≤ 257 }
    {
        if self.short { 256 } else { 257 }
    }
}

impl From<Ask> for SimAsk {
    fn from(ask: Ask) -> SimAsk {
        SimAsk {
            rule: ask.rule.into(),
            place: ask.place.into(),
            index: ask.index,
        }
    }
}

/// The exact answer in a kind, of whose elements `size` gives the numbers.
fn exact_in<W: Weight, F: Fn(W) -> u64>(
    plan: &Plan,
    ask: &Ask,
    size: F,
) -> Result<[u64; 257], Refusal>
    requires small { 257 * type_size W.row < 2 ^ 63 }
    requires callable { F.IsAlwaysCallable size }
{
    let mut answer = [W::unit(); 257];
    let mut work = [W::unit(); 257];
    let cells = ask.cells();
    let sheet = &mut answer[..cells];
    plan.response(&ask.rule, ask.place, ask.index, sheet, &mut work[..cells])?;
    let mut plain = [0; 257];
    for (to, cell) in plain.iter_mut().zip(&answer) {
        *to = size(*cell);
    }
    Ok(plain)
}

/// The exact answer: the 257 cells as plain numbers.
pub(crate) fn exact(plan: &Plan, kind: SimKind, ask: &Ask) -> Result<[u64; 257], Refusal> {
    match kind {
        SimKind::Counts => exact_in::<Count, _>(plan, ask, Count::value),
        SimKind::Possible => exact_in::<Possible, _>(plan, ask, |cell| cell as u64),
        SimKind::Heaviest => exact_in::<Heaviest, _>(plan, ask, Heaviest::value),
    }
}

// Stays: `rounded` and `task` differ in the question, which one function would take as a closure over two sheets, plan and ask: no plainer.
/// The rounded late weight of a job.
pub(crate) fn rounded(plan: &Plan, ask: &Ask) -> Result<u64, Refusal> {
    let mut answer = [Count::new(1); 257];
    let mut work = [Count::new(1); 257];
    let cells = ask.cells();
    let sheet = &mut answer[..cells];
    plan.rounded(&ask.rule, ask.place, ask.index, sheet, &mut work[..cells])
}

/// The jobs of a task in a round and the sum of their rounded late weights.
pub(crate) fn task(plan: &Plan, ask: &Ask) -> Result<TaskLateness, Refusal> {
    let mut answer = [Count::new(1); 257];
    let mut work = [Count::new(1); 257];
    let cells = ask.cells();
    let sheet = &mut answer[..cells];
    plan.task(&ask.rule, ask.place, ask.index, sheet, &mut work[..cells])
}
