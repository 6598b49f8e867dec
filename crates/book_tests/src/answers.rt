//! What the tests share.
use analysis::{Count, DeadlineRule, Pair};
use book::{Plan, Refusal};

/// Half of the weight at each of two times.
pub(crate) const HALVES: [Pair; 2] = [Pair { time: 1, weight: 1 }, Pair { time: 3, weight: 1 }];

/// The answer, or the number of its refusal.
pub(crate) fn told<T>(answer: Result<T, Refusal>) -> Result<T, u8> {
    answer.map_err(Refusal::number)
}

/// What `rounded` answers under the deadline rule.
pub(crate) fn late(plan: &Plan, place: u8, index: u32) -> Result<u64, u8> {
    let mut answer = [Count::new(7); 257];
    let mut work = [Count::new(7); 257];
    told(plan.rounded(&DeadlineRule, place, index, &mut answer, &mut work))
}

/// Whether each of the cells has the value.
pub(crate) fn all_are(cells: &[Count], value: u64) -> bool {
    cells.iter().all(|cell| cell.value() == value)
}
