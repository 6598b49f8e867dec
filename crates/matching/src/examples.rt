//! What worked examples are put together from.
use crate::asks::Ask;
use crate::edits::{Edit, Entering};
use crate::rules::Rule;
use crate::sides::Compared;
use crate::tables::table_of;
use crate::tally::Tally;
use analysis::Pair;
use book::Refusal;

/// The edit that enters a task.
pub(crate) fn enter(place: u8, period: u16, phase: u16, deadline: u8, pairs: &[Pair]) -> Edit {
    Edit::Enter(Entering {
        place,
        period,
        phase,
        deadline,
        table: table_of(pairs),
    })
}

/// The question on a job under the period rule.
pub(crate) fn ask_job(place: u8, index: u32) -> Ask {
    Ask {
        rule: Rule::Period,
        place,
        index,
        short: false,
    }
}

/// An exact answer: cells that hold what is listed, and else 0.
pub(crate) fn cells(listed: &[(usize, u64)]) -> Result<[u64; 257], Refusal> {
    let mut cells = [0; 257];
    for (cell, weight) in listed {
        if *cell < 257 {
            cells[*cell] = *weight;
        }
    }
    Ok(cells)
}

/// Counts an answer, which is right if it is the stated one on both sides.
pub(crate) fn expect<T: PartialEq + Copy>(
    tally: &mut Tally,
    answer: Compared<T>,
    stated: Result<T, Refusal>,
) {
    tally.count(answer.ours.is_ok(), answer.same && answer.ours == stated);
}
