//! The rounded answer: a distribution of the work ahead, told by its tails, each of them rounded up.
use super::jobs::Counted;
use super::tables::SimTable;
use std::iter;

// The whole of a rounded answer.
const WHOLE: u128 = 1_048_576;

// The cells 0 to 255 of the times, and cell 256 of what lies beyond.
const CELLS: usize = 257;

// The quotient, rounded up; nought for a divisor of nought.
fn divided_up(number: u128, by: u128) -> u128 {
    if by == 0 { 0 } else { number.div_ceil(by) }
}

// Adds the amount to the cell of the time, or to cell 256 for a time of 256 or more.
fn put(cells: &mut [u128], time: usize, amount: u128) {
    if let Some(cell) = cells.get_mut(time.min(256)) {
        *cell = cell.saturating_add(amount);
    }
}

// Adds the amount, spread over the table's times, after the time.
fn spread(cells: &mut [u128], time: usize, amount: u128, table: &SimTable) {
    for pair in table.pairs() {
        let end = time.saturating_add(pair.time as usize);
        put(cells, end, amount.saturating_mul(u128::from(pair.weight)));
    }
}

// Fills the cells with the differences of neighbouring tails.
fn to_cells(tails: &[u128], cells: &mut [u128]) {
    let nexts = tails.iter().skip(1).chain(iter::once(&0));
    for ((cell, tail), next) in cells.iter_mut().zip(tails).zip(nexts) {
        *cell = tail.saturating_sub(*next);
    }
}

// Moves every time down by the gap, at most to 0; what is beyond stays beyond.
fn pass(cells: &[u128], gap: usize, after: &mut [u128]) {
    for (time, amount) in cells.iter().enumerate() {
        let end = if time < 256 {
            time.saturating_sub(gap)
        } else {
            256
        };
        put(after, end, *amount);
    }
}

// Adds the table to the times from `first` on; the other times and what is beyond are multiplied by its total.
fn add(cells: &[u128], first: usize, table: &SimTable, after: &mut [u128]) {
    let total = u128::from(table.total());
    for (time, amount) in cells.iter().enumerate() {
        if time < first || time >= 256 {
            put(after, time, amount.saturating_mul(total));
        } else {
            spread(after, time, *amount, table);
        }
    }
}

// Fills the tails with those of the cells, divided by the total and rounded up.
fn to_tails(cells: &[u128], total: u128, tails: &mut [u128]) {
    let mut sum = 0u128;
    for (tail, cell) in tails.iter_mut().zip(cells).rev() {
        sum = sum.saturating_add(*cell);
        *tail = divided_up(sum, total);
    }
}

// The tails after the opening table.
fn open_tails(opening: &SimTable, tails: &mut [u128]) {
    let total = u128::from(opening.total());
    for (x, place) in tails.iter_mut().take(256).enumerate() {
        let tail = u128::from(opening.tail(x as u32));
        *place = divided_up(WHOLE.saturating_mul(tail), total);
    }
}

// Turns the tails into those after the gap has passed and the table was added to the times from `first` on.
fn step(tails: &mut [u128], gap: u64, first: u64, table: &SimTable) {
    let mut cells = [0u128; CELLS];
    let mut passed = [0u128; CELLS];
    let mut added = [0u128; CELLS];
    to_cells(tails, &mut cells);
    pass(&cells, gap as usize, &mut passed);
    add(&passed, first as usize, table, &mut added);
    to_tails(&added, u128::from(table.total()), tails);
}

impl Counted {
    // Takes every counted job in turn: a gap passes before each up to the asked one, the later ones only add to times after their release.
    fn walk(&self, tails: &mut [u128]) {
        let asked = self.asked.release;
        let mut last = 0u64;
        for job in self.jobs() {
            let release = job.priority.release;
            if release <= asked {
                step(tails, release.saturating_sub(last), 0, &job.table);
                last = release;
            } else {
                step(tails, 0, (release - asked).saturating_add(1), &job.table);
            }
        }
    }

    // The rounded late weight of the asked job: the tail after its deadline.
    pub(crate) fn late(&self) -> u128 {
        let mut tails = [0u128; CELLS];
        open_tails(&self.opening, &mut tails);
        self.walk(&mut tails);
        let x = (self.asked.task.deadline as usize).saturating_add(1);
        tails.get(x).copied().unwrap_or(0)
    }
}
