//! Scenarios: the draw of one, and the processor that serves it tick by tick.
use super::jobs::{Counted, CountedJob};
use super::rules::SimKind;
use super::tables::SimTable;

// The digits of a scenario's number that are not drawn yet, and the product of the weights drawn.
#[derive(Clone, Copy)]
struct Draw {
    digits: u64,
    weight: u128,
}

impl Draw {
    // Draws a pair of the table by the next digit, and answers its time.
    fn next(&mut self, table: &SimTable) -> u32 {
        let pairs = table.pairs();
        let len = pairs.len();
        if len == 0 {
            return 0;
        }
        let digit = self.digits % len as u64;
        self.digits /= len as u64;
        let pair = pairs[digit as usize];
        self.weight = self.weight.saturating_mul(u128::from(pair.weight));
        pair.time
    }
}

impl CountedJob {
    // Whether the processor can serve it at the tick: it is released and not finished.
    fn waits(&self, tick: u64) -> bool {
        self.priority.release <= tick && self.left > 0
    }
}

impl Counted {
    // Draws a time for the opening work and for each job.
    fn draw(&mut self, draw: &mut Draw) {
        self.left = draw.next(&self.opening);
        for job in self.jobs_mut() {
            job.left = draw.next(&job.table);
        }
    }

    // Serves one tick of work: of the opening work, else of the job that waits and is ahead of all other such jobs.
    fn serve(&mut self, tick: u64) {
        if self.left > 0 {
            self.left -= 1;
            return;
        }
        let jobs = self.jobs_mut();
        let foremost = jobs
            .iter_mut()
            .filter(|job| job.waits(tick))
            .min_by_key(|job| job.priority);
        if let Some(job) = foremost {
            job.left = job.left.saturating_sub(1);
        }
    }

    // Whether 256 ticks or more are unserved right after a job is released at the tick.
    fn overlong(&self, tick: u64) -> bool {
        let mut unserved = self.left;
        for job in self.jobs() {
            unserved = unserved.saturating_add(job.left);
            if job.priority.release == tick && unserved >= 256 {
                return true;
            }
        }
        false
    }

    // Whether all work released at or before the asked job, or before the tick, is served.
    fn all_served(&self, tick: u64) -> bool {
        let before = tick.max(self.asked.release.saturating_add(1));
        self.left == 0
            && self
                .jobs()
                .iter()
                .all(|job| job.left == 0 || job.priority.release >= before)
    }

    // Runs the processor: the response of the asked job, or `None` where it is late.
    fn response(&mut self) -> Option<u64> {
        let asked = self.asked;
        for tick in 0..asked.due().saturating_add(1) {
            if tick <= asked.release && self.overlong(tick) {
                return None;
            }
            if tick >= asked.release && self.all_served(tick) {
                return Some(tick - asked.release);
            }
            self.serve(tick);
        }
        None
    }

    // How many scenarios there are: the product of the numbers of pairs.
    pub(crate) fn scenarios(&self) -> u64 {
        self.jobs()
            .iter()
            .map(|job| job.table.pairs().len() as u64)
            .fold(self.opening.pairs().len() as u64, u64::saturating_mul)
    }

    // The product of the totals of all tables, in the kind.
    pub(crate) fn whole(&self, kind: SimKind) -> u128 {
        self.jobs()
            .iter()
            .map(|job| kind.total(&job.table))
            .fold(kind.total(&self.opening), u128::saturating_mul)
    }

    // Adds the weight of every scenario to the cell of its response, or to cell 256 where it is late.
    pub(crate) fn run_all(&mut self, kind: SimKind) -> [u128; 257] {
        let mut cells = [0u128; 257];
        for number in 0..self.scenarios() {
            let mut draw = Draw {
                digits: number,
                weight: 1,
            };
            self.draw(&mut draw);
            let cell = self.response().unwrap_or(256) as usize;
            if cell < 257 {
                cells[cell] = kind.sum(cells[cell], kind.read(draw.weight));
            }
        }
        cells
    }
}
