//! Worked examples.
use crate::asks::Ask;
use crate::edits::Edit;
use crate::examples::{ask_job, cells, enter, expect};
use crate::rules::Rule;
use crate::sides::Drafted;
use crate::tables::table_of;
use crate::tally::Tally;
use analysis::{Pair, TableRule};
use book::{Refusal, TaskLateness};
use simulator::SimKind;

/// Half of the weight at each of the times 1 and 3.
const HALVES: [Pair; 2] = [Pair { time: 1, weight: 1 }, Pair { time: 3, weight: 1 }];

/// Four totals of 65,535 stay below the top, and five do not.
fn top(tally: &mut Tally) {
    let mut example = Drafted::new();
    let whole = [Pair {
        time: 1,
        weight: 65535,
    }];
    expect(tally, example.edit(&enter(0, 300, 0, 254, &whole)), Ok(()));
    expect(tally, example.edit(&Edit::Rounds(5)), Ok(()));
    let asked = example.issue();
    let four = 18_445_618_199_572_250_625;
    expect(
        tally,
        asked.exact(SimKind::Counts, &ask_job(0, 3)),
        cells(&[(1, four)]),
    );
    expect(
        tally,
        asked.exact(SimKind::Heaviest, &ask_job(0, 3)),
        cells(&[(1, four)]),
    );
    expect(
        tally,
        asked.exact(SimKind::Counts, &ask_job(0, 4)),
        Err(Refusal::TooHeavy),
    );
    expect(
        tally,
        asked.exact(SimKind::Heaviest, &ask_job(0, 4)),
        Err(Refusal::TooHeavy),
    );
    expect(
        tally,
        asked.exact(SimKind::Possible, &ask_job(0, 4)),
        cells(&[(1, 1)]),
    );
    expect(
        tally,
        asked.exact(SimKind::Counts, &ask_job(0, 5)),
        Err(Refusal::NoJob),
    );
}

/// A deadline at the end of the window is granted, and one after it is not.
fn window(tally: &mut Tally) {
    let one = [Pair { time: 1, weight: 1 }];
    let mut example = Drafted::new();
    expect(tally, example.edit(&enter(0, 4, 0, 4, &one)), Ok(()));
    let asked = example.issue();
    expect(
        tally,
        asked.exact(SimKind::Counts, &ask_job(0, 0)),
        cells(&[(1, 1)]),
    );
    let mut example = Drafted::new();
    expect(tally, example.edit(&enter(0, 4, 0, 5, &one)), Ok(()));
    let asked = example.issue();
    expect(
        tally,
        asked.exact(SimKind::Counts, &ask_job(0, 0)),
        Err(Refusal::Window),
    );
    expect(
        tally,
        asked.exact(SimKind::Possible, &ask_job(1, 0)),
        Err(Refusal::NoJob),
    );
    let short = Ask {
        rule: Rule::Deadline,
        place: 0,
        index: 0,
        short: true,
    };
    expect(
        tally,
        asked.exact(SimKind::Heaviest, &short),
        Err(Refusal::Sheet),
    );
}

/// The hyperperiod is at most 4,096, and it has at most 64 jobs.
fn hyperperiod(tally: &mut Tally) {
    let one = [Pair { time: 1, weight: 1 }];
    let mut example = Drafted::new();
    expect(tally, example.edit(&enter(0, 64, 0, 9, &one)), Ok(()));
    expect(
        tally,
        example.edit(&enter(1, 65, 0, 9, &one)),
        Err(Refusal::Hyperperiod),
    );
    expect(
        tally,
        example.edit(&enter(1, 1, 0, 9, &one)),
        Err(Refusal::Jobs),
    );
    expect(tally, example.edit(&enter(0, 63, 0, 9, &one)), Ok(()));
    expect(tally, example.edit(&enter(1, 1, 0, 9, &one)), Ok(()));
    expect(tally, example.edit(&Edit::Withdraw(2)), Err(Refusal::Empty));
    expect(
        tally,
        example.edit(&Edit::Withdraw(16)),
        Err(Refusal::Place),
    );
    expect(tally, example.edit(&Edit::Rounds(9)), Err(Refusal::Rounds));
}

/// A job that waits for the jobs before it, and for the opening work.
fn halves(tally: &mut Tally) {
    let mut example = Drafted::new();
    expect(tally, example.edit(&enter(0, 4, 0, 2, &HALVES)), Ok(()));
    expect(tally, example.edit(&Edit::Rounds(2)), Ok(()));
    let asked = example.issue();
    expect(
        tally,
        asked.exact(SimKind::Counts, &ask_job(0, 0)),
        cells(&[(1, 1), (256, 1)]),
    );
    expect(
        tally,
        asked.exact(SimKind::Counts, &ask_job(0, 1)),
        cells(&[(1, 2), (256, 2)]),
    );
    let mut example = Drafted::new();
    expect(tally, example.edit(&enter(0, 4, 0, 2, &HALVES)), Ok(()));
    let three = table_of(&[Pair { time: 3, weight: 1 }]);
    expect(tally, example.edit(&Edit::Opening(three)), Ok(()));
    let asked = example.issue();
    expect(
        tally,
        asked.exact(SimKind::Counts, &ask_job(0, 0)),
        cells(&[(256, 2)]),
    );
    expect(
        tally,
        asked.exact(SimKind::Heaviest, &ask_job(0, 0)),
        cells(&[(256, 1)]),
    );
}

/// A later job that goes ahead, released at the phase.
fn delayed(tally: &mut Tally, phase: u16, listed: &[(usize, u64)]) {
    let mut example = Drafted::new();
    let first = [Pair { time: 2, weight: 1 }, Pair { time: 4, weight: 1 }];
    expect(tally, example.edit(&enter(0, 8, 0, 6, &first)), Ok(()));
    expect(tally, example.edit(&enter(1, 8, phase, 2, &HALVES)), Ok(()));
    let mut ranks = [0u64; 16];
    ranks[0] = 1;
    let ask = Ask {
        rule: Rule::Table(TableRule { ranks }),
        place: 0,
        index: 0,
        short: false,
    };
    expect(
        tally,
        example.issue().exact(SimKind::Counts, &ask),
        cells(listed),
    );
}

/// One third of 1,048,576, rounded up.
fn third(tally: &mut Tally) {
    let mut example = Drafted::new();
    let table = [Pair { time: 1, weight: 2 }, Pair { time: 3, weight: 1 }];
    expect(tally, example.edit(&enter(0, 4, 0, 2, &table)), Ok(()));
    let asked = example.issue();
    expect(tally, asked.rounded(&ask_job(0, 0)), Ok(349_526));
    let lateness = TaskLateness {
        jobs: 1,
        late: 349_526,
    };
    expect(tally, asked.task(&ask_job(0, 0)), Ok(lateness));
}

/// A response up to the deadline 254 is told by its cell, a longer one is late.
fn longest(tally: &mut Tally, time: u8, cell: usize) {
    let mut example = Drafted::new();
    expect(
        tally,
        example.edit(&enter(0, 300, 0, 254, &[Pair { time, weight: 1 }])),
        Ok(()),
    );
    expect(
        tally,
        example.issue().exact(SimKind::Counts, &ask_job(0, 0)),
        cells(&[(cell, 1)]),
    );
}

/// Work that once reached 256 ticks makes a job late, also where it is served long before.
fn overlong(tally: &mut Tally, time: u8, cell: usize) {
    let mut example = Drafted::new();
    let long = [Pair {
        time: 200,
        weight: 1,
    }];
    expect(tally, example.edit(&enter(0, 300, 0, 254, &long)), Ok(()));
    expect(
        tally,
        example.edit(&enter(1, 300, 0, 254, &[Pair { time, weight: 1 }])),
        Ok(()),
    );
    let one = [Pair { time: 1, weight: 1 }];
    expect(tally, example.edit(&enter(2, 300, 299, 1, &one)), Ok(()));
    expect(
        tally,
        example.issue().exact(SimKind::Counts, &ask_job(2, 0)),
        cells(&[(cell, 1)]),
    );
}

/// A job that is released later cuts in under the rule that ranks it first, and waits under the period rule.
fn later_first(tally: &mut Tally) {
    let mut example = Drafted::new();
    expect(
        tally,
        example.edit(&enter(0, 8, 0, 8, &[Pair { time: 3, weight: 1 }])),
        Ok(()),
    );
    expect(
        tally,
        example.edit(&enter(1, 8, 2, 4, &[Pair { time: 2, weight: 1 }])),
        Ok(()),
    );
    let asked = example.issue();
    let mut ask = ask_job(0, 0);
    expect(tally, asked.exact(SimKind::Counts, &ask), cells(&[(3, 1)]));
    expect(
        tally,
        asked.exact(SimKind::Counts, &ask_job(1, 0)),
        cells(&[(3, 1)]),
    );
    ask.rule = Rule::LaterFirst;
    expect(tally, asked.exact(SimKind::Counts, &ask), cells(&[(5, 1)]));
    ask.place = 1;
    expect(tally, asked.exact(SimKind::Counts, &ask), cells(&[(2, 1)]));
}

/// Puts every worked example to both sides.
pub(crate) fn work_examples() -> Tally {
    let mut tally = Tally::default();
    top(&mut tally);
    window(&mut tally);
    hyperperiod(&mut tally);
    halves(&mut tally);
    delayed(&mut tally, 3, &[(2, 2), (5, 1), (256, 1)]);
    delayed(&mut tally, 4, &[(2, 2), (4, 2)]);
    third(&mut tally);
    longest(&mut tally, 254, 254);
    longest(&mut tally, 255, 256);
    overlong(&mut tally, 55, 1);
    overlong(&mut tally, 56, 256);
    later_first(&mut tally);
    tally
}
