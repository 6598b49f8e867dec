//! Exact questions on a plan.
use super::answers::{HALVES, all_are, told};
use analysis::{Count, DeadlineRule, Heaviest, Pair, Possible, Ranking, TableRule};
use book::{Draft, Plan};
use std::process::Abort;

// Checks that only the listed cells are not nought, and hold the weights that stand beside them.
fn holds(rt: &impl Abort, cells: &mut [Count], listed: &[(usize, u64)]) {
    for (cell, weight) in listed {
        assert!(rt; *cell < cells.len());
        assert_eq!(rt; cells[*cell].value(), *weight);
        cells[*cell] = Count::new(0);
    }
    assert!(rt; all_are(cells, 0));
}

// Checks the exact answer in counts of job 0 of place 0.
fn answers<R: Ranking>(rt: &impl Abort, plan: &Plan, rule: &R, listed: &[(usize, u64)]) {
    let mut answer = [Count::new(7); 258];
    let mut work = [Count::new(8); 258];
    assert_eq!(rt;
        told(plan.response(rule, 0, 0, &mut answer, &mut work)),
        Ok(())
    );
    assert!(rt; all_are(&answer[257..258], 7));
    assert!(rt; all_are(&work[0..257], 0));
    assert!(rt; all_are(&work[257..258], 8));
    holds(rt, &mut answer[0..257], listed);
}

// The first job goes on as the second is released, two ticks before its deadline.
#[test]
fn a_second_task_cuts_in(rt: HostRuntime) {
    let mut draft = Draft::new();
    let table = [Pair { time: 2, weight: 1 }, Pair { time: 4, weight: 1 }];
    assert_eq!(rt; told(draft.enter(0, 8, 0, 6, &table)), Ok(()));
    assert_eq!(rt; told(draft.enter(1, 8, 3, 2, &HALVES)), Ok(()));
    let plan = draft.issue();
    let rule = TableRule { ranks: [0; 16] };
    answers(&rt, &plan, &rule, &[(2, 1), (4, 1)]);
    answers(&rt, &plan, &DeadlineRule, &[(2, 2), (5, 1), (256, 1)]);
}

#[test]
fn weights_stop_at_the_top(rt: HostRuntime) {
    let mut draft = Draft::new();
    let table = [
        Pair { time: 1, weight: 1 },
        Pair {
            time: 2,
            weight: 65534,
        },
    ];
    assert_eq!(rt; told(draft.enter(0, 300, 0, 9, &table)), Ok(()));
    assert_eq!(rt; told(draft.rounds(5)), Ok(()));
    let plan = draft.issue();
    let mut answer = [Count::new(7); 257];
    let mut work = [Count::new(8); 257];
    let rule = DeadlineRule;
    assert_eq!(rt;
        told(plan.response(&rule, 0, 4, &mut answer, &mut work)),
        Err(13)
    );
    assert!(rt; all_are(&answer, 7));
    assert!(rt; all_are(&work, 8));
    assert_eq!(rt;
        told(plan.response(&rule, 0, 3, &mut answer, &mut work)),
        Ok(())
    );
    assert_eq!(rt; answer[1].value(), 281_462_092_005_375);
}

#[test]
fn other_kinds_answer_too(rt: HostRuntime) {
    let mut draft = Draft::new();
    let table = [Pair { time: 1, weight: 2 }, Pair { time: 3, weight: 5 }];
    assert_eq!(rt; told(draft.enter(0, 4, 0, 2, &table)), Ok(()));
    assert_eq!(rt; told(draft.rounds(2)), Ok(()));
    let plan = draft.issue();
    let mut yes = [Possible::Yes; 257];
    let mut work = [Possible::Yes; 257];
    assert_eq!(rt;
        told(plan.response(&DeadlineRule, 0, 1, &mut yes, &mut work)),
        Ok(())
    );
    assert!(rt; yes[0] == Possible::No && yes[1] == Possible::Yes && yes[256] == Possible::Yes);
    let mut most = [Heaviest::new(9); 257];
    let mut work = [Heaviest::new(9); 257];
    assert_eq!(rt;
        told(plan.response(&DeadlineRule, 0, 1, &mut most, &mut work)),
        Ok(())
    );
    assert_eq!(rt; most[1].value(), 10);
    assert_eq!(rt; most[256].value(), 25);
}

// The number of a question's refusal, where it is refused; it leaves its sheets.
fn refused(rt: &impl Abort, plan: &Plan, place: u8, index: u32) -> Option<u8> {
    let mut answer = [Count::new(7); 257];
    let mut work = [Count::new(8); 257];
    let told = told(plan.response(&DeadlineRule, place, index, &mut answer, &mut work));
    assert!(rt; all_are(&answer, 7));
    assert!(rt; all_are(&work, 8));
    told.err()
}

// A job past the window, an empty place, a deadline past the window, and a sheet that is too short.
#[test]
fn refusals_leave_the_sheets(rt: HostRuntime) {
    let mut draft = Draft::new();
    assert_eq!(rt; told(draft.enter(0, 4, 0, 4, &HALVES)), Ok(()));
    assert_eq!(rt; told(draft.enter(1, 4, 0, 5, &HALVES)), Ok(()));
    let plan = draft.issue();
    assert_eq!(rt; refused(&rt, &plan, 0, 1), Some(11));
    assert_eq!(rt; refused(&rt, &plan, 2, 0), Some(11));
    assert_eq!(rt; refused(&rt, &plan, 1, 0), Some(12));
    let mut short = [Count::new(7); 256];
    let mut long = [Count::new(8); 257];
    assert_eq!(rt;
        told(plan.response(&DeadlineRule, 0, 9, &mut short, &mut long)),
        Err(10)
    );
    assert!(rt; all_are(&short, 7));
    assert!(rt; all_are(&long, 8));
}
