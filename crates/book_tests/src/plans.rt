//! Questions on a plan.
use super::answers::{HALVES, all_are, late, told};
use analysis::{Count, DeadlineRule, Pair, PeriodRule, Ranking};
use book::{Draft, Plan};

// The number of jobs and the late weight that `task` answers.
fn task<R: Ranking>(plan: &Plan, rule: &R, place: u8, round: u32) -> Result<(u32, u64), u8> {
    let mut answer = [Count::new(7); 257];
    let mut work = [Count::new(7); 257];
    let found = told(plan.task(rule, place, round, &mut answer, &mut work))?;
    Ok((found.jobs, found.late))
}

#[test]
fn rounded_leaves_its_cells_nought(rt: HostRuntime) {
    let table = [Pair { time: 1, weight: 2 }, Pair { time: 3, weight: 1 }];
    let mut draft = Draft::new();
    assert_eq!(rt; told(draft.enter(0, 4, 0, 2, &table)), Ok(()));
    let plan = draft.issue();
    let mut answer = [Count::new(7); 258];
    let mut work = [Count::new(8); 258];
    assert_eq!(rt;
        told(plan.rounded(&DeadlineRule, 0, 0, &mut answer, &mut work)),
        Ok(349_526)
    );
    assert!(rt; all_are(&answer[0..257], 0));
    assert!(rt; all_are(&answer[257..258], 7));
    assert!(rt; all_are(&work[0..257], 0));
    assert!(rt; all_are(&work[257..258], 8));
}

// There is no place 16, but a short sheet is refused first.
#[test]
fn a_short_sheet_is_refused(rt: HostRuntime) {
    let plan = Draft::new().issue();
    let rule = DeadlineRule;
    let mut short = [Count::new(7); 256];
    let mut long = [Count::new(8); 257];
    assert_eq!(rt;
        told(plan.rounded(&rule, 16, 0, &mut short, &mut long)),
        Err(10)
    );
    assert_eq!(rt;
        told(plan.rounded(&rule, 16, 0, &mut long, &mut short)),
        Err(10)
    );
    assert_eq!(rt;
        told(plan.task(&rule, 16, 0, &mut short, &mut long)).err(),
        Some(10)
    );
    assert_eq!(rt;
        told(plan.task(&rule, 16, 0, &mut long, &mut short)).err(),
        Some(10)
    );
    assert!(rt; all_are(&short, 7));
    assert!(rt; all_are(&long, 8));
}

#[test]
fn jobs_lie_in_the_window(rt: HostRuntime) {
    let table = [Pair { time: 3, weight: 1 }, Pair { time: 5, weight: 1 }];
    let mut draft = Draft::new();
    assert_eq!(rt; told(draft.enter(0, 4, 0, 4, &table)), Ok(()));
    assert_eq!(rt; told(draft.enter(15, 4, 0, 5, &table)), Ok(()));
    let plan = draft.issue();
    for (place, index, answer) in [
        (0, 0, Ok(524_288)),
        (15, 0, Err(12)),
        (0, 1, Err(11)),
        (0, u32::MAX, Err(11)),
        (1, 0, Err(11)),
        (16, 0, Err(11)),
    ] {
        assert_eq!(rt; late(&plan, place, index), answer);
    }
}

// Of the opening work and job 0, nothing or 2 ticks are left when job 1 is released.
#[test]
fn opening_work_delays_jobs(rt: HostRuntime) {
    let mut draft = Draft::new();
    assert_eq!(rt; told(draft.enter(0, 4, 0, 2, &HALVES)), Ok(()));
    assert_eq!(rt; told(draft.rounds(2)), Ok(()));
    let plan = draft.issue();
    assert_eq!(rt; late(&plan, 0, 0), Ok(524_288));
    assert_eq!(rt; late(&plan, 0, 1), Ok(524_288));
    let mut draft = plan.reopen();
    assert_eq!(rt; told(draft.opening(&[Pair { time: 3, weight: 1 }])), Ok(()));
    let plan = draft.issue().reopen().issue();
    assert_eq!(rt; late(&plan, 0, 0), Ok(1_048_576));
    assert_eq!(rt; late(&plan, 0, 1), Ok(786_432));
}

#[test]
fn rounds_have_jobs(rt: HostRuntime) {
    let mut draft = Draft::new();
    assert_eq!(rt; told(draft.enter(0, 4, 0, 2, &HALVES)), Ok(()));
    assert_eq!(rt; told(draft.rounds(2)), Ok(()));
    let plan = draft.issue();
    for (place, round, answer) in [
        (0, 0, Ok((1, 524_288))),
        (0, 1, Ok((1, 524_288))),
        (0, 2, Err(11)),
        (1, 0, Err(11)),
        (16, 0, Err(11)),
    ] {
        assert_eq!(rt; task(&plan, &DeadlineRule, place, round), answer);
    }
}

// By deadline, the second job of place 0 waits for the job of place 1, which has the same rank and an earlier release. By period, the
// job of place 1 waits for both.
#[test]
fn rules_decide_who_waits(rt: HostRuntime) {
    let mut draft = Draft::new();
    assert_eq!(rt; told(draft.enter(0, 4, 0, 2, &HALVES)), Ok(()));
    assert_eq!(rt;
        told(draft.enter(1, 8, 0, 6, &[Pair { time: 4, weight: 1 }])),
        Ok(())
    );
    let plan = draft.issue();
    assert_eq!(rt; task(&plan, &DeadlineRule, 0, 0), Ok((2, 1_310_720)));
    assert_eq!(rt; task(&plan, &DeadlineRule, 1, 0), Ok((1, 524_288)));
    assert_eq!(rt; task(&plan, &PeriodRule, 0, 0), Ok((2, 1_048_576)));
    assert_eq!(rt; task(&plan, &PeriodRule, 1, 0), Ok((1, 786_432)));
}
