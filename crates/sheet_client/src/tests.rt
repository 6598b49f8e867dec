use super::jobs::{Job, goes_ahead};
use super::responses::respond;
use analysis::{
    Count, DeadlineRule, Heaviest, Pair, PeriodRule, Possible, SheetRefusal, TableRule, add_from,
    pass, round_tails, tails,
};

const FIRST: [Pair; 2] = [Pair { time: 2, weight: 1 }, Pair { time: 4, weight: 3 }];

const SECOND: [Pair; 2] = [
    Pair { time: 1, weight: 2 },
    Pair {
        time: 255,
        weight: 5,
    },
];

// Three ticks after the first job, 0 ticks of it are left with weight 1, and 1 tick with weight 3.
#[test]
fn in_counts(rt: HostRuntime) {
    let mut sheet = [Count::new(7); 258];
    assert!(rt; respond(&mut sheet, &FIRST, 3, &SECOND).is_ok());
    assert!(rt; sheet[1].value() == 2);
    assert!(rt; sheet[2].value() == 6);
    assert!(rt; sheet[256].value() == 15);
    assert!(rt; sheet[257].value() == 7);
}

#[test]
fn in_possible(rt: HostRuntime) {
    let mut sheet = [Possible::No; 257];
    assert!(rt; respond(&mut sheet, &FIRST, 3, &SECOND).is_ok());
    assert!(rt; sheet[2] == Possible::Yes);
    assert!(rt; sheet[3] == Possible::No);
    assert!(rt; sheet[256] == Possible::Yes);
}

#[test]
fn in_heaviest(rt: HostRuntime) {
    let mut sheet = [Heaviest::new(0); 257];
    assert!(rt; respond(&mut sheet, &FIRST, 3, &SECOND).is_ok());
    assert!(rt; sheet[2].value() == 6);
    assert!(rt; tails(&mut sheet).is_ok());
    assert!(rt; sheet[0].value() == 15);
}

#[test]
fn a_short_sheet_is_refused(rt: HostRuntime) {
    let mut sheet = [Count::new(7); 256];
    assert!(rt; respond(&mut sheet, &FIRST, 3, &SECOND) == Err(SheetRefusal::Short));
    assert!(rt; sheet[0].value() == 7);
    assert!(rt; sheet[255].value() == 7);
}

#[test]
fn a_long_gap_gathers_every_time(rt: HostRuntime) {
    let mut sheet = [Count::new(1); 257];
    assert!(rt; pass(&mut sheet, 1_000_000).is_ok());
    assert!(rt; sheet[0].value() == 256);
    assert!(rt; sheet[256].value() == 1);
}

#[test]
fn adding_from_a_time(rt: HostRuntime) {
    let mut sheet = [Count::new(0); 257];
    sheet[3] = Count::new(1);
    sheet[4] = Count::new(1);
    assert!(rt; add_from(&mut sheet, 3, &FIRST).is_ok());
    assert!(rt; sheet[3].value() == 4);
    assert!(rt; sheet[8].value() == 3);
}

#[test]
fn rounded_tails(rt: HostRuntime) {
    let mut sheet = [Count::new(0); 257];
    sheet[1] = Count::new(4);
    sheet[5] = Count::new(3);
    assert!(rt; round_tails(&mut sheet, 2).is_ok());
    assert!(rt; sheet[1].value() == 2);
    sheet[0] = Count::new(u64::MAX);
    assert!(rt; round_tails(&mut sheet, 2).is_ok());
    assert!(rt; sheet[0].value() == 0x7fff_ffff_ffff_fffe);
    assert!(rt; sheet[5].value() == 1);
}

#[test]
fn rules_rank(rt: HostRuntime) {
    let short = Job {
        place: 3,
        period: 10,
        deadline: 9,
        release: 20,
    };
    let urgent = Job {
        place: 200,
        period: 40,
        deadline: 5,
        release: 22,
    };
    let mut ranks = [5; 16];
    ranks[15] = 4;
    assert!(rt; goes_ahead(&PeriodRule, short, urgent));
    assert!(rt; goes_ahead(&DeadlineRule, urgent, short));
    assert!(rt; goes_ahead(&TableRule { ranks }, urgent, short));
}
