//! Edits of a draft.
use super::answers::{HALVES, late, told};
use analysis::Pair;
use book::Draft;

// Each call puts the fault right that refused the one before it; the limits of each range stand beside it.
#[test]
fn enter_refuses_in_order(rt: HostRuntime) {
    let mut draft = Draft::new();
    for (place, period, phase, deadline, answer) in [
        (16, 0, 9, 0, Err(1)),
        (15, 0, 9, 0, Err(2)),
        (15, 4097, 4097, 0, Err(2)),
        (15, 4096, 4096, 0, Err(3)),
        (15, 4096, 4095, 0, Err(4)),
        (15, 4096, 4095, 255, Err(4)),
        (15, 4096, 4095, 254, Err(5)),
    ] {
        assert_eq!(rt;
            told(draft.enter(place, period, phase, deadline, &[])),
            answer
        );
    }
    assert_eq!(rt; told(draft.enter(15, 4096, 4095, 254, &HALVES)), Ok(()));
}

// A pair of weight 1.
fn at(time: u8) -> Pair {
    Pair { time, weight: 1 }
}

// Gives the pairs the times 0, 1, 2 and so on.
fn count_times(pairs: &mut [Pair]) {
    for (pair, time) in pairs.iter_mut().zip(0..=255) {
        pair.time = time;
    }
}

#[test]
fn tables_have_1_to_16_pairs(rt: HostRuntime) {
    let mut pairs = [at(0); 17];
    count_times(&mut pairs);
    let mut draft = Draft::new();
    assert_eq!(rt; told(draft.enter(0, 4, 0, 2, &[])), Err(5));
    assert_eq!(rt; told(draft.enter(0, 4, 0, 2, &pairs[0..1])), Ok(()));
    assert_eq!(rt; told(draft.enter(0, 4, 0, 2, &pairs[0..16])), Ok(()));
    assert_eq!(rt; told(draft.enter(0, 4, 0, 2, &pairs)), Err(5));
    assert_eq!(rt; told(draft.opening(&pairs[0..16])), Ok(()));
    assert_eq!(rt; told(draft.opening(&pairs)), Err(5));
}

#[test]
fn times_rise_and_weights_fit(rt: HostRuntime) {
    let mut draft = Draft::new();
    for (first, second, weight, answer) in [
        (3, 4, 1, Ok(())),
        (3, 3, 1, Err(5)),
        (3, 2, 1, Err(5)),
        (3, 4, 0, Err(5)),
        (3, 4, 65534, Ok(())),
        (3, 4, 65535, Err(5)),
    ] {
        let last = Pair {
            time: second,
            weight,
        };
        let table = [at(first), last];
        assert_eq!(rt; told(draft.enter(0, 4, 0, 2, &table)), answer);
        assert_eq!(rt; told(draft.opening(&table)), answer);
    }
}

#[test]
fn periods_fit_together(rt: HostRuntime) {
    for (first, second, answer) in [(64, 65, Err(6)), (64, 1, Err(7)), (63, 1, Ok(()))] {
        let mut draft = Draft::new();
        assert_eq!(rt; told(draft.enter(0, first, 0, 2, &HALVES)), Ok(()));
        assert_eq!(rt; told(draft.enter(1, second, 0, 2, &HALVES)), answer);
    }
}

#[test]
fn a_refused_edit_leaves_the_draft(rt: HostRuntime) {
    let mut draft = Draft::new();
    assert_eq!(rt; told(draft.enter(0, 4, 0, 2, &HALVES)), Ok(()));
    assert_eq!(rt; told(draft.enter(0, 4, 0, 255, &HALVES)), Err(4));
    assert_eq!(rt; told(draft.withdraw(16)), Err(1));
    assert_eq!(rt; told(draft.withdraw(1)), Err(8));
    assert_eq!(rt; told(draft.opening(&[])), Err(5));
    assert_eq!(rt; told(draft.rounds(0)), Err(9));
    assert_eq!(rt; told(draft.rounds(9)), Err(9));
    let plan = draft.issue();
    assert_eq!(rt; late(&plan, 0, 0), Ok(524_288));
    assert_eq!(rt; late(&plan, 0, 1), Err(11));
}

#[test]
fn withdraw_empties_a_place(rt: HostRuntime) {
    let mut draft = Draft::new();
    assert_eq!(rt; told(draft.enter(0, 4, 0, 2, &HALVES)), Ok(()));
    assert_eq!(rt; told(draft.enter(15, 4, 0, 2, &HALVES)), Ok(()));
    assert_eq!(rt; told(draft.withdraw(15)), Ok(()));
    assert_eq!(rt; told(draft.withdraw(15)), Err(8));
    let plan = draft.issue();
    assert_eq!(rt; late(&plan, 15, 0), Err(11));
    assert_eq!(rt; late(&plan, 0, 0), Ok(524_288));
}
