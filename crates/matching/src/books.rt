//! How the edits of a book are drawn.
use crate::edits::{Edit, Entering};
use crate::generator::Generator;
use crate::tables::{Shape, draw, unlawful};

/// What the tasks of a book look like.
#[derive(Clone, Copy)]
pub struct Look {
    pub places: u8,
    pub periods: [u16; 8],
    pub table: Shape,
    pub low_deadline: u8,
    pub high_deadline: u8,
    pub rounds: u8,
}

/// Short periods and short times.
const SMALL: Look = Look {
    places: 4,
    periods: [4, 5, 6, 8, 10, 12, 15, 20],
    table: Shape {
        unit: 1,
        low: 0,
        high: 2,
        step: 2,
        pairs: 3,
        weight: 5,
    },
    low_deadline: 1,
    high_deadline: 12,
    rounds: 3,
};

/// Longer periods, of which many divide each other.
const MEDIUM: Look = Look {
    places: 4,
    periods: [6, 8, 12, 12, 24, 24, 30, 30],
    table: Shape {
        unit: 1,
        low: 1,
        high: 4,
        step: 4,
        pairs: 3,
        weight: 9,
    },
    low_deadline: 4,
    high_deadline: 30,
    rounds: 3,
};

/// Times with which the work left reaches 256 ticks.
const LONG: Look = Look {
    places: 4,
    periods: [40, 60, 60, 100, 120, 120, 150, 300],
    table: Shape {
        unit: 1,
        low: 40,
        high: 240,
        step: 60,
        pairs: 2,
        weight: 3,
    },
    low_deadline: 60,
    high_deadline: 254,
    rounds: 8,
};

/// Times of which a few reach 256 ticks, and long gaps in which all is served.
const GAPPED: Look = Look {
    places: 8,
    periods: [600, 600, 600, 600, 600, 600, 1200, 300],
    table: Shape {
        unit: 64,
        low: 1,
        high: 2,
        step: 1,
        pairs: 2,
        weight: 3,
    },
    low_deadline: 30,
    high_deadline: 254,
    rounds: 3,
};

/// More work than time: what is left grows from round to round.
const LOADED: Look = Look {
    places: 4,
    periods: [4, 5, 6, 8, 10, 12, 15, 20],
    table: Shape {
        unit: 1,
        low: 2,
        high: 9,
        step: 1,
        pairs: 1,
        weight: 7,
    },
    low_deadline: 1,
    high_deadline: 60,
    rounds: 8,
};

/// Weights whose product passes 64 bits.
const HEAVY: Look = Look {
    places: 4,
    periods: [12, 20, 20, 24, 24, 30, 40, 60],
    table: Shape {
        unit: 1,
        low: 1,
        high: 9,
        step: 9,
        pairs: 2,
        weight: 32767,
    },
    low_deadline: 8,
    high_deadline: 60,
    rounds: 8,
};

/// One of the looks.
pub(crate) fn draw_look(g: &mut Generator) -> Look {
    match g.below(10) {
        0 | 1 | 2 => SMALL,
        3 | 4 => MEDIUM,
        5 => LONG,
        6 => LOADED,
        7 | 8 => GAPPED,
        _ => HEAVY,
    }
}

/// A task, mostly at one of the look's places, and mostly with no phase.
fn draw_enter(g: &mut Generator, look: &Look) -> Edit {
    let place = if g.one_in(8) {
        g.below(16)
    } else {
        g.below(look.places as u32)
    };
    let period = g.pick(&look.periods);
    let phase = if g.one_in(3) {
        g.below(period as u32)
    } else {
        0
    };
    let deadline = g.between(look.low_deadline as u32, look.high_deadline as u32);
    Edit::Enter(Entering {
        place: place as u8,
        period,
        phase: phase as u16,
        deadline: deadline as u8,
        table: draw(g, &look.table),
    })
}

/// A task of which any part may be wrong.
fn draw_wrong_enter(g: &mut Generator, look: &Look) -> Edit {
    let place = if g.one_in(4) { g.between(16, 255) } else { 0 };
    let period = match g.below(8) {
        0 => 0,
        1 => g.between(4097, 65535),
        2 => g.between(3500, 4096),
        3 => 1,
        _ => 24,
    };
    let phase = if g.one_in(4) { period } else { 0 };
    let deadline = match g.below(8) {
        0 => 0,
        1 => 255,
        _ => 9,
    };
    let table = if g.one_in(3) {
        unlawful(g)
    } else {
        draw(g, &look.table)
    };
    Edit::Enter(Entering {
        place: place as u8,
        period: period as u16,
        phase: phase as u16,
        deadline,
        table,
    })
}

/// An opening table of up to three pairs.
fn draw_opening(g: &mut Generator) -> Edit {
    let shape = Shape {
        unit: 1,
        low: 0,
        high: 6,
        step: 5,
        pairs: 3,
        weight: 9,
    };
    Edit::Opening(draw(g, &shape))
}

/// An edit that is mostly refused.
fn draw_wrong(g: &mut Generator, look: &Look) -> Edit {
    match g.below(8) {
        0 => Edit::Withdraw(g.between(16, 255) as u8),
        1 => Edit::Withdraw(g.below(16) as u8),
        2 => Edit::Opening(unlawful(g)),
        3 => Edit::Rounds(if g.one_in(2) {
            0
        } else {
            g.between(9, 255) as u8
        }),
        _ => draw_wrong_enter(g, look),
    }
}

/// An edit that sets the rounds.
fn draw_rounds(g: &mut Generator, look: &Look) -> Edit {
    Edit::Rounds(g.between(1, look.rounds as u32) as u8)
}

/// An edit, right or wrong.
fn draw_edit(g: &mut Generator, look: &Look) -> Edit {
    match g.below(12) {
        0 => Edit::Withdraw(g.below(4) as u8),
        1 => draw_opening(g),
        2 => draw_rounds(g, look),
        3 | 4 => draw_wrong(g, look),
        _ => draw_enter(g, look),
    }
}

/// The edit at a step of a run: the first sets the rounds.
pub(crate) fn draw_step(g: &mut Generator, look: &Look, step: u32) -> Edit {
    if step == 0 {
        draw_rounds(g, look)
    } else {
        draw_edit(g, look)
    }
}
