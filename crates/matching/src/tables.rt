//! Tables of times and weights, lawful and unlawful ones.
use crate::generator::Generator;
use analysis::{Pair, ShortList};

/// Up to seventeen pairs, so that a table can be one pair too long.
pub type Table = ShortList<Pair, 17>;

/// How a table is drawn: its times begin from `low` to `high` units and rise by 1 to `step` units; it has 1 to `pairs` pairs of
/// weight 1 to `weight`.
#[derive(Clone, Copy)]
pub struct Shape {
    pub unit: u8,
    pub low: u8,
    pub high: u8,
    pub step: u8,
    pub pairs: u8,
    pub weight: u16,
}

/// The table with no pair.
pub(crate) fn empty_table() -> Table {
    ShortList::new(Pair { time: 0, weight: 0 })
}

/// The table of the pairs, without what comes after the seventeenth.
pub(crate) fn table_of(pairs: &[Pair]) -> Table {
    let mut table = empty_table();
    for pair in pairs {
        add_pair(&mut table, pair.time, pair.weight);
    }
    table
}

/// Adds a pair at the end, if there is room.
pub(crate) fn add_pair(table: &mut Table, time: u8, weight: u16) {
    let _ = table.push(Pair { time, weight });
}

/// A table of the shape; it is lawful if `pairs` times `weight` is at most 65,535.
pub(crate) fn draw(g: &mut Generator, shape: &Shape) -> Table {
    let mut table = empty_table();
    let mut units = g.between(shape.low as u32, shape.high as u32) as u8;
    let pairs = g.between(1, shape.pairs as u32);
    for _ in 0..pairs {
        let weight = g.between(1, shape.weight as u32) as u16;
        let time = units.saturating_mul(shape.unit);
        add_pair(&mut table, time, weight);
        if time == 255 {
            break;
        }
        units = units.saturating_add(g.between(1, shape.step as u32) as u8);
    }
    table
}

/// The first numbers as pairs of weight 1, one pair more than a table takes.
fn too_long() -> Table {
    let mut table = empty_table();
    for time in 0..17u8 {
        add_pair(&mut table, time, 1);
    }
    table
}

/// A table that is not lawful: too short, too long, with a weight of 0, with times that do not rise, or too heavy.
pub(crate) fn unlawful(g: &mut Generator) -> Table {
    match g.below(6) {
        0 => empty_table(),
        1 => too_long(),
        2 => table_of(&[Pair { time: 1, weight: 2 }, Pair { time: 4, weight: 0 }]),
        3 => table_of(&[Pair { time: 3, weight: 1 }, Pair { time: 3, weight: 1 }]),
        4 => table_of(&[Pair { time: 9, weight: 1 }, Pair { time: 8, weight: 1 }]),
        _ => table_of(&[
            Pair {
                time: 1,
                weight: 65535,
            },
            Pair { time: 2, weight: 1 },
        ]),
    }
}
