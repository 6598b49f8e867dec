//! A time table: 1 to 16 pairs of a time and a weight.
ghost use Rattle.std.specs.Prelude.{◌≡◌, ◌≤◌, true, take};
ghost use Rattle.board.specs.Pairs.{lawful};

use analysis::Pair;

mod build;

// Stays: `ShortList` was tried, and what is above did not prove: the check builds no plan for a generic struct in the Option of a place.
/// A time table: its first `len` pairs, whose times rise strictly and whose weights, of at least 1, add up to at most 65,535.
#[derive(Clone, Copy)]
pub struct TimeTable {
    held: [Pair; 16],
    len: u8,
    ghost fits: { len ≤ 16 },
    ghost sound: { lawful (take len held) ≡ true },
}
