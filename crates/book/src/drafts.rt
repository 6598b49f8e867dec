//! A draft: a book that is edited, always lawful.
ghost use Rattle.std.specs.Prelude.{◌≡◌, true};
ghost use Rattle.board.specs.Model.{book_lawful};
ghost use Rattle.board.specs.Places.{places};

use board::{Entries, TimeTable};

mod contents;
mod edits;
pub mod plans;

/// A book that is edited: lawful entries at sixteen places, with a hyperperiod of at most 4,096 and at most 64 jobs in it; the
/// opening table; 1 to 8 rounds.
#[derive(Drop)]
pub struct Draft {
    entries: Entries,
    opening: TimeTable,
    rounds: u8,
    ghost sound: { book_lawful (places entries) rounds ≡ true },
}
