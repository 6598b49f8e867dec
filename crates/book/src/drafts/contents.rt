//! Reading what a draft holds.
ghost use Rattle.std.specs.Prelude.{◌≡◌, None, slice_index_or};
ghost use Rattle.book.specs.Drafts.{draft_book};
ghost use Rattle.board.specs.Model.{hyperperiod};
ghost use Rattle.board.specs.Places.{place_of};
ghost use Rattle.board.specs.Tables.{table_pairs};

use crate::drafts::Draft;
use board::{Task, TimeTable};

impl Draft {
    /// The task at a place; none where the place is empty or above 15.
    pub fn entry(&self, place: u8) -> Option<Task>
        ensures { place_of result ≡ slice_index_or (draft_book self.now).places place None }
    {
        self.entries.get(place)
    }

    /// The opening table.
    pub fn opening_table(&self) -> TimeTable
        ensures { table_pairs result ≡ (draft_book self.now).opening }
    {
        self.opening
    }

    /// How many rounds the window has.
    pub fn round_count(&self) -> u8
        ensures { result ≡ (draft_book self.now).rounds }
    {
        self.rounds
    }

    /// The hyperperiod of the tasks.
    pub(crate) fn hyperperiod(&self) -> u16
        ensures { result ≡ hyperperiod (draft_book self.now).places }
    {
        self.entries.hyperperiod()
    }
}
