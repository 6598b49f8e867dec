//! A plan: what a draft issues, which answers questions and is not changed.
ghost use Rattle.std.specs.Prelude.{◌≡◌, ◌≤◌, None, slice_index_or};
ghost use Rattle.book.specs.Drafts.{draft_book, plan_book};
ghost use Rattle.board.specs.Model.{window};
ghost use Rattle.board.specs.Places.{place_of};
ghost use Rattle.board.specs.Tables.{table_pairs};

use crate::drafts::Draft;
use board::{Task, TimeTable};

mod asks;
mod exact;
mod rounds;
mod sheets;

/// An issued book: it answers questions, and is reopened to be edited.
#[derive(Drop)]
pub struct Plan {
    draft: Draft,
}

impl Draft {
    /// The plan of the draft.
    pub fn issue(self) -> Plan
        ensures { plan_book result ≡ draft_book self }
    {
        Plan { draft: self }
    }
}

impl Plan {
    /// The draft of the plan, to be edited again.
    pub fn reopen(self) -> Draft
        ensures { draft_book result ≡ plan_book self }
    {
        let Plan { draft } = self;
        draft
    }

    /// The draft that was issued, to be read.
    pub fn draft(&self) -> &Draft
        ensures { draft_book result.now ≡ plan_book self.now }
    {
        &self.draft
    }

    /// The task at a place; none where the place is empty or above 15.
    pub fn entry(&self, place: u8) -> Option<Task>
        ensures { place_of result ≡ slice_index_or (plan_book self.now).places place None }
    {
        self.draft.entry(place)
    }

    /// The opening table.
    pub fn opening_table(&self) -> TimeTable
        ensures { table_pairs result ≡ (plan_book self.now).opening }
    {
        self.draft.opening_table()
    }

    /// How many rounds the window has.
    pub fn round_count(&self) -> u8
        ensures { result ≡ (plan_book self.now).rounds }
    {
        self.draft.round_count()
    }

    /// The tick at which the window ends.
    fn window(&self) -> u32
        ensures is { result ≡ window (plan_book self.now) }
        ensures bound { result ≤ 32768 }
    {
        self.draft.rounds as u32 * self.draft.hyperperiod() as u32
    }
}
