//! The edits of a draft.
ghost use Rattle.std.specs.Prelude.{◌≡◌, if◌then◌else◌, nat_eq};
ghost use Rattle.board.specs.Model.{new_book};
ghost use Rattle.board.specs.Places.{places};
ghost use Rattle.book.specs.Moves.{bound_refusal, with_places, enter_refusal, entered, withdraw_refusal, withdrawn, opening_refusal, with_opening, rounds_refusal, with_rounds};
ghost use Rattle.book.specs.Refusals.{answer};
ghost use Rattle.book.specs.Drafts.{draft_book};

use crate::drafts::Draft;
use crate::refusals::Refusal;
use analysis::Pair;
use board::{Entries, Task, TimeTable};

impl Draft {
    /// An empty draft: no task, no opening work, one round.
    pub fn new() -> Draft
        ensures { draft_book result ≡ new_book }
    {
        Draft {
            entries: Entries::empty(),
            opening: TimeTable::no_work(),
            rounds: 1,
        }
    }

    // Stays: the parts of a task are parameters, as they come unchecked and a `Task` is lawful; a struct of them would be no plainer.
    /// Enters a task at a place, in the place of what stood there.
    pub fn enter(
        &mut self,
        place: u8,
        period: u16,
        phase: u16,
        deadline: u8,
        table: &[Pair],
    ) -> Result<(), Refusal>
        ensures answers { answer result ≡ enter_refusal (draft_book self.old) place (record { period = period; phase = phase; deadline = deadline; pairs = table.now }) }
        ensures leaves { draft_book self.new ≡ entered (draft_book self.old) place (record { period = period; phase = phase; deadline = deadline; pairs = table.now }) }
    {
        if place > 15 {
            return Err(Refusal::Place);
        }
        if period == 0 || period > 4096 {
            return Err(Refusal::Period);
        }
        if phase >= period {
            return Err(Refusal::Phase);
        }
        if deadline == 0 || deadline > 254 {
            return Err(Refusal::Deadline);
        }
        let table = TimeTable::new(table).ok_or(Refusal::Table)?;
        let mut next = self.entries;
        let task = Task {
            period,
            phase,
            deadline,
            table,
        };
        next.put(place, task);
        self.adopt(next)
    }

    /// Takes over the entries, if their hyperperiod and the jobs in it are small enough.
    fn adopt(&mut self, next: Entries) -> Result<(), Refusal>
        ensures answers { answer result ≡ bound_refusal (places next) }
        ensures leaves { draft_book self.new ≡ (if nat_eq (bound_refusal (places next)) 0 then with_places (draft_book self.old) (places next) else draft_book self.old) }
    {
        let Some(hyper) = next.checked_hyperperiod() else {
            return Err(Refusal::Hyperperiod);
        };
        if next.jobs(hyper) > 64 {
            return Err(Refusal::Jobs);
        }
        self.entries = next;
        Ok(())
    }

    /// Takes the task at a place away.
    pub fn withdraw(&mut self, place: u8) -> Result<(), Refusal>
        ensures answers { answer result ≡ withdraw_refusal (draft_book self.old) place }
        ensures leaves { draft_book self.new ≡ withdrawn (draft_book self.old) place }
    {
        if place > 15 {
            return Err(Refusal::Place);
        }
        if self.entries.get(place).is_none() {
            return Err(Refusal::Empty);
        }
        self.entries.clear(place);
        Ok(())
    }

    /// Sets the opening table: the work that is present at tick 0.
    pub fn opening(&mut self, table: &[Pair]) -> Result<(), Refusal>
        ensures answers { answer result ≡ opening_refusal table.now }
        ensures leaves { draft_book self.new ≡ with_opening (draft_book self.old) table.now }
    {
        self.opening = TimeTable::new(table).ok_or(Refusal::Table)?;
        Ok(())
    }

    /// Sets the rounds: how many hyperperiods the window has.
    pub fn rounds(&mut self, rounds: u8) -> Result<(), Refusal>
        ensures answers { answer result ≡ rounds_refusal rounds }
        ensures leaves { draft_book self.new ≡ with_rounds (draft_book self.old) rounds }
    {
        if rounds == 0 || rounds > 8 {
            return Err(Refusal::Rounds);
        }
        self.rounds = rounds;
        Ok(())
    }
}
