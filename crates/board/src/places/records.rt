//! Reading and changing one place.
ghost use Rattle.std.specs.Prelude.{◌≡◌, replicate, Some, None, slice_index_or, slice_set};
ghost use Rattle.board.specs.Places.{places, entry_of, place_of};

use crate::places::Entries;
use crate::tasks::Task;

impl Entries {
    /// No task at any place.
    pub fn empty() -> Entries
        ensures { places result ≡ replicate 16 None }
    {
        Entries { at: [None; 16] }
    }

    /// What stands at a place; nothing at a place above 15.
    pub fn get(&self, place: u8) -> Option<Task>
        ensures { place_of result ≡ slice_index_or (places self.now) place None }
    {
        if place > 15 {
            return None;
        }
        self.at[place as usize]
    }

    /// Puts a task at a place, and leaves the others; a place above 15 changes nothing.
    pub fn put(&mut self, place: u8, task: Task)
        ensures { places self.new ≡ slice_set (places self.old) place (Some (entry_of task)) }
    {
        if place > 15 {
            return;
        }
        self.at[place as usize] = Some(task);
    }

    /// Clears a place, and leaves the others; a place above 15 changes nothing.
    pub fn clear(&mut self, place: u8)
        ensures { places self.new ≡ slice_set (places self.old) place None }
    {
        if place > 15 {
            return;
        }
        self.at[place as usize] = None;
    }
}
