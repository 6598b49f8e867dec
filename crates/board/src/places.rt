//! The sixteen places of a book and the tasks at them.
ghost use Rattle.std.specs.Prelude.{◌≡◌, length};

use crate::tasks::Task;

mod counts;
mod records;
mod releases;

/// A table of sixteen records, one for each place.
#[derive(Clone, Copy)]
pub struct Entries {
    at: [Option<Task>; 16],
    ghost sixteen: { length at ≡ 16 },
}
