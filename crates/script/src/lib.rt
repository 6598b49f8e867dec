//! A script of calls on one book: what each line prints, and where it leads.
#![tactic(auto)]

mod buffer;
mod drafts;
mod laws;
mod plans;
mod reading;
mod scripts;

pub use buffer::LineBuffer;
pub use laws::{buffer_tells_meaning, script_reads_lines};
pub use reading::Reading;
pub use scripts::ScriptBook;
