//! Texts as bytes: numbers in decimal, and the elements of the kinds.
#![tactic(auto)]

mod possible_printable;
mod printable;
mod stopped_printable;
mod writing;

pub use printable::Printable;
pub use writing::{write_ending, write_field, write_number, write_text};
