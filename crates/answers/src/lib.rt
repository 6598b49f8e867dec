//! The answers of a console as bytes: what each call on a book prints.
#![tactic(auto)]

mod answers;
mod bars;
mod books;
mod charts;
mod responses;
mod tasks;

pub use answers::Answer;
pub use books::{write_draft, write_plan};
pub use charts::write_chart;
pub use responses::write_response;
