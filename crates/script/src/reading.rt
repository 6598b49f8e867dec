//! The reading of a script, as its bytes come in.
use crate::buffer::LineBuffer;

mod taking;

/// Where the reading of a script stands: the line that is gathered, how many lines were ended, and whether charts are drawn.
#[derive(Drop)]
pub struct Reading {
    line: LineBuffer,
    ended: u64,
    chart: bool,
}
