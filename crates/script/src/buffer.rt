//! A buffer for the bytes of one line.
use analysis::ShortList;

mod gathering;

/// How many bytes of a line are kept.
const LONGEST: usize = 16384;

/// The bytes of a line that are gathered so far: the first 16,384 are kept, and whether there were more.
#[derive(Drop)]
pub struct LineBuffer {
    bytes: ShortList<u8, LONGEST>,
    // Stays: no plainer otherwise: it guards no value, as the bytes that are kept are read in both cases; an enum would hold them twice.
    over: bool,
}
