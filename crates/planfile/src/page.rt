//! A page that text is written on.
mod lines;
mod writing;

use arrayvec::ArrayVec;

/// A text of at most 512 bytes.
#[derive(Drop)]
pub(crate) struct Page {
    bytes: ArrayVec<u8, 512>,
}
