//! Gathering the bytes of a line, and reading it.
ghost use Rattle.std.specs.Prelude.{◌≡◌, [], length, ◌==◌};
ghost use Rattle.script.specs.Buffers.{gather, gathered, added, told};

use crate::buffer::LineBuffer;
use analysis::ShortList;
use lines::{Line, read_line};

impl LineBuffer {
    /// A buffer with no byte.
    pub fn new() -> LineBuffer
        ensures { gathered result ≡ gather [] }
    {
        LineBuffer {
            bytes: ShortList::new(0),
            over: false,
        }
    }

    /// Adds a byte to the line.
    pub fn push(&mut self, byte: u8)
        ensures { gathered self.new ≡ added (gathered self.old) byte }
    {
        if self.bytes.push(byte).is_err() {
            self.over = true;
        }
    }

    /// Forgets the bytes, for the next line.
    pub fn clear(&mut self)
        ensures { gathered self.new ≡ gather [] }
    {
        self.bytes.clear();
        self.over = false;
    }

    /// Whether no byte is gathered.
    pub fn is_empty(&self) -> bool
        ensures { result ≡ (length (gathered self.now).text == 0) }
    {
        self.bytes.as_slice().is_empty()
    }

    /// Reads the line that is gathered.
    pub fn read(&self) -> Line
        ensures { result ≡ told (gathered self.now) }
    {
        let line = self.bytes.as_slice();
        if !self.over {
            read_line(line)
        } else if matches!(line, [b'#', ..]) {
            Line::Passed
        } else {
            Line::Unreadable
        }
    }
}
