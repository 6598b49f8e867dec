//! Taking the bytes of a script.
ghost use Rattle.std.specs.Prelude.{◌≡◌, [], IfOk};
ghost use Rattle.script.specs.Buffers.{gather};
ghost use Rattle.script.specs.Scripts.{held, progress, line_ended, byte_taken, taken, finished};

use crate::buffer::LineBuffer;
use crate::reading::Reading;
use crate::scripts::ScriptBook;
use std::alloc::AllocError;

impl Reading {
    /// Before the first byte of a script.
    pub fn new(chart: bool) -> Reading
        ensures { held result ≡ record { chart = chart; gathered = gather []; ended = 0 } }
    {
        Reading {
            line: LineBuffer::new(),
            ended: 0,
            chart,
        }
    }

    /// Ends the line, and answers it.
    fn end_line(&mut self, book: ScriptBook, out: &mut Vec<u8>) -> Result<ScriptBook, AllocError>
        ensures { IfOk result (λ b. progress self.new b out.new.items ≡ line_ended (progress self.old book out.old.items)) }
    {
        self.ended = self.ended.saturating_add(1);
        let line = self.line.read();
        self.line.clear();
        book.line(&line, self.ended, self.chart, out)
    }

    /// Takes a byte of the script, and answers the line that it ends.
    fn take_byte(
        &mut self,
        book: ScriptBook,
        byte: u8,
        out: &mut Vec<u8>,
    ) -> Result<ScriptBook, AllocError>
        ensures { IfOk result (λ b. progress self.new b out.new.items ≡ byte_taken (progress self.old book out.old.items) byte) }
    {
        if byte != b'\n' {
            self.line.push(byte);
            return Ok(book);
        }
        self.end_line(book, out)
    }

    /// Takes bytes of the script, and answers each line that they end.
    pub fn take(
        &mut self,
        mut book: ScriptBook,
        bytes: &[u8],
        out: &mut Vec<u8>,
    ) -> Result<ScriptBook, AllocError>
        ensures { IfOk result (λ b. progress self.new b out.new.items ≡ taken (progress self.old book out.old.items) bytes.now) }
    {
        for byte in bytes {
            book = self.take_byte(book, *byte, out)?;
        }
        Ok(book)
    }

    /// Answers the last line, where the script does not end with a line feed.
    pub fn finish(&mut self, book: ScriptBook, out: &mut Vec<u8>) -> Result<ScriptBook, AllocError>
        ensures { IfOk result (λ b. progress self.new b out.new.items ≡ finished (progress self.old book out.old.items)) }
    {
        if self.line.is_empty() {
            return Ok(book);
        }
        self.end_line(book, out)
    }
}
