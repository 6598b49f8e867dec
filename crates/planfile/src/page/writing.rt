//! Writing on a page.
ghost use Rattle.std.specs.Prelude.{◌≡◌, ◌+◌, ◌<◌, ◌≤◌, [], ◌∷◌, ◌++◌, length, decimal};
ghost use Rattle.planfile.specs.Pages.{text, padded};

use crate::page::Page;
use arrayvec::ArrayVec;
use itoa::Buffer;

impl Page {
    /// An empty page.
    pub(crate) fn new() -> Page
        ensures { text result ≡ [] }
    {
        Page {
            bytes: ArrayVec::new(),
        }
    }

    /// Writes one byte after the others.
    pub(crate) fn push(&mut self, byte: u8)
        requires { length (text self.old) < 512 }
        ensures { text self.new ≡ text self.old ++ byte ∷ [] }
    {
        self.bytes.push(byte);
    }

    /// Writes several bytes.
    pub(crate) fn write(&mut self, bytes: &[u8])
        requires { length (text self.old) + length bytes.now ≤ 512 }
        ensures { text self.new ≡ text self.old ++ bytes.now }
    {
        let Ok(()) = self.bytes.try_extend_from_slice(bytes) else {
            unreachable!()
        };
    }

    /// Writes a number in decimal, without leading noughts.
    pub(crate) fn number(&mut self, n: u64)
        requires { length (text self.old) + length (decimal n) ≤ 512 }
        ensures { text self.new ≡ text self.old ++ decimal n }
    {
        let mut digits = Buffer::new();
        self.write(digits.format(n).as_bytes());
    }

    /// Copies the text to a page whose other bytes are nought, and answers how many bytes it has.
    pub(crate) fn copy_to(&self, page: &mut [u8; 512]) -> usize
        ensures writes { page.new ≡ padded (text self.now) }
        ensures answers { result ≡ length (text self.now) }
    {
        let bytes = self.bytes.as_slice();
        *page = [0; 512];
        page[..bytes.len()].copy_from_slice(bytes);
        bytes.len()
    }
}
