//! The contents of a plan file: an entry for each task, read and checked whole.
ghost use Rattle.std.specs.Prelude.{◌≡◌, ◌+◌, ◌*◌, ◌<◌, ◌≤◌, true, false, length, Some, None, MatchResult};
ghost use Rattle.planfile.specs.Faults.{told, file_fault};
ghost use Rattle.planfile.specs.Fields.{byte as field};
ghost use Rattle.planfile.specs.Contents.{entry, used, placed, sized, body_end, entry_number, contents_fit, contents, contents_end, contents_fault, last_end};

use crate::faults::{Fault, FileFault};
use crate::fields::Fields;
use analysis::ShortList;

/// An entry of the contents: the place of a task, and where its body starts and how many bytes it has.
#[derive(Clone, Copy)]
pub(crate) struct Entry {
    pub(crate) place: u8,
    pub(crate) start: u16,
    pub(crate) size: u16,
}

impl Entry {
    /// The entry at an offset.
    fn read(fields: &Fields, at: usize) -> Result<Entry, Fault>
        ensures { MatchResult result (λ e. (at + 4 < length fields.now.file.now) × (e ≡ entry fields.now.file.now at)) (λ e. (length fields.now.file.now ≤ at + 4) × (e ≡ fields.now.missing)) }
    {
        let place = fields.byte(at)?;
        let start = fields.word(at + 1)?;
        let size = fields.word(at + 3)?;
        Ok(Entry { place, start, size })
    }

    /// Where the body ends.
    fn end(&self) -> usize
        ensures { result ≡ body_end self.now }
    {
        self.start as usize + self.size as usize
    }
}

/// Whether one of the entries uses the place.
fn is_used(entries: &[Entry], place: u8) -> bool
    ensures { result ≡ used entries.now place }
{
    entries.iter().any(|entry| entry.place == place)
}

/// The number of entries, where the file is long enough for them.
fn count(file: &[u8]) -> Result<usize, Fault>
    ensures { MatchResult result (λ n. (n ≡ field file.now 0) × (contents_fit file.now ≡ true)) (λ e. (told e ≡ file_fault 20 0) × (contents_fit file.now ≡ false)) }
{
    let missing = Fault::file(FileFault::Contents, 0);
    let count = Fields { file, missing }.byte(0)? as usize;
    if count > 16 || file.len() < 1 + 5 * count {
        return Err(missing);
    }
    Ok(count)
}

/// The contents of a plan file, as far as they are read: the entries, and where the last body ends.
#[derive(Clone, Copy)]
pub(crate) struct Contents {
    pub(crate) entries: ShortList<Entry, 16>,
    pub(crate) end: usize,
}

impl Contents {
    /// Whether the place is one that no entry uses, and the body starts where the last body ends and lies in the file.
    fn admits(&self, file: &[u8], next: &Entry) -> bool
        ensures { result ≡ placed file.now self.now.end self.now.entries.items next.now }
    {
        next.place <= 15
            && !is_used(self.entries.as_slice(), next.place)
            && next.start as usize == self.end
            && next.end() <= file.len()
    }

    /// Reads the entry at an offset and checks it, where the entries before it are these and are right.
    fn next_entry(&self, file: &[u8], at: usize) -> Result<Entry, Fault>
        requires { at + 4 < length file.now }
        ensures { MatchResult result (λ e. (e ≡ entry file.now at) × (entry_number file.now self.now.end self.now.entries.items (entry file.now at) ≡ 0)) (λ e. (told e ≡ file_fault (entry_number file.now self.now.end self.now.entries.items (entry file.now at)) at) × (1 ≤ entry_number file.now self.now.end self.now.entries.items (entry file.now at))) }
    {
        let missing = Fault::file(FileFault::Entry, at);
        let entry = Entry::read(&Fields { file, missing }, at)?;
        if !self.admits(file, &entry) {
            return Err(missing);
        }
        let missing = Fault::file(FileFault::Length, at);
        if entry.size < 6 {
            return Err(missing);
        }
        let pairs = Fields { file, missing }.byte(entry.start as usize + 5)?;
        if entry.size != 6 + 3 * pairs as u16 {
            return Err(missing);
        }
        Ok(entry)
    }

    /// Reads the contents and checks them whole.
    pub(crate) fn read(file: &[u8]) -> Result<Contents, Fault>
        ensures { MatchResult result (λ c. (contents_fault file.now ≡ None) × (c.entries.items ≡ contents file.now) × (c.end ≡ last_end (contents_end file.now) (contents file.now))) (λ e. contents_fault file.now ≡ Some (told e)) }
    {
        let count = count(file)?;
        let blank = Entry {
            place: 0,
            start: 0,
            size: 0,
        };
        let mut read = Contents {
            entries: ShortList::new(blank),
            end: 1 + 5 * count,
        };
        // Stays: entry `i` is read at its offset by the reader that answers the fault: chunks would go past it, and offsets by `step_by` are no plainer.
        for i in 0..count {
            let entry = read.next_entry(file, 1 + 5 * i)?;
            let Ok(()) = read.entries.push(entry) else {
                unreachable!()
            };
            read.end = entry.end();
        }
        Ok(read)
    }
}
