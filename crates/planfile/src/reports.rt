//! The report on a plan file.
ghost use Rattle.std.specs.Prelude.{◌≡◌, ◌+◌, ◌<◌, ◌≤◌, ◌++◌, length, None, slice_index_or};
ghost use Rattle.book.specs.Drafts.{plan_book};
ghost use Rattle.planfile.specs.Faults.{told};
ghost use Rattle.planfile.specs.Pages.{text, padded};
ghost use Rattle.planfile.specs.Reports.{fault_line, place_line, place_lines, book_text, report_text};

use crate::faults::Fault;
use crate::loader::load;
use crate::page::Page;
use analysis::{Count, DeadlineRule};
use book::{Draft, Plan};

/// Writes the line of an occupied place: its jobs in round 0 and the sum of their late weights under the deadline rule, or why there is
/// no answer.
fn write_place(page: &mut Page, plan: &Plan, place: u8)
    requires listed { place < 16 }
    requires room { length (text page.old) ≤ 400 }
    ensures writes { text page.new ≡ text page.old ++ place_line (plan_book plan.now) place (slice_index_or (plan_book plan.now).places place None) }
    ensures short { length (text page.new) ≤ length (text page.old) + 15 }
{
    let Some(_) = plan.draft().entry(place) else {
        return;
    };
    let mut answer = [Count::new(0); 257];
    let mut work = [Count::new(0); 257];
    match plan.task(&DeadlineRule, place, 0, &mut answer, &mut work) {
        Ok(found) => page.line(place as u64, found.jobs as u64, found.late),
        Err(refusal) => page.refused_line(place as u64, refusal.number() as u64),
    }
}

/// The page of a plan: a header, and a line for each occupied place.
fn plan_page(plan: &Plan) -> Page
    ensures writes { text result ≡ book_text (plan_book plan.now) }
    ensures short { length (text result) ≤ 256 }
{
    let mut page = Page::new();
    page.write(b"place jobs late\n");
    // Stays: no plainer otherwise: the loop runs over the places themselves, of which the plan is asked, and counts nothing beside.
    for place in 0..16 {
        write_place(&mut page, plan, place);
    }
    page
}

// Stays: no `Display`, as the proof would not close: the contract of `write!` says nothing of when it fails, and a report cannot fail.
/// The page of a fault.
fn fault_page(fault: Fault) -> Page
    ensures writes { text result ≡ fault_line (told fault) }
    ensures short { length (text result) ≤ 256 }
{
    let mut page = Page::new();
    page.write(b"fault ");
    page.line(
        fault.layer() as u64,
        fault.number() as u64,
        fault.offset() as u64,
    );
    page
}

/// Writes the report on a plan file on a page, whose unused bytes are left nought, and answers how many bytes are used, at most 256.
pub fn report(file: &[u8], page: &mut [u8; 512]) -> usize
    ensures writes { page.new ≡ padded (report_text file.now) }
    ensures answers { result ≡ length (report_text file.now) }
    ensures short { result ≤ 256 }
{
    let mut draft = Draft::new();
    let written = match load(&mut draft, file) {
        Ok(()) => plan_page(&draft.issue()),
        Err(fault) => fault_page(fault),
    };
    written.copy_to(page)
}
