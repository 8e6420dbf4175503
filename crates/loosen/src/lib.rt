// A text as an office or a spreadsheet gives it, written as the strict import takes it, and the names in it. It promises nothing of what it finds
// and writes, so nobody needs to trust it: `tidy::tidied` hands on only what the strict import takes. It ends and stays within what is lent.
#![tactic(auto)]

pub mod fields;
pub mod line;
pub mod survey;

use fields::Kind;
use line::Line;
use survey::Survey;
use task_names::Names;
use text::Page;

// How many bytes a text may have.
pub const LONGEST: usize = 16_384;

// Puts the numbers of a line, a comma between them and a newline behind.
fn put_line(page: &mut Page, line: &Line) {
    for i in 0..line.kind.numbers() {
        if 0 < i {
            page.put(b",");
        }
        page.put(line.number_field(i));
    }
    page.put(b"\n");
}

// Puts a line for each task of a text, where each of its lines can be taken. Returns how many bytes.
pub fn loosen(given: &[u8], out: &mut [u8]) -> Option<usize> {
    let survey = Survey::of(given, Kind::Task);
    if 0 < survey.untaken {
        return None;
    }
    let mut page = Page::new(out);
    for line in survey.tasks() {
        put_line(&mut page, line);
    }
    Some(page.text().len())
}

// The names of the tasks of a text.
pub fn names_in(given: &[u8]) -> Names {
    Survey::of(given, Kind::Task).names()
}
