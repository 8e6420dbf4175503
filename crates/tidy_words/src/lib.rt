// What people are told of a text as an office gives it: each line that cannot be taken, up to ten, and what was passed over. The text is tested
// and not promised; each call is proved to stay within what is lent.
#![tactic(auto)]

mod fault;

use loosen::fields::Kind;
use loosen::survey;
use loosen::survey::Survey;
use std::fmt;
use std::io::Write;
use text::Page;

// Room for all that is told: three lines for each line shown, and two more.
const LONGEST: usize = 3_200;

// So many of something.
#[derive(Clone, Copy)]
struct Count(usize, &'static str);

impl fmt::Display for Count {
    fn fmt<W: fmt::Write>(&self, f: &mut fmt::Formatter<W>) -> fmt::Result {
        let Count(n, name) = *self;
        let plural = if n == 1 { "" } else { "s" };
        write!(f, "{n} {name}{plural}")
    }
}

// How many lines cannot be taken beside those that are shown.
fn put_more(page: &mut Page, untaken: usize) {
    let more = Count(untaken.saturating_sub(survey::MOST_SHOWN), "more such line");
    if 0 < more.0 {
        writeln!(page, "and {more}");
    }
}

// Puts so many of something, where there are any, behind some words. Returns the words for the next.
fn put_count(page: &mut Page, before: &'static str, count: Count) -> &'static str {
    if count.0 == 0 {
        return before;
    }
    write!(page, "{before}{count}");
    ", "
}

// What was passed over, in one line, and nothing where nothing was.
fn put_passed_over(page: &mut Page, survey: &Survey) {
    let comments = Count(survey.comments, "comment");
    let blanks = Count(survey.blanks, "blank line");
    if !survey.has_header && comments.0 == 0 && blanks.0 == 0 {
        return;
    }
    write!(page, "passed over: ");
    let mut before = "";
    if survey.has_header {
        write!(page, "a header line");
        before = ", ";
    }
    before = put_count(page, before, comments);
    put_count(page, before, blanks);
    writeln!(page);
}

// All that is told of a text whose lines are to be of a kind.
fn put_told(page: &mut Page, given: &[u8], kind: Kind) {
    if loosen::LONGEST < given.len() {
        writeln!(page, "the text has more than {} bytes", loosen::LONGEST);
        return;
    }
    let survey = Survey::of(given, kind);
    for untaken in survey.shown() {
        fault::put_untaken(page, untaken);
    }
    put_more(page, survey.untaken);
    put_passed_over(page, &survey);
}

// Tells people, on what is lent as standard error, what they should know of a text, which is nothing of one that is exact.
pub fn tell<W: Write>(to: &mut W, given: &[u8], kind: Kind) {
    let mut room = [0; LONGEST];
    let mut page = Page::new(&mut room);
    put_told(&mut page, given, kind);
    // What cannot be written is let go.
    let _ = page.write_to(to);
}
