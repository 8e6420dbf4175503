// A line of a text that cannot be taken: its number, the reason, and the line with a caret below the place.
use loosen::fields::{Fault, Kind, Reason};
use loosen::line::Line;
use loosen::survey::Untaken;
use std::fmt;
use text::Page;

// How many bytes of a line, and of a field in the reason, are shown.
const SHOWN: usize = 72;

const QUOTED: usize = 24;

// Why a line is no task or no job, in words.
#[derive(Clone, Copy)]
struct Because {
    reason: Reason,
    kind: Kind,
}

impl Because {
    // The numbers that are due.
    fn due(self) -> &'static str {
        match self.kind {
            Kind::Task => "C, Tmin, Tmax and E",
            Kind::Job => "C, L, Tmin, Tmax and E",
        }
    }

    // How many numbers are one too many.
    fn one_more(self) -> &'static str {
        match self.kind {
            Kind::Task => "five",
            Kind::Job => "six",
        }
    }
}

impl fmt::Display for Because {
    fn fmt<W: fmt::Write>(&self, f: &mut fmt::Formatter<W>) -> fmt::Result {
        let due = self.due();
        match self.reason {
            Reason::LongName => write!(f, "the name has more than 20 bytes"),
            Reason::OddName => write!(f, "the name is not UTF-8"),
            Reason::Missing => write!(f, "a number is missing"),
            Reason::NotWhole => write!(f, "is not a whole number"),
            Reason::LeadingZero => write!(f, "begins with a zero"),
            Reason::TooLarge => write!(f, "is above 4,294,967,295"),
            Reason::TooCostly => write!(f, "is above 16,000,000,000"),
            Reason::TooFew => write!(f, "too few fields: {due} are due"),
            Reason::TooMany => write!(f, "too many fields: a name, {due} are due"),
            Reason::NumberForName => {
                write!(
                    f,
                    "{} numbers: a name must not be a number",
                    self.one_more()
                )
            }
        }
    }
}

// Whether a reason is one of a number that stands there.
fn is_of_number(reason: Reason) -> bool {
    matches!(
        reason,
        Reason::NotWhole | Reason::LeadingZero | Reason::TooLarge | Reason::TooCostly
    )
}

// Puts the first bytes of a text, a blank for each control character.
fn put_shown(page: &mut Page, text: &[u8], most: usize) {
    for byte in text.iter().take(most) {
        page.put(&[if byte.is_ascii_control() { b' ' } else { *byte }]);
    }
}

// Puts the reason, behind the field at fault in quotes where it is one of a number that stands there.
fn put_fault(page: &mut Page, line: &Line, fault: Fault) {
    let Fault { reason, field } = fault;
    if is_of_number(reason) {
        write!(page, "\"");
        put_shown(page, line.field(field), QUOTED);
        write!(page, "\" ");
    }
    let kind = line.kind;
    write!(page, "{}", Because { reason, kind });
}

// Puts a line of its own, four columns in, and a caret below one of its fields.
fn put_pointed(page: &mut Page, line: &Line, field: usize) {
    write!(page, "\n    ");
    put_shown(page, line.text, SHOWN);
    let blank = text::columns(line.before(field)).min(SHOWN);
    writeln!(page, "\n    {:blank$}^", "");
}

// Puts a line that cannot be taken; the caret stands below its first field where the table is full.
pub(crate) fn put_untaken(page: &mut Page, untaken: &Untaken) {
    let line = &untaken.line;
    write!(page, "line {}: ", untaken.number.saturating_add(1));
    match untaken.fault {
        Some(fault) => {
            put_fault(page, line, fault);
            put_pointed(page, line, fault.field);
        }
        None => {
            write!(page, "a table has at most 32 tasks");
            put_pointed(page, line, 0);
        }
    }
}
