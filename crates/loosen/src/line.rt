// One line of a text as an office or a spreadsheet gives it: where its fields stand, and why they are no task and no job where they are not.
ghost use Rattle.std.specs.Prelude.{◌≤◌, length};

use crate::fields;
use crate::fields::{Fault, Kind, Reason};

// A line without the blanks around it, the byte between its fields, and what it is to be.
#[derive(Clone, Copy, Default)]
pub struct Line<'a> {
    pub text: &'a [u8],
    pub kind: Kind,
    separator: u8,
}

// A form feed is none, so that `trim_ascii` would take too much.
fn is_blank(byte: u8) -> bool {
    matches!(byte, b' ' | b'\t' | b'\r' | b'\n')
}

fn trim_start(text: &[u8]) -> &[u8]
    ensures { length result.now ≤ length text.now }
{
    let first = text.iter().position(|b| !is_blank(*b));
    &text[first.unwrap_or(text.len())..]
}

fn trim_end(text: &[u8]) -> &[u8] {
    match text.iter().rposition(|b| !is_blank(*b)) {
        Some(last) => &text[..=last],
        None => &[],
    }
}

// The byte between the fields of a line: a semicolon where it has one, so that `60,5` is no two fields there, else a comma, else a tab.
fn separator_of(text: &[u8]) -> u8 {
    if text.contains(&b';') {
        return b';';
    }
    if text.contains(&b',') { b',' } else { b'\t' }
}

// What stands behind the first of a byte, and nothing where there is none.
fn behind(text: &[u8], byte: u8) -> &[u8]
    ensures { length result.now ≤ length text.now }
{
    match text.iter().position(|b| *b == byte) {
        Some(i) => &text[i + 1..],
        None => &[],
    }
}

impl<'a> Line<'a> {
    // The line of a text, its newline with it.
    pub(crate) fn new(text: &'a [u8], kind: Kind) -> Self {
        let text = trim_end(trim_start(text));
        Line {
            text,
            kind,
            separator: separator_of(text),
        }
    }

    // How many fields it has.
    fn field_count(&self) -> usize {
        let separator = self.separator;
        self.text.split(|b| *b == separator).count()
    }

    // The field of a number, from 0, without the blanks around it; empty where it has fewer.
    pub fn field(&self, number: usize) -> &'a [u8] {
        let separator = self.separator;
        let field = self.text.split(|b| *b == separator).nth(number);
        trim_end(trim_start(field.unwrap_or(&[])))
    }

    // What stands from a field on; nothing where it has fewer.
    fn from_field(&self, number: usize) -> &'a [u8]
        ensures { length result.now ≤ length self.now.text.now }
    {
        let mut rest = self.text;
        for _ in 0..number {
            rest = behind(rest, self.separator);
        }
        rest
    }

    // What stands in front of a field, the blanks there with it; all where it has fewer.
    pub fn before(&self, number: usize) -> &'a [u8] {
        let separator = self.separator;
        let rest = self.from_field(number);
        let first = rest.iter().position(|b| *b == separator || !is_blank(*b));
        let blanks = first.unwrap_or(rest.len());
        &self.text[..self.text.len() - rest.len() + blanks]
    }

    // The first field that is no name.
    fn first_number(&self) -> usize
        ensures { result ≤ 1 }
    {
        usize::from(self.field_count() != self.kind.numbers())
    }

    // The field of one of its numbers, from 0.
    pub(crate) fn number_field(&self, i: usize) -> &'a [u8] {
        self.field(self.first_number().saturating_add(i))
    }

    // One of its numbers, from 0.
    pub fn number(&self, i: usize) -> Result<u64, Reason> {
        fields::number_in(self.number_field(i), self.kind.greatest(i))
    }

    // Its name, empty where it has none.
    pub(crate) fn name(&self) -> &'a [u8] {
        if self.kind.numbers() < self.field_count() {
            return self.field(0);
        }
        &[]
    }

    fn check_numbers(&self) -> Result<(), Fault> {
        let first = self.first_number();
        for i in 0..self.kind.numbers() {
            let field = first + i;
            self.number(i).map_err(|reason| Fault::new(reason, field))?;
        }
        Ok(())
    }

    // Whether it is the numbers of its kind, with or without a name, or why it is not.
    pub(crate) fn check(&self) -> Result<(), Fault> {
        let count = self.field_count();
        let numbers = self.kind.numbers();
        if count < numbers {
            return Err(Fault::new(Reason::TooFew, count));
        }
        if numbers + 1 < count {
            return Err(Fault::new(Reason::TooMany, numbers + 1));
        }
        fields::check_name(self.name()).map_err(|reason| Fault::new(reason, 0))?;
        self.check_numbers()
    }

    // Whether it is words, as many as there are numbers, or one more.
    pub(crate) fn is_header(&self) -> bool {
        let spare = self.field_count().checked_sub(self.kind.numbers());
        matches!(spare, Some(0 | 1))
            && (0..self.kind.numbers()).all(|i| fields::is_word(self.field(i)))
    }
}
