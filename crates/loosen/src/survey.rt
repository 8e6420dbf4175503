// A survey of a text as an office gives it: how many lines are of each kind, the lines of its tasks, and those that cannot be taken. One walk over
// the lines makes it, and everybody else reads it.
use crate::fields::{Fault, Kind};
use crate::line::Line;
use arrayvec::ArrayVec;
use kinds::Table;
use task_names::Names;

// How many lines that cannot be taken are kept.
pub const MOST_SHOWN: usize = 10;

// A line that cannot be taken, its number, from 0, and why: for want of room where it has no fault.
#[derive(Clone, Copy, Default)]
pub struct Untaken<'a> {
    pub line: Line<'a>,
    pub number: usize,
    pub fault: Option<Fault>,
}

// How many lines that cannot be taken there are, and the first of them; the lines of the tasks; and what else there is.
#[derive(Drop)]
pub struct Survey<'a> {
    pub blanks: usize,
    pub comments: usize,
    pub has_header: bool,
    tasks: ArrayVec<Line<'a>, { Table::MOST_TASKS }>,
    pub untaken: usize,
    shown: ArrayVec<Untaken<'a>, MOST_SHOWN>,
}

#[derive(Clone, Copy)]
enum LineKind {
    Blank,
    Comment,
    Header,
    Task,
    Untaken(Option<Fault>),
}

impl<'a> Survey<'a> {
    // Of no line.
    fn new() -> Self {
        Survey {
            blanks: 0,
            comments: 0,
            has_header: false,
            tasks: ArrayVec::new(),
            untaken: 0,
            shown: ArrayVec::new(),
        }
    }

    // Of a text whose lines are to be of a kind; it may begin with a byte order mark.
    pub fn of(text: &'a [u8], kind: Kind) -> Self {
        let mut survey = Survey::new();
        let text = text.strip_prefix(b"\xef\xbb\xbf").unwrap_or(text);
        let lines = text.split_inclusive(|b| *b == b'\n');
        for (number, line) in lines.enumerate() {
            survey.take_in(Line::new(line, kind), number);
        }
        survey
    }

    // Whether nothing but blank lines and comments was taken in.
    fn is_empty(&self) -> bool {
        self.tasks.is_empty() && !self.has_header && self.untaken == 0
    }

    // What a line is, after those that were taken in; only the first with something on it can be a header.
    fn kind_of(&self, line: &Line) -> LineKind {
        if line.text.is_empty() {
            return LineKind::Blank;
        }
        if line.text.starts_with(b"#") {
            return LineKind::Comment;
        }
        match line.check() {
            Ok(()) if self.tasks.is_full() => LineKind::Untaken(None),
            Ok(()) => LineKind::Task,
            Err(_) if self.is_empty() && line.is_header() => LineKind::Header,
            Err(fault) => LineKind::Untaken(Some(fault)),
        }
    }

    // Takes in a line of a number, from 0.
    fn take_in(&mut self, line: Line<'a>, number: usize) {
        match self.kind_of(&line) {
            LineKind::Blank => self.blanks = self.blanks.saturating_add(1),
            LineKind::Comment => self.comments = self.comments.saturating_add(1),
            LineKind::Header => self.has_header = true,
            LineKind::Task => {
                let _ = self.tasks.try_push(line);
            }
            LineKind::Untaken(fault) => {
                self.untaken = self.untaken.saturating_add(1);
                let _ = self.shown.try_push(Untaken {
                    line,
                    number,
                    fault,
                });
            }
        }
    }

    // The lines of its tasks.
    pub fn tasks(&self) -> &[Line<'a>] {
        &self.tasks
    }

    // The first of the lines that cannot be taken.
    pub fn shown(&self) -> &[Untaken<'a>] {
        &self.shown
    }

    // The names of its tasks.
    pub fn names(&self) -> Names {
        let mut names = Names::NONE;
        for (task, line) in self.tasks().iter().enumerate() {
            names.keep(task, line.name());
        }
        names
    }
}
