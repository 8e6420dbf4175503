// Text for people, on a page of lent bytes: what `write!` writes there, as far as there is room, and what it shows numbers by. How it looks is
// tested and not promised, what is put and written is said by `specs/Page`; each call is proved to stay within what is lent.
#![tactic(auto)]

ghost use Rattle.std.specs.Prelude.{◌≡◌, ◌≤◌, length, OnOk};
ghost use Rattle.std.specs.Io.KnownBytes.{Appends};

use std::{fmt, io};

// Lent bytes, of which the first so many are written. What there is no room for is left out, so that no write fails.
#[derive(Drop)]
pub struct Page<'a> {
    room: &'a mut [u8],
    len: usize,
    ghost within: { len ≤ length room.now },
}

impl<'a> Page<'a> {
    ghost use Rattle.text.specs.Page.{written, IsNew, IsPut};

    // A page on which nothing is written yet.
    pub fn new(room: &'a mut [u8]) -> Page<'a>
        ensures { IsNew result room.old }
    {
        Page { room, len: 0 }
    }

    // What is written.
    pub fn text(&self) -> &[u8]
        ensures { result.now ≡ written self.now }
    {
        &self.room[..self.len]
    }

    // Adds bytes as far as there is room.
    pub fn put(&mut self, bytes: &[u8])
        ensures { IsPut self.old bytes.now self.new }
    {
        let n = bytes.len().min(self.room.len() - self.len);
        let end = self.len + n;
        self.room[self.len..end].copy_from_slice(&bytes[..n]);
        self.len = end;
    }

    // What `write!` calls: nothing fails, so that it has no error to hand on.
    pub fn write_fmt<D: fmt::Display + Drop>(&mut self, value: D) {
        let _ = fmt::Write::write_fmt(self, value);
    }

    // Writes the page to what is lent, as standard output.
    pub fn write_to<W: io::Write>(&self, to: &mut W) -> io::Result<()>
        ensures { OnOk result (Appends (W.contents to.old) (W.contents to.new) (written self.now)) }
    {
        to.write_all(self.text())
    }
}

impl fmt::Write for Page<'_> {
    fn write_str(&mut self, s: &str) -> fmt::Result {
        self.put(s.as_bytes());
        Ok(())
    }
}

// Whether a byte begins a character: one from 128 to 191 goes on with it.
fn begins_character(byte: u8) -> bool {
    !matches!(byte, 128..=191)
}

// How many columns a text takes: one for each character.
pub fn columns(text: &[u8]) -> usize {
    text.iter().filter(|byte| begins_character(**byte)).count()
}

// The columns of a form that is written.
#[derive(Drop)]
struct Counted(usize);

impl fmt::Write for Counted {
    fn write_str(&mut self, form: &str) -> fmt::Result {
        self.0 = self.0.saturating_add(columns(form.as_bytes()));
        Ok(())
    }
}

// How many columns a form takes.
pub fn columns_of<D: fmt::Display + Drop>(form: D) -> usize {
    let mut counted = Counted(0);
    let _ = fmt::Write::write_fmt(&mut counted, form);
    counted.0
}

// Room for what is put at the right of a column: the longest number has twenty digits, and six commas between them.
const ROOM: usize = 26;

// Writes what begins at a place behind blanks, at the right of a column: in one piece, as long as the column is no wider than that room.
fn put_right<W: fmt::Write>(
    f: &mut fmt::Formatter<W>,
    text: &[u8; ROOM],
    begin: usize,
) -> fmt::Result {
    let width = f.width().unwrap_or(0);
    let beyond = width.saturating_sub(ROOM);
    if 0 < beyond {
        write!(f, "{:beyond$}", "")?;
    }
    let from = begin.min(ROOM.saturating_sub(width));
    f.write_str(str::from_utf8(&text[from..]).map_err(|_| fmt::Error)?)
}

// A number with its thousands set apart, at the right of a column.
#[derive(Clone, Copy)]
pub struct Apart(pub u64);

impl Apart {
    // Puts the text of the number at the end, and returns the place where it begins.
    fn put(self, text: &mut [u8; ROOM]) -> usize {
        let mut left = self.0;
        for (i, place) in text.iter_mut().rev().enumerate() {
            if left == 0 && 0 < i {
                return ROOM - i;
            }
            if i % 4 == 3 {
                *place = b',';
            } else {
                *place = b'0' + (left % 10) as u8;
                left /= 10;
            }
        }
        0
    }
}

impl fmt::Display for Apart {
    fn fmt<W: fmt::Write>(&self, f: &mut fmt::Formatter<W>) -> fmt::Result {
        let mut text = [b' '; ROOM];
        let begin = self.put(&mut text);
        put_right(f, &text, begin)
    }
}

// Parts of a processor in per cent, rounded down to so many decimals, four at most, at the right of a column.
#[derive(Clone, Copy)]
pub struct Percent(pub u64);

impl fmt::Display for Percent {
    fn fmt<W: fmt::Write>(&self, f: &mut fmt::Formatter<W>) -> fmt::Result {
        let decimals = f.precision().unwrap_or(4).min(4);
        let rest = self.0 % 10_000 / 10u64.pow(4 - decimals as u32);
        let width = f.width().unwrap_or(0).saturating_sub(decimals + 1);
        write!(f, "{:width$}.{rest:0decimals$}", self.0 / 10_000)
    }
}

// How far a period is stretched from the shortest to the longest, in per cent, rounded down, at the right of a column; `fixed` where it cannot be.
#[derive(Clone, Copy)]
pub struct Stretch {
    pub period: u32,
    pub shortest: u32,
    pub longest: u32,
    pub elasticity: u32,
}

impl fmt::Display for Stretch {
    fn fmt<W: fmt::Write>(&self, f: &mut fmt::Formatter<W>) -> fmt::Result {
        if self.elasticity == 0 || self.longest <= self.shortest {
            return put_right(f, b"                     fixed", ROOM - 5);
        }
        let width = f.width().unwrap_or(0);
        let above = u64::from(self.period.saturating_sub(self.shortest));
        let percent = above * 100 / u64::from(self.longest - self.shortest);
        let width = width.saturating_sub(1);
        write!(f, "{percent:width$}%")
    }
}

// A gauge between brackets: no cell is full where the value is 0, all are where it is the most, and otherwise at least one is and not all.
#[derive(Clone, Copy)]
pub struct Gauge {
    pub value: u32,
    pub most: u32,
}

impl Gauge {
    const CELLS: usize = 40;

    fn full(self) -> usize {
        if self.value == 0 {
            return 0;
        }
        if self.most <= self.value {
            return Gauge::CELLS;
        }
        let full = u64::from(self.value) * Gauge::CELLS as u64 / u64::from(self.most);
        full.max(1) as usize
    }
}

impl fmt::Display for Gauge {
    fn fmt<W: fmt::Write>(&self, f: &mut fmt::Formatter<W>) -> fmt::Result {
        let full = self.full();
        let empty = Gauge::CELLS.saturating_sub(full);
        write!(f, "[{:#<full$}{:.<empty$}]", "", "")
    }
}
