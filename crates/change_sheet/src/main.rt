// The program that changes over: two arguments name the standing and the proposed sheet, and the task section of the one that stands from now on
// is written. All its work is `change_over::change_over`; a file that cannot be read is an empty sheet, and of each no more than one byte past
// the longest sheet is read, since nothing further on changes what is written.
#![tactic(auto)]

ghost use Rattle.std.specs.Prelude.{◌≡◌, ◌≤◌, length, take};

use std::fs::File;
use std::io;
use std::io::{Cursor, Write};

// The system's number of the error that a name is no text, as no file is opened by such a name.
const NOT_TEXT: i32 = 84;

fn opened(rt: HostRuntime, name: &[u8]) -> io::Result<File> {
    let path = str::from_utf8(name).map_err(|_| io::Error::from_raw_os_error(NOT_TEXT))?;
    File::open(&rt, path)
}

// How many bytes stand in front of an error's number, which is in brackets behind its words.
fn in_front(words: &[u8]) -> usize
    ensures { result ≤ length words.now }
{
    for (at, byte) in words.iter().enumerate() {
        if *byte == b'(' {
            return at.saturating_sub(1);
        }
        if *byte == 0 {
            return at;
        }
    }
    words.len()
}

// The line for a file that cannot be opened: its name, and the system's words for the error.
fn tell_unopened<W: Write>(to: &mut W, name: &[u8], error: io::Error) -> io::Result<()> {
    let mut words = Cursor::new([0u8; 256]);
    write!(words, "{error}")?;
    let words = words.into_inner();
    to.write_all(name)?;
    to.write_all(b": ")?;
    to.write_all(&words[..in_front(&words)])?;
    to.write_all(b"\n")
}

// Reads the file that argument i names to the front of a buffer, and answers how many bytes it has there.
fn read_named(rt: HostRuntime, i: usize, out: &mut [u8]) -> usize
    ensures { (result ≤ length out.new) × (result ≡ length (take result out.new)) }
{
    let mut name = [0u8; 4096];
    let n = lent_input::word(&rt, i, &mut name);
    match opened(rt, &name[..n]) {
        Ok(mut file) => lent_input::read_full(&mut file, out).unwrap_or(0),
        Err(error) => {
            let _ = tell_unopened(&mut rt.stderr(), &name[..n], error);
            0
        }
    }
}

fn main(rt: HostRuntime) -> io::Result<()> {
    let mut standing = [0u8; sheet::LONGEST + 1];
    let s = read_named(rt, 1, &mut standing);
    let mut proposed = [0u8; sheet::LONGEST + 1];
    let p = read_named(rt, 2, &mut proposed);
    let section = change_over::change_over(&standing[..s], &proposed[..p]);
    rt.write_all(section)
}
