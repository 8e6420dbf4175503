// What a program is given, read to the front of a lent buffer: the bytes of a stream, and the words of the command line.
#![tactic(auto)]

ghost use Rattle.std.specs.Prelude.{◌≡◌, ◌<◌, ◌≤◌, length, take, IfOk, OnOk};
ghost use Rattle.std.specs.Io.KnownBytes.{Consumes, IsAtEnd};
ghost use Rattle.lent_input.specs.Ran.{Ran};

use std::convert::AsSlice;
use std::env::{Env, FillError};
use std::io;
use std::io::{Read, Write};

// Reads until the buffer is full or the stream ends, and answers how many bytes it put there.
pub fn read_full<R: Read>(from: &mut R, into: &mut [u8]) -> io::Result<usize>
    ensures within { IfOk result (λ n. (n ≤ length into.new) × (n ≡ length (take n into.new))) }
    ensures bytes { IfOk result (λ n. Consumes (R.remaining from.old) (R.remaining from.new) (take n into.new)) }
    ensures end { IfOk result (λ n. n < length into.new → IsAtEnd (R.remaining from.new)) }
{
    let mut done = 0;
    while done < into.len() {
        let n = from.read(&mut into[done..])?;
        if n == 0 {
            return Ok(done);
        }
        done += n;
    }
    Ok(done)
}

// Puts the word of a number on the command line, and answers its length; 0 where there is none, or no room for it, as the programs take a
// word that is missing for an empty one.
pub fn word<E: Env>(given: &E, i: usize, into: &mut [u8]) -> usize
    ensures within { (result ≤ length into.new) × (result ≡ length (take result into.new)) }
{
    given.arg(i, into).unwrap_or(0)
}

// How many words the command line has, the program's own name among them.
pub fn word_count<E: Env>(given: &E) -> usize {
    let mut least = [0u8; 1];
    for i in 0..usize::MAX {
        if let Err(FillError::NotPresent) = given.arg(i, &mut least) {
            return i;
        }
    }
    usize::MAX
}

// A program's whole run: hands on to a step what a stream gives, as far as there is room, and writes to another stream as many bytes as the step
// answers, of those that it leaves in its own buffer.
pub fn run<R: Read, W: Write, O: AsSlice<u8>, F: FnOnce(&[u8], &mut O) -> usize>(
    from: &mut R,
    to: &mut W,
    input: &mut [u8],
    out: &mut O,
    step: F,
) -> io::Result<()>
    requires callable { F.IsAlwaysCallable step }
    requires fits { (given : _) (lent : _) (k : _) (left : _) → F.post step given lent k left → k ≤ length (O.items left.now) }
    ensures { OnOk result
        (Ran O.items (F.post step) (length input.old) out.old (R.remaining from.old) (R.remaining from.new) (W.contents to.old) (W.contents to.new)) }
{
    let n = read_full(from, input)?;
    let k = step(&input[..n], out);
    to.write_all(&out.as_slice()[..k])
}
