// What every program writes: bytes at the front of a lent buffer, and the line of a refusal. Contracts cite `specs/Line` and `specs/Fronts`.
#![tactic(auto)]

ghost use Rattle.std.specs.Prelude.{◌+◌, ◌≤◌, length};
ghost use Rattle.kinds.specs.Refusal.{number_of, place_of};
ghost use Rattle.field.specs.Handover.{Put};
ghost use Rattle.refusal_line.specs.Line.{refusal_line, longest_refusal_line};
ghost use Rattle.refusal_line.specs.Fronts.{Fronts, CountOrLine};

use kinds::Refusal;

// Copies some bytes to a place of a buffer, and nothing else; returns the place after them.
pub fn put_bytes(out: &mut [u8], at: usize, bytes: &[u8]) -> usize
    requires { at + length bytes.now ≤ length out.old }
    ensures { Put out.old at (length bytes.now) bytes.now result out.new }
{
    let next = at + bytes.len();
    out[at..next].copy_from_slice(bytes);
    next
}

// Writes `refused N at P` and a newline; returns their length.
pub fn put_refusal(out: &mut [u8], refusal: Refusal) -> usize
    requires { longest_refusal_line ≤ length out.old }
    ensures { Fronts (refusal_line (number_of refusal) (place_of refusal)) out.old result out.new }
{
    let at_number = put_bytes(out, 0, b"refused ");
    let at_word = numeral::put_decimal(out, at_number, u64::from(refusal.number()));
    let at_place = put_bytes(out, at_word, b" at ");
    let at_newline = numeral::put_decimal(out, at_place, refusal.place() as u64);
    put_bytes(out, at_newline, b"\n")
}

// Writes the line of a refusal in the place of a count; returns how many bytes the program writes.
pub fn count_or_line(answer: Result<usize, Refusal>, out: &mut [u8]) -> usize
    requires { longest_refusal_line ≤ length out.old }
    ensures { CountOrLine answer out.old result out.new }
{
    match answer {
        Ok(k) => k,
        Err(refusal) => put_refusal(out, refusal),
    }
}
