// A room in front of the strict import of the office's text: what an office or a spreadsheet gives goes in, and the exact text that `office`
// takes comes out, or nothing. A text that the strict import takes goes through byte for byte. The contract cites `specs/Tidied`; the laws of
// `proofs/Tidying` say what it means.
#![tactic(auto)]

ghost use Rattle.std.specs.Prelude.{◌≡◌};
ghost use Rattle.kinds.specs.Answer.{refused};
ghost use Rattle.tidy.specs.Tidied.{strict, Tidies};
ghost use Rattle.tidy.specs.Handover.{HandsOn};

use kinds::{Refusal, Table};

// How many bytes a text may have that is not the strict import's.
pub const LONGEST: usize = loosen::LONGEST;

// Writes a text that the strict import takes, and nothing of another.
fn hand_on(text: &[u8], out: &mut [u8; office::LONGEST]) -> Result<usize, Refusal>
    ensures { HandsOn text.now out.old result out.new }
{
    office::read(text, Table::MOST_TASKS)?;
    Ok(refusal_line::put_bytes(out, 0, text))
}

// Writes what is made of a text that the strict import refuses, where it takes that.
fn hand_on_candidate(
    text: &[u8],
    refusal: Refusal,
    out: &mut [u8; office::LONGEST],
) -> Result<usize, Refusal>
    requires { strict text.now ≡ refused 0 refusal }
    ensures { Tidies text.now out.old result out.new }
{
    if LONGEST < text.len() {
        return Err(refusal);
    }
    let mut candidate = [0u8; office::LONGEST];
    let Some(found) = loosen::loosen(text, &mut candidate) else {
        return Err(refusal);
    };
    let n = found.min(office::LONGEST);
    hand_on(&candidate[..n], out).or(Err(refusal))
}

// Writes the text that is handed on; a refused call, with the strict import's refusal of the text, writes nothing.
pub fn tidied(text: &[u8], out: &mut [u8; office::LONGEST]) -> Result<usize, Refusal>
    ensures { Tidies text.now out.old result out.new }
{
    match hand_on(text, out) {
        Ok(k) => Ok(k),
        Err(refusal) => hand_on_candidate(text, refusal, out),
    }
}
