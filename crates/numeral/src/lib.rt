// Numbers as text: the decimal digits of a number, put at a place of a lent buffer, and the number at a place of a lent text. Contracts
// cite `specs/Decimal`, `specs/Scan` and `specs/Handover`; the last laws of `proofs/OneText` and `proofs/Numerals` say that each number has exactly one
// text, and each accepted text exactly one number.
#![tactic(auto)]

ghost use Rattle.std.specs.Prelude.{◌≡◌, ◌+◌, ◌≤◌, ◌<◌, length};
ghost use Rattle.field.specs.Handover.{Put};
ghost use Rattle.numeral.specs.Decimal.{decimal};
ghost use Rattle.numeral.specs.Scan.{plain, number_at, numeral_at, numeral_in};
ghost use Rattle.numeral.specs.Handover.{Sized, RunIs};

// The greatest number that a text may hold.
pub const MOST_NUMBER: u64 = 4_294_967_295;

// Stores the digits of a number from a place on, and nothing else; returns the place after them.
pub fn put_decimal(out: &mut [u8], at: usize, n: u64) -> usize
    requires { at + length (decimal n) ≤ length out.old }
    ensures { Put out.old at (length (decimal n)) (decimal n) result out.new }
{
    if n < 10 {
        out[at] = 48 + (n % 10) as u8;
        return at + 1;
    }
    let next = put_decimal(out, at, n / 10);
    out[next] = 48 + (n % 10) as u8;
    next + 1
}

// How many digits a number has.
pub fn width(n: u32) -> usize
    ensures { Sized (decimal n) 10 result }
{
    1 + n.checked_ilog10().unwrap_or(0) as usize
}

// The value of the digits that begin a text, held down at the number after the most, and how many they are, in one walk.
fn run_of(s: &[u8]) -> (u64, usize)
    ensures { RunIs s.now result }
{
    let mut value: u64 = 0;
    for (i, digit) in s.iter().enumerate() {
        if !digit.is_ascii_digit() {
            return (value, i);
        }
        value = (10 * value + u64::from(digit - b'0')).min(MOST_NUMBER + 1);
    }
    (value, s.len())
}

// Whether digits are a number's: one at least, and no leading zero except 0 itself.
fn is_plain(digits: &[u8]) -> bool
    ensures { result ≡ plain digits.now }
{
    match digits {
        [] => false,
        [_] => true,
        [first, ..] => *first != b'0',
    }
}

// The number at a place of a text, whatever follows it, and the place after its digits.
fn number_at(s: &[u8], at: usize) -> Option<(u32, usize)>
    ensures { result ≡ number_at s.now at }
{
    let rest = s.get(at..)?;
    let (value, count) = run_of(rest);
    if !is_plain(&rest[..count]) {
        return None;
    }
    let value = u32::try_from(value).ok()?;
    Some((value, at + count))
}

// The number at a place of a text, ended by this byte, and the place after that byte.
#[tactic(auto, unfolding(crate::specs::Scan::numeral_at))]
pub fn numeral_at(s: &[u8], at: usize, end: u8) -> Option<(u32, usize)>
    requires { 0 < end }
    ensures { result ≡ numeral_at s.now at end }
{
    let (value, next) = number_at(s, at)?;
    if s.get(next) != Some(&end) {
        return None;
    }
    Some((value, next + 1))
}

// The number whose text is the whole text, and that text's length.
#[tactic(auto, unfolding(crate::specs::Scan::numeral_in))]
pub fn numeral_in(s: &[u8]) -> Option<(u32, usize)>
    ensures { result ≡ numeral_in s.now }
{
    let (value, next) = number_at(s, 0)?;
    if next != s.len() {
        return None;
    }
    Some((value, next))
}
