// What stands in the fields of a line as an office gives it: the numbers of a task or of a job, with or without a name in front, or why it is neither.
ghost use Rattle.std.specs.Prelude.{◌≤◌};

// What a line is to be: a task, or a job that needs several cores.
#[derive(Clone, Copy, PartialEq, Eq, Default)]
pub enum Kind {
    #[default]
    Task,
    Job,
}

// The greatest number, and the greatest C of a job.
const GREATEST: u64 = 4_294_967_295;

const GREATEST_COST: u64 = 16_000_000_000;

// The greatest number that is told from a name.
const GREATEST_TOLD: u64 = 100_000_000_000_000_000;

impl Kind {
    // How many numbers one has: C, Tmin, Tmax and E, or C, L, Tmin, Tmax and E.
    pub(crate) fn numbers(self) -> usize
        ensures { result ≤ 5 }
    {
        match self {
            Kind::Task => 4,
            Kind::Job => 5,
        }
    }

    // The greatest that a number of one, from 0, may be.
    pub(crate) fn greatest(self, number: usize) -> u64 {
        match (self, number) {
            (Kind::Job, 0) => GREATEST_COST,
            _ => GREATEST,
        }
    }
}

// Why a field or a line cannot be taken.
#[derive(Clone, Copy, PartialEq, Eq)]
pub enum Reason {
    LongName,
    OddName,
    Missing,
    NotWhole,
    LeadingZero,
    TooLarge,
    TooCostly,
    TooFew,
    TooMany,
    NumberForName,
}

// The same, and the number of the field at fault, from 0.
#[derive(Clone, Copy, PartialEq, Eq)]
pub struct Fault {
    pub reason: Reason,
    pub field: usize,
}

impl Fault {
    pub(crate) fn new(reason: Reason, field: usize) -> Self {
        Fault { reason, field }
    }
}

// The number that a field is, which must not be above the greatest.
pub fn number_in(field: &[u8], greatest: u64) -> Result<u64, Reason> {
    if field.is_empty() {
        return Err(Reason::Missing);
    }
    if !field.iter().all(u8::is_ascii_digit) {
        return Err(Reason::NotWhole);
    }
    if let [b'0', _, ..] = field {
        return Err(Reason::LeadingZero);
    }
    let number = field.iter().fold(0u64, |n, digit| {
        n.saturating_mul(10).saturating_add(u64::from(digit & 15))
    });
    match number {
        n if n <= greatest => Ok(n),
        _ if GREATEST < greatest => Err(Reason::TooCostly),
        _ => Err(Reason::TooLarge),
    }
}

// How many bytes of a character are due after its first, where that is none of a control character.
fn due_after_first(byte: u8) -> Option<u8> {
    match byte {
        b' '..=b'~' => Some(0),
        194..=223 => Some(1),
        224..=239 => Some(2),
        240..=244 => Some(3),
        _ => None,
    }
}

// How many are due after a byte, where so many were due before it.
fn due_after(due: u8, byte: u8) -> Option<u8> {
    match (due, byte) {
        (0, _) => due_after_first(byte),
        (_, 128..=191) => Some(due - 1),
        _ => None,
    }
}

// Whether a name is characters, and no control characters. It takes an overlong form, which `str::from_utf8` refuses, and no answer may change.
fn is_plain(name: &[u8]) -> bool {
    let due = name.iter().try_fold(0, |due, byte| due_after(due, *byte));
    due == Some(0)
}

// A number is no name, since nobody can tell whether it is a name or the last number too many.
pub(crate) fn check_name(name: &[u8]) -> Result<(), Reason> {
    if number_in(name, GREATEST_TOLD).is_ok() {
        return Err(Reason::NumberForName);
    }
    if task_names::LONGEST_NAME < name.len() {
        return Err(Reason::LongName);
    }
    if is_plain(name) {
        Ok(())
    } else {
        Err(Reason::OddName)
    }
}

// Whether a field begins with a letter, or with a byte of one that is not of ASCII.
pub(crate) fn is_word(field: &[u8]) -> bool {
    let begins = |byte: &u8| !byte.is_ascii() || byte.is_ascii_alphabetic();
    field.first().is_some_and(begins)
}
