// What the calls of several rooms tell: settings, verdicts and counts in numbers, since an enum does not cross to C. Contracts cite
// `specs/Numbers`.
#![tactic(auto)]

ghost use Rattle.std.specs.Prelude.{◌≡◌};
ghost use Rattle.kinds.specs.Answer.{handed_verdict, handed_count};
ghost use Rattle.c_numbers.specs.Numbers.{station_settings, verdict_of, told_verdict, told_count};

use kinds::{Policy, Refusal, Settings};

// The settings as numbers.
#[repr(C)]
#[derive(Clone, Copy)]
pub struct Station {
    pub policy: u16,
    pub m: u16,
    pub w: u16,
    pub q: u16,
    pub edition: u16,
}

// Number and place.
#[repr(C)]
#[derive(Clone, Copy)]
pub struct ToldVerdict {
    pub number: u32,
    pub place: usize,
}

// Number, place, and how many rows or bytes were handed over, 0 where the call is refused.
#[repr(C)]
#[derive(Clone, Copy)]
pub struct ToldCount {
    pub number: u32,
    pub place: usize,
    pub count: usize,
}

// The settings that a station's numbers stand for.
impl From<Station> for Settings {
    ghost from_gives = { λ station s. s ≡ station_settings station };

    fn from(station: Station) -> Settings {
        let policy = Policy::from(station.policy);
        Settings::new(policy, station.m, station.w, station.q, station.edition)
    }
}

// The number and the place of any answer: of a refusal its own, of an acceptance zeros.
impl<T: Copy> From<Result<T, Refusal>> for ToldVerdict {
    ghost from_gives = { λ answer told. told_verdict told ≡ handed_verdict (verdict_of answer) };

    fn from(answer: Result<T, Refusal>) -> ToldVerdict {
        match answer {
            Ok(_) => ToldVerdict {
                number: 0,
                place: 0,
            },
            Err(refusal) => ToldVerdict {
                number: u32::from(refusal.number()),
                place: refusal.place(),
            },
        }
    }
}

// A count in numbers.
impl From<Result<usize, Refusal>> for ToldCount {
    ghost from_gives = { λ counted told. told_count told ≡ handed_count counted };

    fn from(counted: Result<usize, Refusal>) -> ToldCount {
        let told = ToldVerdict::from(counted);
        ToldCount {
            number: told.number,
            place: told.place,
            count: counted.unwrap_or(0),
        }
    }
}
