// The kinds that document 01 speaks of, each with its limits, and the numbers that stand for them. Contracts cite `specs/`, one file for
// each kind.
#![tactic(auto)]

ghost use Rattle.std.specs.Prelude.{◌≡◌, ◌+◌, ◌*◌, ◌≤◌};
ghost use Rattle.kinds.specs.Limits.{scale, longest_period, greatest_elasticity, most_tasks, most_processors};
ghost use Rattle.kinds.specs.Limits.{fewest_settings, most_settings, share_edition, charge_edition};
ghost use Rattle.kinds.specs.Task.{is_within, is_on_notch, is_good, priced, task, table};
ghost use Rattle.kinds.specs.Policy.{policy_of, policy_number, meant, is_first_fit, is_one_core};
ghost use Rattle.kinds.specs.Settings.{settings, settings_of, numbers_of, tests_charge};
ghost use Rattle.kinds.specs.Refusal.{handed_back, number_of, place_of};

// A share of one processor, in parts.
#[derive(Clone, Copy)]
pub struct Share {
    pub parts: u64,
}

impl Share {
    // Document 01: "The scale S is 1,000,000 parts to one processor."
    pub const SCALE: u64 = 1_000_000;

    pub fn new(parts: u64) -> Share
        ensures { result.parts ≡ parts }
    {
        Share { parts }
    }
}

// A task record: cost C, shortest and longest period, elasticity E. Any numbers may stand in it. What crosses to C is laid out as C lays it out.
#[repr(C)]
#[derive(Clone, Copy)]
pub struct Task {
    pub c: u32,
    pub tmin: u32,
    pub tmax: u32,
    pub e: u32,
}

impl Task {
    pub const LONGEST_PERIOD: u32 = 1_000_000_000;

    pub const GREATEST_ELASTICITY: u32 = 1_000_000;

    // An unused place of a table.
    pub const NONE: Task = Task {
        c: 0,
        tmin: 0,
        tmax: 0,
        e: 0,
    };

    pub fn new(c: u32, tmin: u32, tmax: u32, e: u32) -> Task
        ensures { result ≡ task c tmin tmax e }
    {
        Task { c, tmin, tmax, e }
    }

    // Ask 2: "each job pays for being swapped in and out". 32 bits do not hold it for every C.
    pub fn cost(self, swap: u16) -> u64
        ensures { result ≡ self.c + 2 * swap }
    {
        self.c as u64 + 2 * swap as u64
    }

    // Document 01: "A record is good when 1 ≤ C ≤ Tmin ≤ Tmax ≤ 1,000,000,000 and 0 ≤ E ≤ 1,000,000", where C ≤ Tmin is read with swaps.
    pub fn within(self, swap: u16) -> bool
        ensures { result ≡ is_within swap self }
    {
        let cost = self.cost(swap);
        1 <= self.c
            && cost <= self.tmin as u64
            && self.tmin <= self.tmax
            && self.tmax <= Task::LONGEST_PERIOD
            && self.e <= Task::GREATEST_ELASTICITY
    }

    // Ask 5: "Tmin and Tmax must be multiples of q".
    pub fn on_notch(self, notch: u16) -> bool
        requires { 1 ≤ notch }
        ensures { result ≡ is_on_notch notch self }
    {
        let q = notch as u32;
        self.tmin % q == 0 && self.tmax % q == 0
    }

    // Whether the record is good where a swap costs so much and a notch is so wide.
    pub fn good(self, swap: u16, notch: u16) -> bool
        requires { 1 ≤ notch }
        ensures { result ≡ is_good swap notch self }
    {
        self.within(swap) && self.on_notch(notch)
    }

    // The record with its swaps paid for: its C is the whole cost of a job.
    pub fn priced(self, swap: u16) -> Task
        requires { self.c + 2 * swap ≤ 4294967295 }
        ensures { result ≡ priced swap self }
    {
        Task {
            c: self.cost(swap) as u32,
            tmin: self.tmin,
            tmax: self.tmax,
            e: self.e,
        }
    }
}

// The task table by value: room for the most tasks, of which the first n count. A lent count may be greater than the room.
#[repr(C)]
#[derive(Clone, Copy)]
pub struct Table {
    pub rows: [Task; Table::MOST_TASKS],
    pub n: usize,
}

impl Table {
    pub const MOST_TASKS: usize = 32;

    pub fn new(rows: [Task; Table::MOST_TASKS], n: usize) -> Table
        ensures { result ≡ table rows n }
    {
        Table { rows, n }
    }
}

// The index beside a table by value: numbers of its records, with room for the most tasks, of which the first n count.
#[repr(C)]
#[derive(Clone, Copy)]
pub struct Index {
    pub entries: [u16; Table::MOST_TASKS],
    pub n: usize,
}

// A policy is a choice of its own; a number outside 1 to 5 is kept in the further choice.
#[derive(Clone, Copy, Debug, PartialEq, Eq)]
pub enum Policy {
    Pooled,
    GlobalEdf,
    GlobalRm,
    FirstFit,
    OneCoreRm,
    Further(u16),
}

// The policy that a number on a sheet stands for.
impl From<u16> for Policy {
    ghost from_gives = { λ number policy. policy ≡ policy_of number };

    fn from(number: u16) -> Policy {
        match number {
            1 => Policy::Pooled,
            2 => Policy::GlobalEdf,
            3 => Policy::GlobalRm,
            4 => Policy::FirstFit,
            5 => Policy::OneCoreRm,
            _ => Policy::Further(number),
        }
    }
}

// The number that a policy is written as.
impl From<Policy> for u16 {
    ghost from_gives = { λ policy number. number ≡ policy_number policy };

    fn from(policy: Policy) -> u16 {
        match policy {
            Policy::Pooled => 1,
            Policy::GlobalEdf => 2,
            Policy::GlobalRm => 3,
            Policy::FirstFit => 4,
            Policy::OneCoreRm => 5,
            Policy::Further(number) => number,
        }
    }
}

impl Policy {
    // Document 01: "a further choice holding 1 to 4 means that policy"; Ask 1: so does one holding 5.
    pub fn meant(self) -> Policy
        ensures { result ≡ meant self }
    {
        Policy::from(u16::from(self))
    }

    // Policy 4.
    pub fn is_first_fit(self) -> bool
        ensures { result ≡ is_first_fit self }
    {
        matches!(self, Policy::FirstFit)
    }

    // Policy 5.
    pub fn is_one_core(self) -> bool
        ensures { result ≡ is_one_core self }
    {
        matches!(self, Policy::OneCoreRm)
    }
}

// The station settings: the policy, how many processors there are, what a swap costs, the notch of the timer wheel, and the edition of the
// charge, which is kept as the number that stands on a sheet: any may stand there, and the admission judges it in its turn.
#[derive(Clone, Copy)]
pub struct Settings {
    pub policy: Policy,
    pub m: u16,
    pub swap: u16,
    pub notch: u16,
    pub edition: u16,
}

impl Settings {
    pub const MOST_PROCESSORS: u16 = 16;

    // How few numbers the settings section of a sheet may have, and how many.
    pub const FEWEST: usize = 2;

    pub const MOST: usize = 5;

    // What is filled in for each number that a sheet leaves out.
    pub const FILL_INS: [u16; Settings::MOST] = [0, 0, 0, 1, 1];

    // The editions of the charge: the first tests shares, the second charges.
    pub const SHARE_EDITION: u16 = 1;

    pub const CHARGE_EDITION: u16 = 2;

    pub fn new(policy: Policy, m: u16, swap: u16, notch: u16, edition: u16) -> Settings
        ensures { result ≡ settings policy m swap notch edition }
    {
        Settings {
            policy,
            m,
            swap,
            notch,
            edition,
        }
    }

    // Ask 10: "Edition 2 tests each policy on the charge".
    pub fn tests_charge(self) -> bool
        ensures { result ≡ tests_charge self }
    {
        self.edition == Settings::CHARGE_EDITION
    }
}

// The settings that the numbers on a sheet stand for.
impl From<[u16; Settings::MOST]> for Settings {
    ghost from_gives = { λ numbers settings. settings ≡ settings_of numbers };

    fn from(numbers: [u16; Settings::MOST]) -> Settings {
        let [policy, m, swap, notch, edition] = numbers;
        Settings::new(Policy::from(policy), m, swap, notch, edition)
    }
}

// The numbers that settings are written as.
impl From<Settings> for [u16; Settings::MOST] {
    ghost from_gives = { λ settings numbers. numbers ≡ numbers_of settings };

    fn from(settings: Settings) -> [u16; Settings::MOST] {
        let policy = u16::from(settings.policy);
        [
            policy,
            settings.m,
            settings.swap,
            settings.notch,
            settings.edition,
        ]
    }
}

// What an accepted plan grants a task: its period, and its processor, 0 for any.
#[repr(C)]
#[derive(Clone, Copy, Debug, PartialEq, Eq)]
pub struct Granted {
    pub period: u32,
    pub processor: u16,
}

impl Granted {
    // An unused place of a results section.
    pub const NONE: Granted = Granted {
        period: 0,
        processor: 0,
    };
}

// The results section of a sheet: room for the most tasks, of which the first n count.
#[repr(C)]
#[derive(Clone, Copy)]
pub struct Results {
    pub rows: [Granted; Table::MOST_TASKS],
    pub n: usize,
}

// A station sheet: how many numbers its settings section has, and its sections.
#[derive(Clone, Copy)]
pub struct Sheet {
    pub count: usize,
    pub settings: Settings,
    pub table: Table,
    pub results: Results,
}

// One variant for each number of documents 01 and 02, with its place where that is not 0.
#[derive(Clone, Copy, Debug, PartialEq, Eq)]
pub enum Refusal {
    NoSuchPolicy,
    Misset,
    TooManyTasks(usize),
    PolicyNotServed,
    OutputTooShort(usize),
    BadRecord(usize),
    NoStepPasses,
    SheetEnds(usize),
    WrongSettingsCount,
    WrongResultCount(usize),
    BytesAfterLast(usize),
    NoSuchRecord(usize),
    ProcessorOutOfRange(usize),
    ProcessorOverfull(usize),
    PolicyWithdrawn,
    BadLine(usize),
    BadPeriod(usize),
    NoResults,
    WrongResult(usize),
}

// A number that is handed back, and its place.
#[derive(Clone, Copy)]
struct Numbered(u16, usize);

impl Refusal {
    // Number and place.
    fn handed_back(self) -> Numbered
        ensures { result ≡ handed_back self }
    {
        match self {
            Refusal::NoSuchPolicy => Numbered(1, 0),
            Refusal::Misset => Numbered(2, 0),
            Refusal::TooManyTasks(place) => Numbered(3, place),
            Refusal::PolicyNotServed => Numbered(4, 0),
            Refusal::OutputTooShort(place) => Numbered(5, place),
            Refusal::BadRecord(place) => Numbered(6, place),
            Refusal::NoStepPasses => Numbered(7, 0),
            Refusal::SheetEnds(place) => Numbered(8, place),
            Refusal::WrongSettingsCount => Numbered(9, 0),
            Refusal::WrongResultCount(place) => Numbered(10, place),
            Refusal::BytesAfterLast(place) => Numbered(11, place),
            Refusal::NoSuchRecord(place) => Numbered(12, place),
            Refusal::ProcessorOutOfRange(place) => Numbered(13, place),
            Refusal::ProcessorOverfull(place) => Numbered(14, place),
            Refusal::PolicyWithdrawn => Numbered(15, 0),
            Refusal::BadLine(place) => Numbered(16, place),
            Refusal::BadPeriod(place) => Numbered(17, place),
            Refusal::NoResults => Numbered(18, 0),
            Refusal::WrongResult(place) => Numbered(19, place),
        }
    }

    pub fn number(self) -> u16
        ensures { result ≡ number_of self }
    {
        self.handed_back().0
    }

    pub fn place(self) -> usize
        ensures { result ≡ place_of self }
    {
        self.handed_back().1
    }
}

// The limits that definitions name are those that the code names.
pub fn limits()
    ensures scale { Share.SCALE ≡ scale }
    ensures longest_period { Task.LONGEST_PERIOD ≡ longest_period }
    ensures greatest_elasticity { Task.GREATEST_ELASTICITY ≡ greatest_elasticity }
    ensures most_tasks { Table.MOST_TASKS ≡ most_tasks }
    ensures most_processors { Settings.MOST_PROCESSORS ≡ most_processors }
    ensures fewest_settings { Settings.FEWEST ≡ fewest_settings }
    ensures most_settings { Settings.MOST ≡ most_settings }
    ensures share_edition { Settings.SHARE_EDITION ≡ share_edition }
    ensures charge_edition { Settings.CHARGE_EDITION ≡ charge_edition }
{}
