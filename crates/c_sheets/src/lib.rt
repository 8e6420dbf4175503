// Station sheets in numbers: a sheet crosses as numbers, its policy as the number that it is written as. Contracts cite `specs/Sheets`
// and `specs/Back`.
#![tactic(auto)]

ghost use Rattle.std.specs.Prelude.{◌≡◌, length};
ghost use Rattle.sheet.specs.Reading.{read_sheet};
ghost use Rattle.writer.specs.Writing.{write_sheet, after_write};
ghost use Rattle.fill.specs.Fill.{planned, counted, after_fill};
ghost use Rattle.filled_sheet.specs.Checked.{checked};
ghost use Rattle.change_over.specs.ChangeOver.{change_over};
ghost use Rattle.c_numbers.specs.Numbers.{told_verdict, ToldCounts};
ghost use Rattle.c_sheets.specs.Sheets.{sheet_of, told_sheet, in_numbers, told_reading, told_part};
ghost use Rattle.c_sheets.specs.Back.{back_handed, after_back};

use c_numbers::{Station, ToldCount, ToldVerdict};
use change_over::Which;
use kinds::{Results, Settings, Sheet, Table};

// A sheet in numbers: how many numbers its settings section has, and its sections.
#[repr(C)]
#[derive(Clone, Copy)]
pub struct StationSheet {
    pub count: usize,
    pub station: Station,
    pub table: Table,
    pub results: Results,
}

// Number, place and the sheet that was read, of zeros where it is refused.
#[repr(C)]
#[derive(Clone, Copy)]
pub struct ToldReading {
    pub number: u32,
    pub place: usize,
    pub sheet: StationSheet,
}

// A part of the standing sheet, 0, or of the proposed one, 1: where it starts, and how many bytes it has.
#[repr(C)]
#[derive(Clone, Copy)]
pub struct ToldPart {
    pub which: u32,
    pub place: usize,
    pub size: usize,
}

// The sheet that the numbers stand for.
impl From<StationSheet> for Sheet {
    ghost from_gives = { λ numbers sheet. sheet ≡ sheet_of numbers };

    fn from(numbers: StationSheet) -> Sheet {
        Sheet {
            count: numbers.count,
            settings: Settings::from(numbers.station),
            table: numbers.table,
            results: numbers.results,
        }
    }
}

// A sheet in numbers.
impl From<Sheet> for StationSheet {
    ghost from_gives = { λ sheet numbers. numbers ≡ told_sheet sheet };

    fn from(sheet: Sheet) -> StationSheet {
        let settings = sheet.settings;
        let station = Station {
            policy: u16::from(settings.policy),
            m: settings.m,
            w: settings.swap,
            q: settings.notch,
            edition: settings.edition,
        };
        StationSheet {
            count: sheet.count,
            station,
            table: sheet.table,
            results: sheet.results,
        }
    }
}

// Reads a station sheet.
pub fn read_told(bytes: &[u8]) -> ToldReading
    ensures { told_reading result ≡ in_numbers (read_sheet bytes.now) }
{
    let reading = sheet::read(bytes);
    let told = ToldVerdict::from(reading.verdict);
    ToldReading {
        number: told.number,
        place: told.place,
        sheet: StationSheet::from(reading.sheet),
    }
}

// Writes a station sheet into a lent buffer.
pub fn write_told(sheet: StationSheet, out: &mut [u8]) -> ToldCount
    ensures { ToldCounts (write_sheet (sheet_of sheet) (length out.old)) (after_write (sheet_of sheet) out.old) result out.new }
{
    ToldCount::from(writer::write(Sheet::from(sheet), out))
}

// Reads a station sheet and writes it back, by the two calls that C makes: the same bytes, whatever bytes read.
pub fn write_back_told(bytes: &[u8], out: &mut [u8]) -> ToldCount
    ensures { ToldCounts (back_handed bytes.now (length out.old)) (after_back bytes.now out.old) result
        out.new }
{
    field::all_bytes(bytes);
    let reading = read_told(bytes);
    if reading.number != 0 {
        return ToldCount {
            number: reading.number,
            place: reading.place,
            count: 0,
        };
    }
    write_told(reading.sheet, out)
}

// Fills in the sheet that was read, or refuses it; a refusal writes nothing.
pub fn fill_told(bytes: &[u8], out: &mut [u8; sheet::LONGEST]) -> ToldCount
    ensures { ToldCounts (counted (planned bytes.now)) (after_fill (planned bytes.now) out.old) result out.new }
{
    ToldCount::from(fill::fill_in(bytes, out))
}

// Whether a filled sheet has the results that the plain finder gives.
pub fn check_told(bytes: &[u8]) -> ToldVerdict
    ensures { told_verdict result ≡ checked bytes.now }
{
    ToldVerdict::from(filled_sheet::check(bytes))
}

// Which part of which sheet the change-over answers.
pub fn change_over_told(standing: &[u8], proposed: &[u8]) -> ToldPart
    ensures { result ≡ told_part (change_over standing.now proposed.now) }
{
    let part = change_over::part_of(standing, proposed);
    let which = part.which;
    let number = match which {
        Which::Standing => 0u32,
        Which::Proposed => 1u32,
    };
    ToldPart {
        which: number,
        place: part.from,
        size: part.size,
    }
}
