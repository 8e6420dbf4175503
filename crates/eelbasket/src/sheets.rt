// Station sheets, exported. Contracts cite the definitions of `c_sheets`.
ghost use Rattle.std.specs.Prelude.{◌≡◌, length};
ghost use Rattle.sheet.specs.Reading.{read_sheet};
ghost use Rattle.writer.specs.Writing.{write_sheet, after_write};
ghost use Rattle.fill.specs.Fill.{planned, counted, after_fill};
ghost use Rattle.filled_sheet.specs.Checked.{checked};
ghost use Rattle.change_over.specs.ChangeOver.{change_over};
ghost use Rattle.c_numbers.specs.Numbers.{told_verdict, ToldCounts};
ghost use Rattle.c_sheets.specs.Sheets.{sheet_of, in_numbers, told_reading, told_part};

use c_numbers::{ToldCount, ToldVerdict};
use c_sheets::{StationSheet, ToldPart, ToldReading};

// Reads a station sheet.
#[unsafe(no_mangle)]
pub extern "C" fn eelbasket_read(bytes: &[u8]) -> ToldReading
    ensures { told_reading result ≡ in_numbers (read_sheet bytes.now) }
{
    c_sheets::read_told(bytes)
}

// Writes a station sheet into a lent buffer.
#[unsafe(no_mangle)]
pub extern "C" fn eelbasket_write(sheet: StationSheet, out: &mut [u8]) -> ToldCount
    ensures { ToldCounts (write_sheet (sheet_of sheet) (length out.old)) (after_write (sheet_of sheet) out.old) result out.new }
{
    c_sheets::write_told(sheet, out)
}

// Fills in the sheet that was read, or refuses it; a refusal writes nothing.
#[unsafe(no_mangle)]
pub extern "C" fn eelbasket_fill(bytes: &[u8], out: &mut [u8; sheet::LONGEST]) -> ToldCount
    ensures { ToldCounts (counted (planned bytes.now)) (after_fill (planned bytes.now) out.old) result out.new }
{
    c_sheets::fill_told(bytes, out)
}

// Whether a filled sheet has the results that the plain finder gives.
#[unsafe(no_mangle)]
pub extern "C" fn eelbasket_check(bytes: &[u8]) -> ToldVerdict
    ensures { told_verdict result ≡ checked bytes.now }
{
    c_sheets::check_told(bytes)
}

// Which part of which sheet the change-over answers.
#[unsafe(no_mangle)]
pub extern "C" fn eelbasket_change_over(standing: &[u8], proposed: &[u8]) -> ToldPart
    ensures { result ≡ told_part (change_over standing.now proposed.now) }
{
    c_sheets::change_over_told(standing, proposed)
}
