// The office's texts: what an import and an export answer, in numbers. Contracts cite `specs/Texts`.
#![tactic(auto)]

ghost use Rattle.c_texts.specs.Texts.{ToldReads, ToldExports};

use c_numbers::ToldCount;
use kinds::Table;

// What an import by value tells, with the table; a refused one has the table of no tasks, as both go on to C: the numbers, and the rows to a
// lent slice.
#[derive(Clone, Copy)]
pub struct ToldImport {
    pub told: ToldCount,
    pub table: Table,
}

// The import of a text as a table by value, where an output has room for so many rows.
pub fn import_told(text: &[u8], room: usize) -> ToldImport
    ensures { ToldReads text.now room result }
{
    let imported = office::import(text, room);
    ToldImport {
        told: imported.answer.into(),
        table: imported.table,
    }
}

// The export of a table by value.
pub fn export_told(table: Table, out: &mut [u8]) -> ToldCount
    ensures { ToldExports table.rows table.n out.old result out.new }
{
    office::export(table, out).into()
}
