// The office's texts over lent records, exported. Contracts cite the definitions of `c_texts`.
ghost use Rattle.std.specs.Prelude.{length};
ghost use Rattle.c_texts.specs.Texts.{ToldImports, ToldExports};

use c_numbers::ToldCount;
use kinds::Task;

// The text of lent records, into a lent output.
#[unsafe(no_mangle)]
pub extern "C" fn eelbasket_export(rows: &[Task], out: &mut [u8]) -> ToldCount
    ensures { ToldExports rows.now (length rows.now) out.old result out.new }
{
    c_texts::export_told(lent_rows::gather(rows), out)
}

// The table of a text, into lent records.
#[unsafe(no_mangle)]
pub extern "C" fn eelbasket_import(text: &[u8], rows: &mut [Task]) -> ToldCount
    ensures { ToldImports text.now rows.old result rows.new }
{
    let imported = c_texts::import_told(text, rows.len());
    lent_rows::scatter(imported.table, rows);
    imported.told
}
