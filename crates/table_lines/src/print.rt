// Writing the lines of a table into a lent buffer (01, "Text": all row lines, then record lines).
ghost use Rattle.std.specs.Prelude.{[]};
ghost use Rattle.checks.specs.Model.{in_table, lent};
ghost use Rattle.grammar.specs.Print.{lines_text, row_lines, record_lines};
ghost use Rattle.printing.specs.Put.{Holds, Put};
ghost use Rattle.table_lines.specs.Print.{RowsFit, RecordsFit};

use checks::records::record_at;
use checks::table::Table;
use operations::RECORD_WORDS;
use printing::put::put_row;
use printing::records::put_record;

// Writes the row lines of a table from `from` on.
pub fn put_rows(out: &mut [u8], from: usize, t: Table) -> usize
    requires { RowsFit t.width.now t.lock.now t.mask.now t.value.now × Holds out.old from (lines_text (row_lines (in_table t))) }
    ensures { Put out.old out.new from result (lines_text (row_lines (in_table t.entry))) }
{
    let n = t.width.len();
    let mut at = from;
    for i in 0..n {
        at = put_row(out, at, t.lock[i], t.width[i] as u32, t.mask[i], t.value[i]);
    }
    at
}

// Writes the record lines of a table from `from` on.
pub fn put_records(out: &mut [u8], from: usize, words: &[u32]) -> usize
    requires { RecordsFit words.now × Holds out.old from (lines_text (record_lines (lent [] [] [] [] words.now))) }
    ensures { Put out.old out.new from result (lines_text (record_lines (lent [] [] [] [] words.now))) }
{
    let n = words.len() / RECORD_WORDS;
    let mut at = from;
    for i in 0..n {
        at = put_record(out, at, record_at(words, i));
    }
    at
}
