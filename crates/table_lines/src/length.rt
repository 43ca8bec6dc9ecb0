// The bytes of a table's lines, added up without printing them (01, "Text"; 02, request 1).
ghost use Rattle.std.specs.Prelude.{◌≡◌, List, [], ℕ, ◌≤◌, length};
ghost use Rattle.checks.specs.Model.{lent};
ghost use Rattle.grammar.specs.Limits.{text_limit};
ghost use Rattle.grammar.specs.Print.{lines_text, row_lines, record_lines};
ghost use Rattle.table_lines.specs.Print.{RecordsFit};

use checks::records::record_at;
use lengths::{record_length, row_length};
use operations::RECORD_WORDS;

// The bytes of a table's row lines, whatever letters its vectors have, where they are no more than a text may have.
pub fn rows_length(width: &[u8], lock: &[u8]) -> usize
    requires { (length lock.now ≡ length width.now)
        × ((masks values : List ℕ) → length (lines_text (row_lines (lent width.now lock.now masks values []))) ≤ text_limit) }
    ensures { (masks values : List ℕ) → result ≡ length (lines_text (row_lines (lent width.now lock.now masks values []))) }
{
    let n = width.len();
    let mut total: usize = 0;
    for i in 0..n {
        total += row_length(lock[i], width[i]);
    }
    total
}

// The bytes of a table's record lines, where they are no more than a text may have.
pub fn records_length(words: &[u32]) -> usize
    requires { RecordsFit words.now × (length (lines_text (record_lines (lent [] [] [] [] words.now))) ≤ text_limit) }
    ensures { result ≡ length (lines_text (record_lines (lent [] [] [] [] words.now))) }
{
    let n = words.len() / RECORD_WORDS;
    let mut total: usize = 0;
    for i in 0..n {
        total += record_length(record_at(words, i));
    }
    total
}
