// The two passes of prune: back over the records, of which those that stay move up to the end of the words, and forward over the words, which move down.
ghost use Rattle.std.specs.Prelude.{◌≡◌, [], ◌++◌, ◌+◌, ◌*◌, ◌/◌, ◌≤◌, length, get_or, drop, replicate};
ghost use Rattle.operations.specs.Limits.{record_words};
ghost use Rattle.checks.specs.Model.{lent};
ghost use Rattle.needs.specs.Needs.{kept_of};
ghost use Rattle.needs.specs.Prune.{words_kept, moved_down};
ghost use Rattle.needs.specs.Encoding.{ZeroOrOne, RecordsIn, RoomForMarks};

use checks::cells::target_marked;
use checks::records::record_at;
use needs::{need_before, take_marks};
use operations::{RECORD_WORDS, put_record};

// The pass back, from the rows that are needed at the end: the records that stay move up and become the last ones. The number of the first of them is answered.
fn keep_back(words: &mut [u32], need: &mut [u8]) -> usize
    requires { ZeroOrOne need.old × RecordsIn (length need.old) words.old }
    ensures { let table = lent [] [] [] [] words.old in
        (result + length (kept_of table need.old) ≡ length words.old / record_words)
        × (length words.new ≡ length words.old)
        × (drop (record_words * result) words.new ≡ words_kept table (kept_of table need.old)) }
{
    let n = words.len() / RECORD_WORDS;
    let mut first = n;
    for i in (0..n).rev() {
        let r = record_at(words, i);
        if target_marked(need, r) {
            need_before(need, r);
            first -= 1;
            put_record(words, RECORD_WORDS * first, r);
        }
    }
    first
}

// The word that comes to place j: the one `from` places after it, or 0 where there is none.
fn word_after(words: &[u32], from: usize, j: usize) -> u32
    requires { from ≤ length words.now }
    ensures { result ≡ get_or (drop from words.now) j 0 }
{
    words[from..].get(j).copied().unwrap_or(0)
}

// The pass forward: the words from a place on move down to the start, and zeros follow them. A loop, since the library's fill would be compiled to a call of memset.
fn move_down(words: &mut [u32], from: usize)
    requires { from ≤ length words.old }
    ensures { words.new ≡ drop from words.old ++ replicate from 0 }
{
    for j in 0..words.len() {
        words[j] = word_after(words, from, j);
    }
}

// Both passes, with room for the needed rows. How many records stay is answered.
pub fn keep_needed(words: &mut [u32], marks: &[u8], need: &mut [u8]) -> usize
    requires { RecordsIn (length need.old) words.old × RoomForMarks marks.now need.old }
    ensures { let table = lent [] [] [] [] words.old in
        (result ≡ length (kept_of table marks.now)) × (words.new ≡ moved_down table (kept_of table marks.now)) }
{
    take_marks(marks, need);
    let first = keep_back(words, need);
    move_down(words, RECORD_WORDS * first);
    words.len() / RECORD_WORDS - first
}
