// What a word may be and what a rule asks of the widths, as the kinds' descriptions name them.
ghost use Rattle.std.specs.Prelude.{◌≡◌, [], ◌∷◌, cond, ◌≤◌, ◌<◌, T, leb, ltb, length};
ghost use Rattle.operations.specs.Kind.{Use, asks};
ghost use Rattle.operations.specs.Record.{width_at};
ghost use Rattle.operations.specs.Faults.{word_outside, misused};
ghost use Rattle.operations.specs.declared.descriptions.WidthRule.TheVariants.{CellWidths};
ghost use Rattle.operations.specs.Encoding.{use_told, is_plain, rule_model};
ghost use Rattle.checks.specs.Encoding.{byte_limit, Reads};
ghost use Rattle.checks.specs.Limits.{row_limit};

use crate::limits::PARAMETER_LIMIT;
use operations::descriptions::{WidthRule, WordUse};

// Whether a word names no row of a table of n rows.
pub fn row_outside(n: usize, word: u32) -> bool
    ensures { result ≡ leb n word }
{
    n <= word as usize
}

// Whether a word of that use lies outside a table of n rows.
pub fn word_outside(u: WordUse, n: usize, word: u32) -> bool
    ensures { (v : Use) → T (is_plain v) → u ≡ use_told v → result ≡ word_outside n v word }
{
    u == WordUse::Row && row_outside(n, word)
}

// Whether a word of that use is none that the kind may have.
pub fn word_misused(u: WordUse, word: u32) -> bool
    ensures { (v : Use) → T (is_plain v) → u ≡ use_told v → result ≡ misused v word }
{
    match u {
        WordUse::Row => false,
        WordUse::Number => PARAMETER_LIMIT < word,
        WordUse::Nothing | WordUse::Cells => word != 0,
    }
}

// The number that a word must be below: a limit where the word is used, else 1.
fn limit_where(used: bool, limit: usize) -> usize
    ensures { result ≡ cond used limit 1 }
{
    if used {
        return limit;
    }
    1
}

// Whether a word is below its limit, where it is used, and 0 where not.
pub fn word_within(used: bool, limit: usize, word: u32) -> bool
    ensures { result ≡ ltb word (cond used limit 1) }
{
    (word as usize) < limit_where(used, limit)
}

// The width of a row.
pub fn width_at(width: &[u8], i: usize) -> usize
    requires { i < length width.now }
    ensures { (result ≤ byte_limit) × (result ≡ width_at width.now i) }
{
    width[i] as usize
}

// Whether the widths fit, of a kind without cells: the target's, the first operand's, and those of the rows b and c, read where the rule asks for them.
pub fn rule_fits(
    width: &[u8],
    rule: WidthRule,
    wt: usize,
    wa: usize,
    b: usize,
    p: usize,
    c: usize,
) -> bool
    requires { (rule ≡ CellWidths → ⊥) × (wt ≤ byte_limit) × (wa ≤ byte_limit) × (p ≤ row_limit) × Reads (rule_model rule) (length width.now) b c }
    ensures { let widths = width.now in
        result ≡ asks (rule_model rule) wt (wa ∷ width_at widths b ∷ width_at widths c ∷ []) p }
{
    match rule {
        WidthRule::SameWidth => wt == wa,
        WidthRule::SameWidths => wt == wa && wt == width_at(width, b),
        WidthRule::TakenWidth => p + wt <= wa,
        WidthRule::JoinedWidths => wt == wa + width_at(width, b),
        WidthRule::ExtendedWidth => wa <= wt,
        WidthRule::ComparedWidths => wa == width_at(width, b) && wt == 1,
        WidthRule::ChosenWidths => {
            wt == wa && wt == width_at(width, b) && width_at(width, c) == 1
        }
        WidthRule::CellWidths => unreachable!(),
    }
}
