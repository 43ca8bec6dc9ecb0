// The records of a table, drawn so that it loses nothing (02, request 10).
ghost use Rattle.std.specs.Prelude.{◌<◌};

use crate::cells::drawn_memory;
use crate::draws::drawn;
use crate::kinds::{drawn_kind, parameter, second_width, target_width};
use crate::rows::{ROWS, Rows, once_read, once_written, singleton, unread_row, width_of};
use oracle::shapes::{LOAD, STORE, uses_condition, uses_second};

// The greatest width at which a set of numbers has 64 bits.
const MOST: u64 = 6;

// The kind `not`, for which one row is enough.
const NOT: u64 = 1;

// The words of a record, and the width of its target.
#[derive(Clone, Copy)]
pub struct Record {
    pub kind: u64,
    pub t: u64,
    pub a: u64,
    pub b: u64,
    pub p: u64,
    pub c: u64,
    pub wt: u64,
}

// Different rows for a record to read, the last two where they are there.
#[derive(Clone, Copy)]
struct Operands {
    a: u64,
    b: Option<u64>,
    condition: Option<u64>,
}

// Rows to read: any, one of a width that suits the kind, and one of width 1. The first is always there, since at least three rows are unread.
fn drawn_operands(table: u64, k: u64, rows: Rows, kind: u64) -> Operands {
    let width = rows.width;
    let a = unread_row(rows, drawn(table, k, 1, ROWS), 0).unwrap_or(0);
    let wb = second_width(kind, width_of(width, a));
    let rest = once_read(rows, singleton(a));
    let b = unread_row(rest, drawn(table, k, 2, ROWS), wb);
    let rest = once_read(rest, b.map_or(0, singleton));
    let condition = unread_row(rest, drawn(table, k, 3, ROWS), 1);
    Operands { a, b, condition }
}

// The kind, or `not` where a row is missing.
fn fitting_kind(kind: u64, o: Operands) -> u64 {
    if uses_second(kind) && o.b == None || uses_condition(kind) && o.condition == None {
        return NOT;
    }
    kind
}

// The target: row 6 + k, or for the last record, where row 0 has the width, at times row 0.
pub fn drawn_target(table: u64, k: u64, wt: u64, w0: u64) -> u64
    requires { k < 4 }
{
    if k == 3 && wt == w0 && drawn(table, k, 6, 2) == 0 {
        return 0;
    }
    6 + k
}

// The record of a kind on these operands.
fn record_of(table: u64, k: u64, rows: Rows, kind: u64, o: Operands) -> Record
    requires { k < 4 }
{
    let width = rows.width;
    let b = o.b.unwrap_or(0);
    let wa = width_of(width, o.a);
    let wb = width_of(width, b);
    let p = parameter(kind, drawn(table, k, 4, 4096), wa);
    let wt = target_width(kind, drawn(table, k, 5, 4096), wa, wb, p);
    Record {
        kind,
        t: drawn_target(table, k, wt, width_of(width, 0)),
        a: o.a,
        b: if uses_second(kind) { b } else { 0 },
        p,
        c: if uses_condition(kind) {
            o.condition.unwrap_or(0)
        } else {
            0
        },
        wt,
    }
}

// Record k on these rows: `not` where a row for its kind is missing, or where it is not the last and its target would be too wide. Only the last may have cells.
pub fn drawn_record(table: u64, k: u64, rows: Rows) -> Record
    requires { k < 4 }
{
    let kind = drawn_kind(table, k);
    let o = drawn_operands(table, k, rows, kind);
    if kind >= LOAD {
        return drawn_memory(table, rows, kind).unwrap_or(record_of(table, k, rows, NOT, o));
    }
    let r = record_of(table, k, rows, fitting_kind(kind, o), o);
    if k < 3 && r.wt > MOST {
        return record_of(table, k, rows, NOT, o);
    }
    r
}

// The rows that a record reads.
fn rows_read(r: Record) -> u64 {
    let mut set = singleton(r.a);
    if uses_second(r.kind) {
        set |= singleton(r.b);
    }
    if uses_condition(r.kind) {
        set |= singleton(r.c);
    }
    set
}

// The rows once a record has run. After the last one only the widths count, and a store leaves those.
pub fn after(rows: Rows, r: Record) -> Rows {
    if r.kind == STORE {
        return rows;
    }
    once_written(once_read(rows, rows_read(r)), r.t, r.wt)
}
