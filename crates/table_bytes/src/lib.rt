// The bytes of a table of open nodes, 4,402 of them: what a call has of it in memory, and what a program keeps or compares.
#![tactic(auto)]

ghost use Rattle.std.specs.Prelude.{◌≡◌, [], ◌∷◌, ℕ, ◌+◌, ◌<◌, ◌≤◌, length, get_or};
ghost use Rattle.base.specs.Parts.{part, paste};
ghost use Rattle.table.specs.Zero.{zero_hold};
ghost use Rattle.table.specs.Table.{off_row, empty_table};
ghost use Rattle.table_bytes.specs.Runs.{run_to, list_to};
ghost use Rattle.table_bytes.specs.Layout.{row_from, row_bytes, row_at_place, hold_from, hold_bytes, hold_at_place, table_of, bytes_of_table};

use table::{Hold, Row, Table};

// How long a row, a hold and the whole table are, and where the holds and the next stamp stand.
pub const ROW: usize = 117;

pub const HOLD: usize = 13;

pub const HOLDS_AT: usize = 3978;

pub const NEXT_AT: usize = 4394;

pub const TABLE: usize = 4402;

// Of a row: the dirty mark and the record.
pub const MARK_AT: usize = 4;

pub const RECORD_AT: usize = 5;

// A row, 117 bytes.
pub fn row_in(s: &[u8], at: usize) -> Row
    requires { at + 117 ≤ length s.now }
    ensures { result ≡ row_from (part s.now at (at + 117)) }
{
    let id = le::u32_at(s, at);
    let dirty = s[at + MARK_AT] != 0;
    let rec = structs::disk_inode_at(s, at + RECORD_AT);
    Row { id, dirty, rec }
}

fn put_byte(out: &mut [u8], at: usize, b: u8)
    requires { at + 1 ≤ length out.old }
    ensures { out.new ≡ paste out.old at (b ∷ []) }
{
    out[at] = b;
}

// That a row has 117 bytes is known of a parameter alone, by its type: so it is said here.
pub fn put_row(out: &mut [u8], at: usize, r: Row)
    requires { at + 117 ≤ length out.old }
    ensures { (out.new ≡ paste out.old at (row_bytes r)) × (length (row_bytes r) ≡ 117) }
{
    let mark = base::one(r.dirty);
    le::put_u32(out, at, r.id);
    put_byte(out, at + MARK_AT, mark);
    structs::put_disk_inode(out, at + RECORD_AT, r.rec);
}

// A hold, 13 bytes.
pub fn hold_in(s: &[u8], at: usize) -> Hold
    requires { at + 13 ≤ length s.now }
    ensures { result ≡ hold_from (part s.now at (at + 13)) }
{
    Hold {
        row: le::u32_at(s, at),
        stamp: le::u64_at(s, at + 4),
        owner: s[at + 12],
    }
}

pub fn put_hold(out: &mut [u8], at: usize, h: Hold)
    requires { at + 13 ≤ length out.old }
    ensures { out.new ≡ paste out.old at (hold_bytes h) }
{
    le::put_u32(out, at, h.row);
    le::put_u64(out, at + 4, h.stamp);
    put_byte(out, at + 12, h.owner);
}

fn rows_in(s: &[u8]) -> [Row; 34]
    requires { 4402 ≤ length s.now }
    ensures { result ≡ list_to (row_at_place s.now) 34 }
{
    let z = Row {
        id: 0,
        dirty: false,
        rec: table::zero_record(),
    };
    let mut rows = [z; 34];
    for (i, row) in rows.iter_mut().enumerate() {
        *row = row_in(s, ROW * i);
    }
    rows
}

fn put_rows(out: &mut [u8], rows: [Row; 34])
    requires { 4402 ≤ length out.old }
    ensures { (out.new ≡ paste out.old 0 (run_to (λ i. row_bytes (get_or rows i off_row)) 34)) × ((i : ℕ) → i < 34 → length (row_bytes (get_or rows i off_row)) ≡ 117) }
{
    for (i, row) in rows.iter().enumerate() {
        put_row(out, ROW * i, *row);
    }
}

fn holds_in(s: &[u8]) -> [Hold; 32]
    requires { 4402 ≤ length s.now }
    ensures { result ≡ list_to (hold_at_place s.now) 32 }
{
    let z = Hold {
        row: 0,
        stamp: 0,
        owner: 0,
    };
    let mut holds = [z; 32];
    for (i, hold) in holds.iter_mut().enumerate() {
        *hold = hold_in(s, HOLDS_AT + HOLD * i);
    }
    holds
}

fn put_holds(out: &mut [u8], holds: [Hold; 32])
    requires { 4402 ≤ length out.old }
    ensures { out.new ≡ paste out.old 3978 (run_to (λ i. hold_bytes (get_or holds i zero_hold)) 32) }
{
    for (i, hold) in holds.iter().enumerate() {
        put_hold(out, HOLDS_AT + HOLD * i, *hold);
    }
}

pub fn read_table(s: &[u8]) -> Table
    requires { 4402 ≤ length s.now }
    ensures { result ≡ table_of s.now }
{
    let rows = rows_in(s);
    let holds = holds_in(s);
    let next = le::u64_at(s, NEXT_AT);
    Table { rows, holds, next }
}

pub fn write_table(out: &mut [u8], t: Table)
    requires { 4402 ≤ length out.old }
    ensures { out.new ≡ paste out.old 0 (bytes_of_table t) }
{
    put_rows(out, t.rows);
    put_holds(out, t.holds);
    le::put_u64(out, NEXT_AT, t.next);
}

// The bytes as they are written: a mark that is neither 0 nor 1 reads as dirty, and becomes 1. No table by value is made for it.
pub fn settle_marks(table: &mut [u8])
    requires { length table.old ≡ 4402 }
    ensures { table.new ≡ bytes_of_table (table_of table.old) }
{
    for i in 0..table::ROWS {
        let at = ROW * i + MARK_AT;
        let dirty = table[at] != 0;
        table[at] = base::one(dirty);
    }
}

// The table that has no row in use: all zero but the next stamp.
pub fn put_empty(out: &mut [u8])
    requires { 4402 ≤ length out.old }
    ensures { out.new ≡ paste out.old 0 (bytes_of_table empty_table) }
{
    base::clear(&mut out[..NEXT_AT]);
    le::put_u64(out, NEXT_AT, 1);
}
