// The table of open nodes, by value: 34 rows with a cached record, 32 holds on them, each with an owner, and the next stamp. Its rows and holds are found and
// changed in a call's memory, on the table's bytes.
// A refused call returns the table that it was given.
#![tactic(auto)]

ghost use Rattle.std.specs.Prelude.{◌≡◌};
ghost use Rattle.table.specs.Zero.{zero_record, zero_row, bytes_zero, time_zero, numbers_zero, record_zero};
ghost use Rattle.table.specs.Table.{empty_table};

use structs::{DiskINode, Timespec};

// How many rows and holds a table has, how many people may ask, and how many holds each of them may have.
pub const ROWS: usize = 34;

pub const HOLDS: usize = 32;

pub const OWNERS: u8 = 4;

pub const OWN_HOLDS: usize = 8;

// A node's cached record. Id 0 is a free row.
#[repr(C)]
#[derive(Clone, Copy)]
pub struct Row {
    pub id: u32,
    pub dirty: bool,
    pub rec: DiskINode,
}

// One opening of a row, and whose it is: an owner from 1 to 4. Stamp 0 is a free hold.
#[repr(C)]
#[derive(Clone, Copy)]
pub struct Hold {
    pub row: u32,
    pub stamp: u64,
    pub owner: u8,
}

#[repr(C)]
#[derive(Clone, Copy)]
pub struct Table {
    pub rows: [Row; 34],
    pub holds: [Hold; 32],
    pub next: u64,
}

// What a caller keeps of an opening: a hold's number, and the stamp that tells it from later holds of that number.
#[repr(C)]
#[derive(Clone, Copy)]
pub struct Handle {
    pub hold: u32,
    pub stamp: u64,
}

#[derive(Clone, Copy)]
pub struct Added {
    pub handle: Handle,
    pub table: Table,
}

#[derive(Clone, Copy)]
pub struct Closed {
    pub last: bool,
    pub table: Table,
}

// ---- all zero

pub fn zero_record() -> DiskINode
    ensures { result ≡ zero_record }
{
    DiskINode {
        size: 0,
        kind: 0,
        mode: 0,
        nlinks: 0,
        blocks: 0,
        uid: 0,
        gid: 0,
        pad: 0,
        atime: Timespec { sec: 0, nsec: 0 },
        mtime: Timespec { sec: 0, nsec: 0 },
        ctime: Timespec { sec: 0, nsec: 0 },
        file: [0; 16],
        mac: [0; 16],
    }
}

fn zero_row() -> Row
    ensures { result ≡ zero_row }
{
    Row {
        id: 0,
        dirty: false,
        rec: zero_record(),
    }
}

#[tactic(auto, using(crate::proofs::Bytes::zero_bytes))]
fn bytes_zero(b: [u8; 16]) -> bool
    ensures { result ≡ bytes_zero b }
{
    b == [0; 16]
}

#[tactic(auto, unfolding(crate::specs::Zero::time_zero), using(crate::proofs::Signs::zero_z))]
fn time_zero(s: Timespec) -> bool
    ensures { result ≡ time_zero s }
{
    s.sec == 0 && s.nsec == 0
}

#[tactic(auto, unfolding(crate::specs::Zero::numbers_zero))]
fn numbers_zero(r: DiskINode) -> bool
    ensures { result ≡ numbers_zero r }
{
    matches!(
        r,
        DiskINode {
            size: 0,
            kind: 0,
            mode: 0,
            nlinks: 0,
            blocks: 0,
            uid: 0,
            gid: 0,
            pad: 0,
            ..
        }
    )
}

#[tactic(auto, unfolding(crate::specs::Zero::record_zero))]
pub fn record_zero(r: DiskINode) -> bool
    ensures { result ≡ record_zero r }
{
    numbers_zero(r)
        && time_zero(r.atime)
        && time_zero(r.mtime)
        && time_zero(r.ctime)
        && bytes_zero(r.file)
        && bytes_zero(r.mac)
}

pub fn empty() -> Table
    ensures { result ≡ empty_table }
{
    let hold = Hold {
        row: 0,
        stamp: 0,
        owner: 0,
    };
    Table {
        rows: [zero_row(); 34],
        holds: [hold; 32],
        next: 1,
    }
}
