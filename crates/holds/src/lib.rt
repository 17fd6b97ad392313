// The holds of the table in memory, and whether that table is well formed: on its bytes, since a table by value takes 4.9 KB of the stack
// wherever it is passed.
#![tactic(auto)]

ghost use Rattle.std.specs.Prelude.{◌≡◌, ◌<◌, Some};
ghost use Rattle.table.specs.Table.{hold_at, with_hold, hold_of, live_row, is_owner, own_holds, no_holds, can_hold, add_at, add_hold, close_hold};
ghost use Rattle.table.specs.Formed.{is_at, hold_ok, row_ok, holds_ok, rows_ok, owners_ok, well_formed};
ghost use Rattle.mem.specs.Mem.{table_in, Whole, Tabled};
ghost use Rattle.holds.specs.Holds.{with_next, live_ok};

use base::{found_below, index};
use mem::{find_row, id_at, row_at, row_held};
use table::{Handle, Hold, record_zero};

fn hold_at(mem: &[u8], n: usize) -> Hold
    requires { Whole mem.now × (n < 32) }
    ensures { result ≡ hold_at (table_in mem.now) n }
{
    table_bytes::hold_in(mem, 3978 + 13 * n)
}

fn next_stamp(mem: &[u8]) -> u64
    requires { Whole mem.now }
    ensures { result ≡ (table_in mem.now).next }
{
    le::u64_at(mem, 4394)
}

fn put_hold(mem: &mut [u8], n: usize, h: Hold)
    requires { Whole mem.old × (n < 32) }
    ensures { Tabled mem.old mem.new (with_hold (table_in mem.old) n h) }
{
    table_bytes::put_hold(mem, 3978 + 13 * n, h);
}

fn put_next(mem: &mut [u8], next: u64)
    requires { Whole mem.old }
    ensures { Tabled mem.old mem.new (with_next (table_in mem.old) next) }
{
    le::put_u64(mem, 4394, next);
}

// The lowest hold with that stamp; stamp 0 asks for a free hold.
fn find_hold(mem: &[u8], stamp: u64) -> Option<usize>
    requires { Whole mem.now }
    ensures { result ≡ hold_of (table_in mem.now) stamp }
{
    for n in 0..32 {
        if hold_at(mem, n).stamp == stamp {
            return Some(n);
        }
    }
    None
}

// No hold is live, whoever's: reason 24 is where this is false.
pub fn no_holds(mem: &[u8]) -> bool
    requires { Whole mem.now }
    ensures { result ≡ no_holds (table_in mem.now) }
{
    (0..32).all(|n| hold_at(mem, n).stamp == 0)
}

// ---- handles

// The row of a live handle of who asks.
pub fn live(mem: &[u8], who: u8, h: Handle) -> Option<usize>
    requires { Whole mem.now }
    ensures { result ≡ live_row (table_in mem.now) who h }
{
    let n = index(h.hold);
    if n >= 32 {
        return None;
    }
    let held = hold_at(mem, n);
    if ((h.stamp != 0) & (held.stamp == h.stamp)) & (held.owner == who) {
        return found_below(index(held.row), 34);
    }
    None
}

// Owners are 1 to 4.
pub fn is_owner(who: u8) -> bool
    ensures { result ≡ is_owner who }
{
    (0 < who) & (who < 5)
}

// How many live holds are who's.
fn own_holds(mem: &[u8], who: u8) -> usize
    requires { Whole mem.now }
    ensures { result ≡ own_holds (table_in mem.now) who }
{
    let mut own: usize = 0;
    for n in 0..32 {
        let h = hold_at(mem, n);
        if (h.stamp != 0) & (h.owner == who) {
            own += 1;
        }
    }
    own
}

// Reason 16 is where this is false.
pub fn can_hold(mem: &[u8], who: u8) -> bool
    requires { Whole mem.now }
    ensures { result ≡ can_hold (table_in mem.now) who }
{
    (own_holds(mem, who) < 8) & (next_stamp(mem) < 18446744073709551615)
}

// A hold of who's on the row with the next stamp, at the free hold n.
fn give_hold(mem: &mut [u8], who: u8, n: usize, row: u32) -> Handle
    requires { Whole mem.old × ((n < 32) × ((table_in mem.old).next < 18446744073709551615)) }
    ensures { add_at (table_in mem.old) who row (Some n) ≡ record { handle = result; table = table_in mem.new } }
{
    let next = next_stamp(&mem[..]);
    put_hold(
        mem,
        n,
        Hold {
            row,
            stamp: next,
            owner: who,
        },
    );
    put_next(mem, next + 1);
    Handle {
        hold: n as u32,
        stamp: next,
    }
}

// A hold of who's on the row with the next stamp, the lowest that is free. Where none can be given, stamp 0 and the table as it was.
pub fn add_hold(mem: &mut [u8], who: u8, row: u32) -> Handle
    requires { Whole mem.old }
    ensures { add_hold (table_in mem.old) who row ≡ record { handle = result; table = table_in mem.new } }
{
    if !can_hold(&mem[..], who) {
        return Handle { hold: 0, stamp: 0 };
    }
    let f = find_hold(&mem[..], 0);
    match f {
        Some(n) => give_hold(mem, who, n, row),
        None => Handle { hold: 0, stamp: 0 },
    }
}

// The hold becomes all zero: whether that was the last on its row. The row stays, for the caller to store and to free then.
pub fn close_hold(mem: &mut [u8], hold: u32) -> bool
    requires { Whole mem.old }
    ensures { close_hold (table_in mem.old) hold ≡ record { last = result; table = table_in mem.new } }
{
    let n = index(hold);
    if n >= 32 {
        return false;
    }
    let row = hold_at(&mem[..], n).row;
    put_hold(
        mem,
        n,
        Hold {
            row: 0,
            stamp: 0,
            owner: 0,
        },
    );
    !row_held(&mem[..], index(row))
}

// ---- well formed

fn is_at(f: Option<usize>, i: usize) -> bool
    ensures { result ≡ is_at f i }
{
    f == Some(i)
}

// A live hold: its row is in use, its stamp is below the next, no lower hold has the stamp, and its owner is one.
fn live_ok(mem: &[u8], n: usize, h: Hold) -> bool
    requires { Whole mem.now × (h ≡ hold_at (table_in mem.now) n) }
    ensures { result ≡ live_ok (table_in mem.now) n }
{
    let row = index(h.row);
    if row >= 34 {
        return false;
    }
    (id_at(mem, row) != 0)
        & ((h.stamp < next_stamp(mem)) & (is_at(find_hold(mem, h.stamp), n) & is_owner(h.owner)))
}

fn hold_ok(mem: &[u8], n: usize) -> bool
    requires { Whole mem.now × (n < 32) }
    ensures { result ≡ hold_ok (table_in mem.now) n }
{
    let h = hold_at(mem, n);
    if h.stamp == 0 {
        return (h.row == 0) & (h.owner == 0);
    }
    live_ok(mem, n, h)
}

fn row_ok(mem: &[u8], i: usize) -> bool
    requires { Whole mem.now × (i < 34) }
    ensures { result ≡ row_ok (table_in mem.now) i }
{
    let row = row_at(mem, i);
    if row.id == 0 {
        let rec = row.rec;
        return (!row.dirty) & record_zero(rec);
    }
    is_at(find_row(mem, row.id), i) & row_held(mem, i)
}

fn holds_ok(mem: &[u8]) -> bool
    requires { Whole mem.now }
    ensures { result ≡ holds_ok (table_in mem.now) }
{
    (0..32).all(|n| hold_ok(mem, n))
}

// No owner has more than 8.
fn owners_ok(mem: &[u8]) -> bool
    requires { Whole mem.now }
    ensures { result ≡ owners_ok (table_in mem.now) }
{
    (1..5).all(|who| own_holds(mem, who) <= 8)
}

fn rows_ok(mem: &[u8]) -> bool
    requires { Whole mem.now }
    ensures { result ≡ rows_ok (table_in mem.now) }
{
    (0..34).all(|i| row_ok(mem, i))
}

// For any table, also one that no call returned.
pub fn well_formed(mem: &[u8]) -> bool
    requires { Whole mem.now }
    ensures { result ≡ well_formed (table_in mem.now) }
{
    (1 <= next_stamp(mem)) & (holds_ok(mem) & (owners_ok(mem) & rows_ok(mem)))
}
