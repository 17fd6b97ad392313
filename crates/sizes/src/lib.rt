// A node's file reached by its handle, and its length and size made another: what write, resize and fallocate share.
#![tactic(auto)]

ghost use Rattle.std.specs.Prelude.{◌≡◌, true, ◌+◌, ◌≤◌};
ghost use Rattle.std.specs.Result.{result_unwrap_or};
ghost use Rattle.base.specs.Told.{code};
ghost use Rattle.base.specs.Out.{Went, answer, done};
ghost use Rattle.arena.specs.Fields.{file};
ghost use Rattle.arena.specs.Places.{head_of};
ghost use Rattle.sound.specs.Sound.{sound};
ghost use Rattle.files.specs.Read.{there};
ghost use Rattle.files.specs.Store.{cut_file};
ghost use Rattle.sefs.specs.Contents.{not_too_big};
ghost use Rattle.mem.specs.Mem.{table_in, Whole};
ghost use Rattle.calls.specs.Asked.{Admitted};
ghost use Rattle.sizes.specs.Sizes.{ask_record, ask_end, no_sizing, Reached, Sized};

use base::{Reason, index};
use calls::{by_handle, has_contents};
use chains::head_at;
use inplace::{free_past, set_length, zero_tail};
use le::u32_at;
use mem::{rec_at, set_rec};
use structs::DiskINode;
use table::Handle;

// 22: the end of n bytes from `place` on passes the longest length. The sum never overflows.
pub fn not_too_big(place: u64, n: u64) -> Result<(), Reason>
    ensures { code result ≡ answer (not_too_big (place + n)) }
{
    if n > 4294967295 {
        return Err(Reason::FileTooBig);
    }
    if place > 4294967295 - n {
        return Err(Reason::FileTooBig);
    }
    Ok(())
}

// ---- the stores, once nothing can refuse them

// The length of the file whose head is block k becomes n.
fn cut(arena: &mut [u8], k: usize, name: &[u8; 16], n: usize)
    requires { (sound arena.old ≡ true) × ((k ≡ head_of arena.old (file 1 name.now)) × ((there arena.old (file 1 name.now) ≡ true) × (n ≤ 4294967295))) }
    ensures { cut_file arena.old (file 1 name.now) n ≡ done arena.new }
{
    let o = 512 * k;
    let long = index(u32_at(&arena[o..o + 512], 20));
    set_length(arena, k, n as u32);
    if long <= n {
        return;
    }
    free_past(arena, 1, name, n);
    zero_tail(arena, 1, name, n);
}

// The node of row i, whose file's head is block k.
pub fn set_size(arena: &mut [u8], mem: &mut [u8], i: usize, k: usize, n: usize)
    requires { Whole mem.old × Reached arena.old (table_in mem.old) i k n }
    ensures { Sized arena.old arena.new mem.old mem.new i n }
{
    let mut rec = rec_at(&mem[..], i);
    let name = rec.file;
    cut(arena, k, &name, n);
    rec.size = n as u64;
    set_rec(mem, i, rec);
}

// ---- before the first store

// The handle's row, and the head of its file.
#[derive(Clone, Copy)]
pub struct Sizing {
    pub row: usize,
    pub head: usize,
}

fn ask_record(rec: DiskINode, place: u64, n: u64) -> Result<(), Reason>
    ensures { code result ≡ answer (ask_record rec (place + n)) }
{
    has_contents(rec)?;
    not_too_big(place, n)
}

// What follows the tests of arena and table, by the chains that they left, for an end of n bytes from `place` on.
pub fn reach_file(
    arena: &[u8],
    first: &[u16],
    next: &[u16],
    mem: &[u8],
    who: u8,
    h: Handle,
    place: u64,
    n: u64,
) -> Result<Sizing, Reason>
    requires { Admitted arena.now first.now next.now mem.now }
    ensures { Went (ask_end arena.now (table_in mem.now) who h (place + n)) (result_unwrap_or result no_sizing).row (Reached arena.now (table_in mem.now) (result_unwrap_or result no_sizing).row (result_unwrap_or result no_sizing).head (place + n)) (code result) }
{
    let row = by_handle(mem, who, h)?;
    let rec = rec_at(mem, row);
    ask_record(rec, place, n)?;
    let name = rec.file;
    let c = head_at(arena, first, next, 1, &name);
    if c == 0 {
        return Err(Reason::Stuck);
    }
    Ok(Sizing { row, head: c - 1 })
}
