// What the inventory's programs print of one input: an arena of at most 65,536 bytes, no node open.
#![tactic(auto)]

ghost use Rattle.std.specs.Prelude.{◌≡◌, ◌≤◌, length};
ghost use Rattle.base.specs.Parts.{paste};
ghost use Rattle.table.specs.Table.{empty_table};
ghost use Rattle.rules.specs.Tests.{checked};
ghost use Rattle.inventory.specs.Inventory.{fail_line, too_long, printed};

use calls_inventory::inventory;
use fsck::Verdict;
use inventory_lines::numbers::put_number;
use std::io;
use std::io::Read;

const MOST: usize = 65536;

// `too long`, at the output's start: where it ends.
fn put_too_long(out: &mut [u8]) -> usize
    requires { length out.old ≡ 65536 }
    ensures { (result ≡ length too_long) × (out.new ≡ paste out.old 0 too_long) }
{
    base::copy(&mut out[..9], b"too long\n");
    9
}

// `fail rule N`.
fn put_fail(out: &mut [u8], rule: u8) -> usize
    requires { length out.old ≡ 65536 }
    ensures { (result ≡ length (fail_line rule)) × (out.new ≡ paste out.old 0 (fail_line rule)) }
{
    base::copy(&mut out[..10], b"fail rule ");
    let end = put_number(out, 10, rule as u32);
    out[end] = b'\n';
    end + 1
}

// Of an arena that passes: the list, or that it is too long.
fn put_list(arena: &[u8], out: &mut [u8]) -> usize
    requires arena_len_bound { (length arena.now ≤ 65536) × (checked arena.now empty_table ≡ 0) }
    requires out_len { length out.old ≡ 65536 }
    ensures { (result ≡ length (printed arena.now)) × (out.new ≡ paste out.old 0 (printed arena.now)) }
{
    match inventory(arena, out) {
        Ok(n) => n,
        Err(_) => put_too_long(out),
    }
}

// What is printed, and how many bytes of it.
pub fn put_printed(arena: &[u8], out: &mut [u8]) -> usize
    requires { length out.old ≡ 65536 }
    ensures { (result ≡ length (printed arena.now)) × (out.new ≡ paste out.old 0 (printed arena.now)) }
{
    if arena.len() > MOST {
        return put_fail(out, 1);
    }
    let v = fsck::check(arena, table::empty());
    match v {
        Verdict::Pass { .. } => put_list(arena, out),
        Verdict::Fail(rule) => put_fail(out, rule),
    }
}

// The input's bytes, to its end or one past the limit.
pub fn report(rt: &impl Print, input: &mut impl Read) -> io::Result<()> {
    let mut arena = [0u8; 65537];
    let mut out = [0u8; MOST];
    let n = cases::read_full(input, &mut arena)?;
    let m = put_printed(&arena[..n], &mut out);
    rt.write_all(&out[..m])
}
