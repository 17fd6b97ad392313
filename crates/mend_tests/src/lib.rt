// Whether an arena can be mended (order 11): the checker's rules 3 to 5, a folder's part of rule 6, how often folders are named, and rule 8 of those
// that are.
#![tactic(auto)]

ghost use Rattle.std.specs.Prelude.{◌≡◌, true, length};
ghost use Rattle.base.specs.Parts.{part};
ghost use Rattle.table.specs.Table.{empty_table};
ghost use Rattle.mem.specs.Mem.{table_in, memory_size};
ghost use Rattle.chains.specs.Led.{Led};
ghost use Rattle.fsck_read.specs.Loaded.{Loaded, Of};
ghost use Rattle.fsck_links.specs.Counts.{Counted};
ghost use Rattle.rules.specs.Tests.{test3, test4, test5, folders_allowed};
ghost use Rattle.mending.specs.Mendable.{mendable};

use fsck_climb::tree_ok;
use fsck_links::{count_names, names_ok};
use fsck_names::rule5;
use fsck_read::{rule3, rule4};
use fsck_slots::folders_ok;

// What the tests of the arena leave to be asked of names: `work` has how often each id is named in its first half.
fn names_fit(arena: &[u8], first: &[u16], next: &[u16], mem: &[u8], work: &mut [u16]) -> bool
    requires led { Led arena.now first.now next.now }
    requires loaded { (Loaded mem.now × Of arena.now mem.now) × ((table_in mem.now ≡ empty_table) × (length work.old ≡ 8192)) }
    requires arena_value { (test3 arena.now ≡ true) × (test4 arena.now empty_table ≡ true) }
    requires empty_table_value { (test5 arena.now empty_table ≡ true) × (folders_allowed arena.now empty_table ≡ true) }
    ensures value { result ≡ mendable arena.now }
    ensures counted { Counted arena.now empty_table (part work.new 0 4096) }
{
    count_names(arena, first, next, mem, &mut work[..4096]);
    if !names_ok(arena, first, next, mem, &work[..4096]) {
        return false;
    }
    tree_ok(arena, first, next, mem, work)
}

fn files_fit(arena: &[u8], first: &[u16], next: &[u16], mem: &[u8], work: &mut [u16]) -> bool
    requires led { Led arena.now first.now next.now }
    requires loaded { (Loaded mem.now × Of arena.now mem.now) × ((table_in mem.now ≡ empty_table) × (length work.old ≡ 8192)) }
    requires arena_value { (test3 arena.now ≡ true) × (test4 arena.now empty_table ≡ true) }
    ensures value { result ≡ mendable arena.now }
    ensures counted { result ≡ true → Counted arena.now empty_table (part work.new 0 4096) }
{
    if !rule5(arena, first, next, mem) {
        return false;
    }
    if !folders_ok(arena, first, next, mem, &mut work[..7680]) {
        return false;
    }
    names_fit(arena, first, next, mem, work)
}

// By the chains that the tests of the arena left; the table in memory is the empty one. Superblock and maps go to `mem`.
pub fn can_mend(arena: &[u8], first: &[u16], next: &[u16], mem: &mut [u8], work: &mut [u16]) -> bool
    requires led { Led arena.now first.now next.now }
    requires mem_len { (length mem.old ≡ memory_size) × ((table_in mem.old ≡ empty_table) × (length work.old ≡ 8192)) }
    ensures value { result ≡ mendable arena.now }
    ensures loaded { result ≡ true → ((Loaded mem.new × Of arena.now mem.new) × ((table_in mem.new ≡ empty_table) × Counted arena.now empty_table (part work.new 0 4096))) }
{
    if !rule3(arena, first, next, mem) {
        return false;
    }
    if !rule4(arena, first, next, &mem[..]) {
        return false;
    }
    files_fit(arena, first, next, &mem[..], work)
}
