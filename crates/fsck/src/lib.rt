// The check call: pass with three counts, or the lowest failing rule of document 01. It never refuses. The chains of `sound` lead to a
// file's head and to its blocks, so that no rule searches all blocks.
#![tactic(auto)]

ghost use Rattle.std.specs.Prelude.{◌≡◌, true, ℕ, ◌≤◌, ◌<◌, length, get_or};
ghost use Rattle.arena.specs.Blocks.{blocks, legal};
ghost use Rattle.mem.specs.Mem.{table_in, Whole, memory_size};
ghost use Rattle.rules.specs.Tests.{test3, test4, test5, test6};
ghost use Rattle.chains.specs.Led.{Led};
ghost use Rattle.fsck_read.specs.Loaded.{Loaded, Of};
ghost use Rattle.fsck.specs.Verdicts.{pass_of, verdict_of, links_verdict, files_verdict, meta_verdict};

use fsck_climb::tree_ok;
use fsck_links::{count_names, rule7};
use fsck_names::rule5;
use fsck_read::{count_nodes, rule3, rule4};
use fsck_slots::{folders_ok, sizes_ok};
use holds::well_formed;
use mem::{MEMORY, put_table, super_at};
use table::Table;

#[derive(Clone, Copy)]
pub enum Verdict {
    Pass { nodes: u32, unused: u32, free: u32 },
    Fail(u8),
}

fn pass(arena: &[u8], mem: &[u8]) -> Verdict
    requires arena_bound { blocks arena.now ≤ 4096 }
    requires loaded { Loaded mem.now × Of arena.now mem.now }
    ensures { result ≡ pass_of arena.now }
{
    let nodes = count_nodes(mem);
    let unused = super_at(mem).unused;
    let free = arena::free_count(arena);
    Verdict::Pass {
        nodes: nodes,
        unused: unused,
        free: free as u32,
    }
}

// Rule 6, with the hashes that it needs of a folder's names.
fn rule6(arena: &[u8], first: &[u16], next: &[u16], mem: &[u8]) -> bool
    requires led { Led arena.now first.now next.now }
    requires loaded { Loaded mem.now × Of arena.now mem.now }
    ensures { result ≡ test6 arena.now (table_in mem.now) }
{
    let mut hashes = [0u16; 7680];
    if !folders_ok(arena, first, next, mem, &mut hashes) {
        return false;
    }
    sizes_ok(arena, first, next, mem)
}

fn judge_links(arena: &[u8], first: &[u16], next: &[u16], mem: &[u8], work: &mut [u16]) -> Verdict
    requires led { Led arena.now first.now next.now }
    requires loaded { (Loaded mem.now × Of arena.now mem.now) × (length work.old ≡ 8192) }
    requires arena_value { (test3 arena.now ≡ true) × (test4 arena.now (table_in mem.now) ≡ true) }
    requires mem_value { (test5 arena.now (table_in mem.now) ≡ true) × (test6 arena.now (table_in mem.now) ≡ true) }
    ensures { result ≡ links_verdict arena.now (table_in mem.now) }
{
    count_names(arena, first, next, mem, &mut work[..4096]);
    if !rule7(arena, first, next, mem, &work[..4096]) {
        return Verdict::Fail(7);
    }
    if !tree_ok(arena, first, next, mem, work) {
        return Verdict::Fail(8);
    }
    pass(arena, mem)
}

// The counts and what slot 1 names have their own frame.
fn judge_tree(arena: &[u8], first: &[u16], next: &[u16], mem: &[u8]) -> Verdict
    requires led { Led arena.now first.now next.now }
    requires loaded { Loaded mem.now × Of arena.now mem.now }
    requires arena_value { (test3 arena.now ≡ true) × (test4 arena.now (table_in mem.now) ≡ true) }
    requires mem_value { (test5 arena.now (table_in mem.now) ≡ true) × (test6 arena.now (table_in mem.now) ≡ true) }
    ensures { result ≡ links_verdict arena.now (table_in mem.now) }
{
    let mut work = [0u16; 8192];
    judge_links(arena, first, next, mem, &mut work)
}

fn judge_files(arena: &[u8], first: &[u16], next: &[u16], mem: &[u8]) -> Verdict
    requires led { Led arena.now first.now next.now }
    requires loaded { Loaded mem.now × Of arena.now mem.now }
    requires arena_value { (test3 arena.now ≡ true) × (test4 arena.now (table_in mem.now) ≡ true) }
    ensures { result ≡ files_verdict arena.now (table_in mem.now) }
{
    if !rule5(arena, first, next, mem) {
        return Verdict::Fail(5);
    }
    if !rule6(arena, first, next, mem) {
        return Verdict::Fail(6);
    }
    judge_tree(arena, first, next, mem)
}

// What follows the tests of arena and table, by the chains that they left: rules 3 to 8.
pub fn check_led(arena: &[u8], first: &[u16], next: &[u16], mem: &mut [u8]) -> Verdict
    requires led { Led arena.now first.now next.now }
    requires mem_len { length mem.old ≡ memory_size }
    ensures { result ≡ meta_verdict arena.now (table_in mem.old) }
{
    if !rule3(arena, first, next, mem) {
        return Verdict::Fail(3);
    }
    if !rule4(arena, first, next, &mem[..]) {
        return Verdict::Fail(4);
    }
    judge_files(arena, first, next, &mem[..])
}

fn check_in(arena: &[u8], chains: &mut [u16], mem: &mut [u8]) -> Verdict
    requires arena_value { (legal arena.now ≡ true) × ((length chains.old ≡ 8192) × Whole mem.old) }
    requires by_index { (h : ℕ) → h < 4096 → get_or chains.old h 0 ≡ 0 }
    ensures { result ≡ verdict_of arena.now (table_in mem.old) }
{
    if !sound::sound_in(arena, chains) {
        return Verdict::Fail(1);
    }
    if !well_formed(&mem[..]) {
        return Verdict::Fail(2);
    }
    let c = &chains[..];
    check_led(arena, &c[..4096], &c[4096..], mem)
}

// The call on the table in memory.
pub fn check_on(arena: &[u8], mem: &mut [u8]) -> Verdict
    requires { Whole mem.old }
    ensures { result ≡ verdict_of arena.now (table_in mem.old) }
{
    if !arena::legal(arena) {
        return Verdict::Fail(1);
    }
    let mut chains = [0u16; 8192];
    check_in(arena, &mut chains, mem)
}

pub fn check(arena: &[u8], t: Table) -> Verdict
    ensures { result ≡ verdict_of arena.now t }
{
    let mut mem = [0u8; MEMORY];
    put_table(&mut mem, t);
    check_on(arena, &mut mem)
}
