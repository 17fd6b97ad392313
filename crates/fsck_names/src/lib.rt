// Rule 5: node types, file names distinct, one file each, no other node files; node 2 is a folder.
#![tactic(auto)]

ghost use Rattle.std.specs.Prelude.{◌≡◌, true, ◌+◌, ◌<◌, ◌≤◌, length, set};
ghost use Rattle.base.specs.Count.{all_to};
ghost use Rattle.arena.specs.Blocks.{blocks};
ghost use Rattle.arena.specs.Places.{head_of};
ghost use Rattle.sefs.specs.Nodes.{node_file};
ghost use Rattle.mem.specs.Mem.{table_in};
ghost use Rattle.rules.specs.Image.{ids_in};
ghost use Rattle.rules.specs.Tests.{node_allowed, test5};
ghost use Rattle.chains.specs.Led.{Led};
ghost use Rattle.fsck_read.specs.Loaded.{Loaded, Of};
ghost use Rattle.fsck_names.specs.Names.{claimable, Claimed, head_claimed};

use fsck_read::{ids, is_node, rec_of};
use sound::chain::find;
use structs::DiskINode;
use verdicts::is_type;

// The head of the node's file is marked; false where it is not there, or marked already.
fn claim(arena: &[u8], first: &[u16], next: &[u16], rec: DiskINode, claimed: &mut [u8]) -> bool
    requires led { Led arena.now first.now next.now }
    requires claimed_len { length claimed.old ≡ 4096 }
    ensures value { result ≡ claimable arena.now claimed.old rec }
    ensures claimed_after { result ≡ true → claimed.new ≡ set claimed.old (head_of arena.now (node_file rec)) 1 }
{
    let file = rec.file;
    let c = find(arena, first, next, true, 1, &file, 0);
    if c == 0 || claimed[c - 1] != 0 {
        return false;
    }
    claimed[c - 1] = 1;
    true
}

fn node_ok(
    arena: &[u8],
    first: &[u16],
    next: &[u16],
    mem: &[u8],
    id: usize,
    claimed: &mut [u8],
) -> bool
    requires led { Led arena.now first.now next.now }
    requires loaded { (Loaded mem.now × Of arena.now mem.now) × (id < 4096) }
    requires claimed { Claimed arena.now (table_in mem.now) claimed.old id }
    ensures value { result ≡ node_allowed arena.now (table_in mem.now) id }
    ensures claimed_2 { result ≡ true → Claimed arena.now (table_in mem.now) claimed.new (id + 1) }
{
    if !is_node(mem, id) {
        return true;
    }
    let rec = rec_of(arena, first, next, mem, id);
    if !is_type(rec.kind) {
        return false;
    }
    claim(arena, first, next, rec, claimed)
}

fn nodes_ok(arena: &[u8], first: &[u16], next: &[u16], mem: &[u8], claimed: &mut [u8]) -> bool
    requires led { Led arena.now first.now next.now }
    requires loaded { Loaded mem.now × Of arena.now mem.now }
    requires claimed { Claimed arena.now (table_in mem.now) claimed.old 0 }
    ensures value { result ≡ all_to (node_allowed arena.now (table_in mem.now)) (ids_in arena.now) }
    ensures claimed_2 { result ≡ true → Claimed arena.now (table_in mem.now) claimed.new (ids_in arena.now) }
{
    for id in 0..ids(mem) {
        if !node_ok(arena, first, next, mem, id, claimed) {
            return false;
        }
    }
    true
}

// Where block k is the head of a node file, a node has claimed it.
fn head_ok(arena: &[u8], claimed: &[u8], k: usize) -> bool
    requires { (k < blocks arena.now) × (k < length claimed.now) }
    ensures { result ≡ head_claimed arena.now claimed.now k }
{
    let o = 512 * k;
    if arena[o] == 1 && arena[o + 1] == 1 {
        return claimed[k] == 1;
    }
    true
}

fn heads_ok(arena: &[u8], claimed: &[u8]) -> bool
    requires { (blocks arena.now ≤ 4096) × (length claimed.now ≡ 4096) }
    ensures { result ≡ all_to (head_claimed arena.now claimed.now) (blocks arena.now) }
{
    (0..arena.len() / 512).all(|k| head_ok(arena, claimed, k))
}

pub fn rule5(arena: &[u8], first: &[u16], next: &[u16], mem: &[u8]) -> bool
    requires led { Led arena.now first.now next.now }
    requires loaded { Loaded mem.now × Of arena.now mem.now }
    ensures { result ≡ test5 arena.now (table_in mem.now) }
{
    let mut claimed = [0u8; 4096];
    nodes_ok(arena, first, next, mem, &mut claimed)
        && heads_ok(arena, &claimed)
        && rec_of(arena, first, next, mem, 2).kind == 2
}
