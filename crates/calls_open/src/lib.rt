// The call open. It changes no byte of the arena, and reads it by the chains of `sound`.
#![tactic(auto)]

ghost use Rattle.std.specs.Prelude.{◌≡◌, length};
ghost use Rattle.base.specs.Told.{code};
ghost use Rattle.base.specs.Out.{Went};
ghost use Rattle.table.specs.Table.{empty_table};
ghost use Rattle.sefs.specs.Open.{call_open};
ghost use Rattle.chains.specs.Led.{Led};
ghost use Rattle.calls.specs.Answers.{Replies};
ghost use Rattle.calls.specs.Asked.{Blank};
ghost use Rattle.calls_open.specs.Opens.{is_sefs, open_read};
ghost use Rattle.mem.specs.Mem.{memory_size};

use base::{Reason, index};
use calls::led::admit_arena;
use calls::{Reply, done, refused};
use mem::MEMORY;
use nodes_read::meta::{load_maps, load_super};
use structs::{SEFS_MAGIC, SuperBlock, super_block_at};

fn is_sefs(b: SuperBlock) -> bool
    ensures { result ≡ is_sefs b }
{
    (b.magic == SEFS_MAGIC) & ((0 < b.groups) & (b.groups < 5))
}

// The superblock is read before 18, the maps after.
fn open_read(arena: &[u8], first: &[u16], next: &[u16], mem: &mut [u8]) -> Result<(), Reason>
    requires led { Led arena.now first.now next.now }
    requires mem_len { length mem.old ≡ memory_size }
    ensures { Went (open_read arena.now) empty_table Unit (code result) }
{
    load_super(arena, first, next, mem)?;
    let b = super_block_at(&mem[..], 4403);
    if !is_sefs(b) {
        return Err(Reason::WrongFs);
    }
    load_maps(arena, first, next, mem, index(b.groups))
}

// With the places where the chains, and superblock and maps, go.
fn open_led(arena: &[u8], chains: &mut [u16], mem: &mut [u8]) -> Result<(), Reason>
    requires { Blank chains.old × (length mem.old ≡ memory_size) }
    ensures { Went (call_open arena.now) empty_table Unit (code result) }
{
    admit_arena(arena, chains)?;
    let c = &chains[..];
    open_read(arena, &c[..4096], &c[4096..8192], mem)
}

pub fn open_on(arena: &[u8]) -> Result<(), Reason>
    ensures { Went (call_open arena.now) empty_table Unit (code result) }
{
    let mut chains = [0u16; 8192];
    let mut mem = [0u8; MEMORY];
    open_led(arena, &mut chains, &mut mem)
}

pub fn open(arena: &[u8]) -> Reply
    ensures { Replies empty_table (call_open arena.now) result }
{
    let t = table::empty();
    match open_on(arena) {
        Ok(()) => done(t),
        Err(reason) => refused(t, reason),
    }
}
