// Superblock and free maps, read at a call's start (000's SEFS).
ghost use Rattle.std.specs.Prelude.{◌≡◌, ◌+◌, ◌*◌, ◌<◌, ◌≤◌, length};
ghost use Rattle.base.specs.Told.{code};
ghost use Rattle.base.specs.Out.{Went};
ghost use Rattle.base.specs.Parts.{part};
ghost use Rattle.files.specs.Read.{read_file};
ghost use Rattle.sefs.specs.Meta.{meta_file, map_at, load_maps, load_meta};
ghost use Rattle.chains.specs.Led.{Led};
ghost use Rattle.mem.specs.Mem.{table_in, super_in, meta_in, Whole, memory_size};
ghost use Rattle.nodes.specs.Steps.{meta_of};

use base::{Reason, index};
use chains::read;
use mem::put_flag;
use nodes::meta::map_at;
use structs::super_block_at;

pub fn read_meta(
    arena: &[u8],
    first: &[u16],
    next: &[u16],
    pos: usize,
    out: &mut [u8],
) -> Result<(), Reason>
    requires led { Led arena.now first.now next.now }
    requires out_len_bound { length out.old ≤ 480 }
    ensures { Went (read_file arena.now meta_file pos (length out.old)) out.new (length out.new ≡ length out.old) (code result) }
{
    let meta = [0u8; 16];
    read(arena, first, next, 0, &meta, pos, out)
}

pub fn load_super(arena: &[u8], first: &[u16], next: &[u16], mem: &mut [u8]) -> Result<(), Reason>
    requires led { Led arena.now first.now next.now }
    requires mem_len { length mem.old ≡ memory_size }
    ensures went { Went (read_file arena.now meta_file 0 16) (part mem.new 4403 4419) Unit (code result) }
    ensures mem_unchanged { part mem.new 0 4403 ≡ part mem.old 0 4403 }
{
    read_meta(arena, first, next, 0, &mut mem[4403..4419])
}

fn load_map(
    arena: &[u8],
    first: &[u16],
    next: &[u16],
    mem: &mut [u8],
    g: usize,
) -> Result<(), Reason>
    requires led { Led arena.now first.now next.now }
    requires mem_len { (length mem.old ≡ memory_size) × (g < 4) }
    ensures went { Went (read_file arena.now meta_file (map_at g) 128) (part mem.new (4419 + 128 * g) (4419 + 128 * g + 128)) Unit (code result) }
    ensures g_unchanged { part mem.new 0 (4419 + 128 * g) ≡ part mem.old 0 (4419 + 128 * g) }
{
    let o = 4419 + 128 * g;
    read_meta(arena, first, next, map_at(g), &mut mem[o..o + 128])
}

// The maps of the first n groups.
pub fn load_maps(
    arena: &[u8],
    first: &[u16],
    next: &[u16],
    mem: &mut [u8],
    n: usize,
) -> Result<(), Reason>
    requires led { Led arena.now first.now next.now }
    requires mem_len { (length mem.old ≡ memory_size) × (n ≤ 4) }
    ensures went { Went (load_maps arena.now n) (part mem.new 4419 (4419 + 128 * n)) Unit (code result) }
    ensures mem_unchanged { part mem.new 0 4419 ≡ part mem.old 0 4419 }
{
    for g in 0..n {
        load_map(arena, first, next, mem, g)?;
    }
    Ok(())
}

fn read_all(arena: &[u8], first: &[u16], next: &[u16], mem: &mut [u8]) -> Result<(), Reason>
    requires led { Led arena.now first.now next.now }
    requires mem_len { length mem.old ≡ memory_size }
    ensures went { Went (load_meta arena.now) (meta_of mem.new) ((0 < (super_in mem.new).groups) × ((super_in mem.new).groups ≤ 4)) (code result) }
    ensures mem_unchanged { part mem.new 0 4403 ≡ part mem.old 0 4403 }
{
    load_super(arena, first, next, mem)?;
    let groups = super_block_at(&mem[..], 4403).groups;
    if groups == 0 {
        return Err(Reason::Stuck);
    }
    if groups > 4 {
        return Err(Reason::Stuck);
    }
    load_maps(arena, first, next, mem, index(groups))
}

// Whether they could be read is kept beside them, and a step that needs them sticks where they could not.
pub fn load_meta(arena: &[u8], first: &[u16], next: &[u16], mem: &mut [u8])
    requires led { Led arena.now first.now next.now }
    requires mem_len { length mem.old ≡ memory_size }
    ensures { (meta_in mem.new ≡ load_meta arena.now) × ((table_in mem.new ≡ table_in mem.old) × Whole mem.new) }
{
    let r = read_all(arena, first, next, mem);
    put_flag(mem, r.is_ok());
}
