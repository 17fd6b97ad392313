// Superblock and free maps: changed in memory, stored by sync_meta (000's SEFS).
ghost use Rattle.std.specs.Prelude.{◌≡◌, true, List, ℕ, ◌+◌, ◌*◌, ◌-◌, ◌<◌, ◌≤◌, get_or, ltb};
ghost use Rattle.std.specs.Result.{result_unwrap_or};
ghost use Rattle.base.specs.Told.{code};
ghost use Rattle.base.specs.Out.{Went, done};
ghost use Rattle.base.specs.Parts.{part};
ghost use Rattle.base.specs.Search.{pick};
ghost use Rattle.overlay.specs.View.{view, left};
ghost use Rattle.overlay.specs.Steps.{Did};
ghost use Rattle.files.specs.Store.{put_file};
ghost use Rattle.sefs.specs.Meta.{meta_file, map_at, store_maps, sync_meta, first_bit, is_used, add_group, take_bit, alloc_block, free_block};
ghost use Rattle.mem.specs.Mem.{super_in, maps_in, Whole};
ghost use Rattle.nodes.specs.Steps.{meta_of};
ghost use Rattle.mem.specs.State.{fs_of, Ready, Still, Stepped};

use base::{Reason, index};
use files::store::{cut, put};
use mem::{add_group, bit_at, first_bit, has_meta, map_bytes, put_bit, super_at, super_bytes};

// Group g's map is block 1024g + 1, and a block has 128 bytes.
pub fn map_at(g: usize) -> usize
    requires { g < 4 }
    ensures { result ≡ map_at g }
{
    128 * (1024 * g + 1)
}

// ---- storing: superblock first, then the maps of all groups in rising order

fn store_map(arena: &[u8], work: &mut [u8], mem: &[u8], g: usize) -> Result<(), Reason>
    requires ready { Ready arena.now work.old mem.now × (2 ≤ left work.old) }
    requires mem_value { (get_or mem.now 4402 0 ≡ 1) × (g < (super_in mem.now).groups) }
    ensures { Did (put_file (view arena.now work.old) meta_file (map_at g) (part (maps_in mem.now) (128 * g) (128 * g + 128))) arena.now work.old work.new 2 (code result) }
{
    let meta = [0u8; 16];
    put(arena, work, 0, &meta, map_at(g), map_bytes(mem, g))
}

fn store_maps(arena: &[u8], work: &mut [u8], mem: &[u8], n: usize) -> Result<(), Reason>
    requires ready { Ready arena.now work.old mem.now × (2 * n ≤ left work.old) }
    requires mem_value { (get_or mem.now 4402 0 ≡ 1) × (n ≤ (super_in mem.now).groups) }
    ensures { Did (store_maps (view arena.now work.old) (maps_in mem.now) n) arena.now work.old work.new (2 * n) (code result) }
{
    for g in 0..n {
        store_map(arena, work, mem, g)?;
    }
    Ok(())
}

pub fn sync_meta(arena: &[u8], work: &mut [u8], mem: &[u8]) -> Result<(), Reason>
    requires { Ready arena.now work.old mem.now × (10 ≤ left work.old) }
    ensures { Stepped (sync_meta (fs_of arena.now work.old mem.now)) arena.now work.old work.new mem.now 10 (code result) }
{
    if !has_meta(mem) {
        return Err(Reason::Stuck);
    }
    let meta = [0u8; 16];
    put(arena, work, 0, &meta, 0, super_bytes(mem))?;
    let groups = super_at(mem).groups;
    store_maps(arena, work, mem, index(groups))
}

// ---- ids

// An id that a node may have: not 0, below the maps' end, and its bit clear.
pub fn is_used(mem: &[u8], id: u32) -> bool
    requires { Whole mem.now × (get_or mem.now 4402 0 ≡ 1) }
    ensures { result ≡ is_used (meta_of mem.now) id }
{
    let groups = super_at(mem).groups;
    if id == 0 {
        return false;
    }
    if id >= 1024 * groups {
        return false;
    }
    !bit_at(mem, index(id))
}

// The group that comes after the last: the file gets its length, and in memory there are its map and its blocks.
fn grow(arena: &[u8], work: &mut [u8], mem: &mut [u8], groups: u32) -> Result<(), Reason>
    requires ready { Ready arena.now work.old mem.old × (2 ≤ left work.old) }
    requires mem_value { (get_or mem.old 4402 0 ≡ 1) × (groups ≡ (super_in mem.old).groups) }
    requires mem_bound { ((super_in mem.old).groups < 4) × (((super_in mem.old).blocks + 1024 < 4294967296) × ((super_in mem.old).unused + 1023 < 4294967296)) }
    ensures { Stepped (add_group (fs_of arena.now work.old mem.old) (meta_of mem.old)) arena.now work.old work.new mem.new 2 (code result) }
{
    let meta = [0u8; 16];
    cut(arena, work, 0, &meta, 131072 * (index(groups) + 1))?;
    add_group(mem);
    Ok(())
}

// 17 at 4 groups; an overflow sticks.
fn new_group(arena: &[u8], work: &mut [u8], mem: &mut [u8]) -> Result<(), Reason>
    requires ready { Ready arena.now work.old mem.old × (2 ≤ left work.old) }
    requires mem_value { get_or mem.old 4402 0 ≡ 1 }
    ensures { Stepped (add_group (fs_of arena.now work.old mem.old) (meta_of mem.old)) arena.now work.old work.new mem.new 2 (code result) }
{
    let b = super_at(&mem[..]);
    if b.groups >= 4 {
        return Err(Reason::NoDeviceSpace);
    }
    if b.blocks > 4294966271 {
        return Err(Reason::Stuck);
    }
    if b.unused > 4294966272 {
        return Err(Reason::Stuck);
    }
    grow(arena, work, mem, b.groups)
}

// Only if no bit is set does a group come.
fn ensure_bit(arena: &[u8], work: &mut [u8], mem: &mut [u8]) -> Result<(), Reason>
    requires ready { Ready arena.now work.old mem.old × (2 ≤ left work.old) }
    requires mem_value { get_or mem.old 4402 0 ≡ 1 }
    ensures { Stepped (pick (ltb (first_bit (meta_of mem.old)) (1024 * (super_in mem.old).groups)) (done (fs_of arena.now work.old mem.old)) (add_group (fs_of arena.now work.old mem.old) (meta_of mem.old))) arena.now work.old work.new mem.new 2 (code result) }
{
    let f = first_bit(&mem[..]);
    match f {
        Some(_) => Ok(()),
        None => new_group(arena, work, mem),
    }
}

// Bit i is cleared, and unused falls by one; it sticks at 0.
fn take_bit_at(mem: &mut [u8], i: usize) -> Result<u32, Reason>
    requires whole { Whole mem.old × (get_or mem.old 4402 0 ≡ 1) }
    requires i_value { (i ≡ first_bit (meta_of mem.old)) × (i < 1024 * (super_in mem.old).groups) }
    ensures { (a w : List ℕ) → Went (take_bit (fs_of a w mem.old) (meta_of mem.old)) (record { state = fs_of a w mem.new; id = (result_unwrap_or result 0) }) (Whole mem.new) (code result) }
{
    let unused = super_at(&mem[..]).unused;
    if unused == 0 {
        return Err(Reason::Stuck);
    }
    put_bit(mem, i, false, unused - 1);
    Ok(i as u32)
}

// The lowest set bit; there is one.
fn take_bit(mem: &mut [u8]) -> Result<u32, Reason>
    requires whole { Whole mem.old × (get_or mem.old 4402 0 ≡ 1) }
    requires mem_bound { first_bit (meta_of mem.old) < 1024 * (super_in mem.old).groups }
    ensures { (a w : List ℕ) → Went (take_bit (fs_of a w mem.old) (meta_of mem.old)) (record { state = fs_of a w mem.new; id = (result_unwrap_or result 0) }) (Whole mem.new) (code result) }
{
    let f = first_bit(&mem[..]);
    match f {
        Some(i) => take_bit_at(mem, i),
        None => Err(Reason::Stuck),
    }
}

pub fn alloc_block(arena: &[u8], work: &mut [u8], mem: &mut [u8]) -> Result<u32, Reason>
    requires { Ready arena.now work.old mem.old × (2 ≤ left work.old) }
    ensures { Went (alloc_block (fs_of arena.now work.old mem.old)) (record { state = fs_of arena.now work.new mem.new; id = (result_unwrap_or result 0) }) (Still arena.now work.old work.new mem.new 2) (code result) }
{
    if !has_meta(&mem[..]) {
        return Err(Reason::Stuck);
    }
    ensure_bit(arena, work, mem)?;
    take_bit(mem)
}

// The bit of an id in use is set, and unused rises by one; it sticks at 2^32-1.
fn set_free(mem: &mut [u8], id: u32) -> Result<(), Reason>
    requires whole { Whole mem.old × (get_or mem.old 4402 0 ≡ 1) }
    requires id_value { is_used (meta_of mem.old) id ≡ true }
    ensures { (a w : List ℕ) → Went (free_block (fs_of a w mem.old) id) (fs_of a w mem.new) (Whole mem.new) (code result) }
{
    let unused = super_at(&mem[..]).unused;
    if unused == 4294967295 {
        return Err(Reason::Stuck);
    }
    put_bit(mem, index(id), true, unused + 1);
    Ok(())
}

// It sticks where the bit is set or lies beyond the maps.
pub fn free_block(mem: &mut [u8], id: u32) -> Result<(), Reason>
    requires { Whole mem.old }
    ensures { (a w : List ℕ) → Went (free_block (fs_of a w mem.old) id) (fs_of a w mem.new) (Whole mem.new) (code result) }
{
    if !has_meta(&mem[..]) {
        return Err(Reason::Stuck);
    }
    if !is_used(&mem[..], id) {
        return Err(Reason::Stuck);
    }
    set_free(mem, id)
}
