// The calls metadata and set metadata. They change no byte of the arena.
#![tactic(auto)]

ghost use Rattle.std.specs.Prelude.{◌≡◌};
ghost use Rattle.base.specs.Told.{code};
ghost use Rattle.base.specs.Out.{Went};
ghost use Rattle.base.specs.Search.{pick};
ghost use Rattle.structs.specs.Types.{is_folder};
ghost use Rattle.sefs.specs.Read.{metadata_of, call_metadata, call_set};
ghost use Rattle.sefs.specs.Read.{changed as changed_as};
ghost use Rattle.mem.specs.Mem.{table_in, Whole};
ghost use Rattle.calls.specs.Answers.{out_of, Replies};
ghost use Rattle.calls_metadata.specs.Tell.{told, metadata_in, set_in};

use base::Reason;
use calls::{Reply, admitted, by_handle, known, long, settle};
use mem::{MEMORY, put_table, rec_at, row_at, set_rec};
use sefs::Metadata;
use structs::{DiskINode, Timespec};
use table::{Handle, Table};

// ---- metadata

// A folder's size is the number of its slots.
fn size_of(rec: DiskINode) -> u64
    ensures { result ≡ pick (is_folder rec.kind) rec.blocks rec.size }
{
    if rec.kind == 2 {
        return long(rec.blocks);
    }
    rec.size
}

fn metadata_of(id: u32, rec: DiskINode) -> Metadata
    ensures { result ≡ metadata_of id rec }
{
    let atime = rec.atime;
    let mtime = rec.mtime;
    let ctime = rec.ctime;
    Metadata {
        inode: id,
        size: size_of(rec),
        mode: rec.mode,
        kind: rec.kind,
        blocks: rec.blocks,
        atime: atime,
        mtime: mtime,
        ctime: ctime,
        nlinks: rec.nlinks,
        uid: rec.uid,
        gid: rec.gid,
    }
}

fn tell(id: u32, rec: DiskINode) -> Result<Metadata, Reason>
    ensures { out_of result ≡ told id rec }
{
    known(rec)?;
    Ok(metadata_of(id, rec))
}

// What follows the tests of arena and table, on the table in memory; so below, too.
pub fn metadata_in(mem: &[u8], who: u8, h: Handle) -> Result<Metadata, Reason>
    requires { Whole mem.now }
    ensures { out_of result ≡ metadata_in (table_in mem.now) who h }
{
    let i = by_handle(mem, who, h)?;
    let row = row_at(mem, i);
    let rec = row.rec;
    tell(row.id, rec)
}

// The call on the table in memory; so below, too.
pub fn metadata_on(arena: &[u8], mem: &[u8], who: u8, h: Handle) -> Result<Metadata, Reason>
    requires { Whole mem.now }
    ensures { out_of result ≡ call_metadata arena.now (table_in mem.now) who h }
{
    admitted(arena, mem)?;
    metadata_in(mem, who, h)
}

pub fn metadata(arena: &[u8], t: Table, who: u8, h: Handle) -> Result<Metadata, Reason>
    ensures { out_of result ≡ call_metadata arena.now t who h }
{
    let mut mem = [0u8; MEMORY];
    put_table(&mut mem, t);
    metadata_on(arena, &mem, who, h)
}

// ---- set metadata

fn changed(
    r: DiskINode,
    mode: u16,
    uid: u64,
    gid: u64,
    atime: Timespec,
    mtime: Timespec,
    ctime: Timespec,
) -> DiskINode
    ensures { result ≡ changed_as r mode uid gid atime mtime ctime }
{
    let file = r.file;
    let mac = r.mac;
    DiskINode {
        size: r.size,
        kind: r.kind,
        mode: mode,
        nlinks: r.nlinks,
        blocks: r.blocks,
        uid: (uid % 4294967296) as u32,
        gid: (gid % 4294967296) as u32,
        pad: r.pad,
        atime: atime,
        mtime: mtime,
        ctime: ctime,
        file: file,
        mac: mac,
    }
}

pub fn set_in(
    mem: &mut [u8],
    who: u8,
    h: Handle,
    mode: u16,
    uid: u64,
    gid: u64,
    atime: Timespec,
    mtime: Timespec,
    ctime: Timespec,
) -> Result<(), Reason>
    requires { Whole mem.old }
    ensures { Went (set_in (table_in mem.old) who h mode uid gid atime mtime ctime) (table_in mem.new) Unit (code result) }
{
    let row = by_handle(&mem[..], who, h)?;
    let rec = rec_at(&mem[..], row);
    set_rec(mem, row, changed(rec, mode, uid, gid, atime, mtime, ctime));
    Ok(())
}

pub fn set_on(
    arena: &[u8],
    mem: &mut [u8],
    who: u8,
    h: Handle,
    mode: u16,
    uid: u64,
    gid: u64,
    atime: Timespec,
    mtime: Timespec,
    ctime: Timespec,
) -> Result<(), Reason>
    requires { Whole mem.old }
    ensures { Went (call_set arena.now (table_in mem.old) who h mode uid gid atime mtime ctime) (table_in mem.new) Unit (code result) }
{
    admitted(arena, &mem[..])?;
    set_in(mem, who, h, mode, uid, gid, atime, mtime, ctime)
}

pub fn set_metadata(
    arena: &[u8],
    t: Table,
    who: u8,
    h: Handle,
    mode: u16,
    uid: u64,
    gid: u64,
    atime: Timespec,
    mtime: Timespec,
    ctime: Timespec,
) -> Reply
    ensures { Replies t (call_set arena.now t who h mode uid gid atime mtime ctime) result }
{
    let mut mem = [0u8; MEMORY];
    put_table(&mut mem, t);
    let r = set_on(arena, &mut mem, who, h, mode, uid, gid, atime, mtime, ctime);
    settle(t, &mem, r)
}
