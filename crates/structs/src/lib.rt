// The structures of the metadata file and of folders, by value (structs.rs), each read and written field by field.
#![tactic(auto)]

ghost use Rattle.std.specs.Prelude.{◌≡◌, ◌+◌, ◌≤◌, length, take, drop};
ghost use Rattle.base.specs.Parts.{part, paste};
ghost use Rattle.structs.specs.Layout.{join, super_of, super_bytes, time_of, time_bytes, record_of, record_fields, record_bytes};

pub const SEFS_MAGIC: u32 = 0x2f8d_be2a;

// The types of nodes.
pub const FILE: u32 = 1;

pub const DIR: u32 = 2;

pub const SYMLINK: u32 = 3;

pub const SOCKET: u32 = 4;

// The root's id.
pub const BLKN_ROOT: u32 = 2;

// How many links a record can count.
pub const MAX_LINKS: u16 = 65535;

// How long a superblock, a record, and the name of a node's file are.
pub const SUPER_SIZE: usize = 16;

pub const INODE_SIZE: usize = 112;

pub const FILE_NAME: usize = 16;

// A folder's slot: the id, the name from byte 4 on, and the type; the first two slots are the dots.
pub const DIRENT_SIZE: usize = 264;

pub const DIRENT_NAME: usize = 4;

pub const DIRENT_KIND: usize = 260;

pub const DOTS: usize = 2;

// Seconds and nanoseconds since 1970; both are negative before it.
#[repr(C)]
#[derive(Clone, Copy)]
pub struct Timespec {
    pub sec: i64,
    pub nsec: i64,
}

// The superblock, 16 bytes.
#[repr(C)]
#[derive(Clone, Copy)]
pub struct SuperBlock {
    pub magic: u32,
    pub blocks: u32,
    pub unused: u32,
    pub groups: u32,
}

// A node's record, 112 bytes. `kind` is 000's `type_`, `file` its `disk_filename`, `mac` its `inode_mac`.
#[repr(C)]
#[derive(Clone, Copy)]
pub struct DiskINode {
    pub size: u64,
    pub kind: u32,
    pub mode: u16,
    pub nlinks: u16,
    pub blocks: u32,
    pub uid: u32,
    pub gid: u32,
    pub pad: u32,
    pub atime: Timespec,
    pub mtime: Timespec,
    pub ctime: Timespec,
    pub file: [u8; 16],
    pub mac: [u8; 16],
}

// A folder's slot, 264 bytes.
#[repr(C)]
#[derive(Clone, Copy)]
pub struct DiskEntry {
    pub id: u32,
    pub name: [u8; 256],
    pub kind: u32,
}

// What a move onto an existing name may do, by both types. `IfEmpty`: the replaced folder must have no more than its first two slots.
#[derive(Clone, Copy)]
pub enum MoveVerdict {
    Allowed,
    NotDir,
    IsDir,
    IfEmpty,
}

pub fn super_block_at(s: &[u8], at: usize) -> SuperBlock
    requires { at + 16 ≤ length s.now }
    ensures { result ≡ super_of (part s.now at (at + 16)) }
{
    SuperBlock {
        magic: le::u32_at(s, at),
        blocks: le::u32_at(s, at + 4),
        unused: le::u32_at(s, at + 8),
        groups: le::u32_at(s, at + 12),
    }
}

pub fn put_super_block(s: &mut [u8], at: usize, sb: SuperBlock)
    requires { at + 16 ≤ length s.old }
    ensures { s.new ≡ paste s.old at (super_bytes sb) }
{
    le::put_u32(s, at, sb.magic);
    le::put_u32(s, at + 4, sb.blocks);
    le::put_u32(s, at + 8, sb.unused);
    le::put_u32(s, at + 12, sb.groups);
}

fn timespec_at(s: &[u8], at: usize) -> Timespec
    requires { at + 16 ≤ length s.now }
    ensures { result ≡ time_of s.now at }
{
    Timespec {
        sec: le::i64_at(s, at),
        nsec: le::i64_at(s, at + 8),
    }
}

fn put_timespec(s: &mut [u8], at: usize, t: Timespec)
    requires { at + 16 ≤ length s.old }
    ensures { s.new ≡ paste s.old at (time_bytes t) }
{
    le::put_i64(s, at, t.sec);
    le::put_i64(s, at + 8, t.nsec);
}

fn bytes16_at(s: &[u8], at: usize) -> [u8; 16]
    requires { at + 16 ≤ length s.now }
    ensures { result ≡ part s.now at (at + 16) }
{
    let mut out = [0u8; 16];
    base::copy(&mut out, &s[at..at + 16]);
    out
}

fn put_bytes(s: &mut [u8], at: usize, b: &[u8])
    requires { at + length b.now ≤ length s.old }
    ensures { s.new ≡ paste s.old at b.now }
{
    let e = at + b.len();
    base::copy(&mut s[at..e], b);
}

pub fn disk_inode_at(s: &[u8], at: usize) -> DiskINode
    requires { at + 112 ≤ length s.now }
    ensures { result ≡ record_of (part s.now at (at + 112)) }
{
    DiskINode {
        size: le::u64_at(s, at),
        kind: le::u32_at(s, at + 8),
        mode: le::u16_at(s, at + 12),
        nlinks: le::u16_at(s, at + 14),
        blocks: le::u32_at(s, at + 16),
        uid: le::u32_at(s, at + 20),
        gid: le::u32_at(s, at + 24),
        pad: le::u32_at(s, at + 28),
        atime: timespec_at(s, at + 32),
        mtime: timespec_at(s, at + 48),
        ctime: timespec_at(s, at + 64),
        file: bytes16_at(s, at + 80),
        mac: bytes16_at(s, at + 96),
    }
}

pub fn put_disk_inode(s: &mut [u8], at: usize, r: DiskINode)
    requires { at + 112 ≤ length s.old }
    ensures { s.new ≡ paste s.old at (record_bytes r) }
{
    put_numbers(s, at, r);
    put_rest(s, at + 32, r);
}

// The first eight fields of a record.
fn put_numbers(s: &mut [u8], at: usize, r: DiskINode)
    requires { at + 32 ≤ length s.old }
    ensures { s.new ≡ paste s.old at (join (take 8 (record_fields r))) }
{
    le::put_u64(s, at, r.size);
    le::put_u32(s, at + 8, r.kind);
    le::put_u16(s, at + 12, r.mode);
    le::put_u16(s, at + 14, r.nlinks);
    le::put_u32(s, at + 16, r.blocks);
    le::put_u32(s, at + 20, r.uid);
    le::put_u32(s, at + 24, r.gid);
    le::put_u32(s, at + 28, r.pad);
}

// The others: times, file name and MAC.
fn put_rest(s: &mut [u8], at: usize, r: DiskINode)
    requires { at + 80 ≤ length s.old }
    ensures { s.new ≡ paste s.old at (join (drop 8 (record_fields r))) }
{
    put_timespec(s, at, r.atime);
    put_timespec(s, at + 16, r.mtime);
    put_timespec(s, at + 32, r.ctime);
    put_bytes(s, at + 48, &r.file);
    put_bytes(s, at + 64, &r.mac);
}
