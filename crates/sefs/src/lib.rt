// The answers of the calls.
#![tactic(auto)]

use structs::Timespec;

// What metadata tells (vfs.rs: Metadata).
#[repr(C)]
#[derive(Clone, Copy)]
pub struct Metadata {
    pub inode: u32,
    pub size: u64,
    pub mode: u16,
    pub kind: u32,
    pub blocks: u32,
    pub atime: Timespec,
    pub mtime: Timespec,
    pub ctime: Timespec,
    pub nlinks: u16,
    pub uid: u32,
    pub gid: u32,
}
