// The calls as the scenes use them. A world is bytes: the 4,402 of the table of open nodes, and behind them the arena. So a scene hands on one
// thing, and no table by value, which costs its proof the most. No time but 1970's first second, and file names of 16 equal bytes.
ghost use Rattle.std.specs.Prelude.{◌≤◌, length};

use base::Reason;
use calls::{HeldReply, Reply};
use calls_create::New;
use fsck::Verdict;
use lesson_lib::say::Refusal;
use ranges::FallocateMode;
use sefs::Metadata;
use std::fmt;
use structs::Timespec;
use table::Handle;
use table_bytes::{put_empty, read_table, write_table};

// Two of the four who may ask.
pub const ANN: u8 = 1;

pub const BEN: u8 = 2;

const EPOCH: Timespec = Timespec { sec: 0, nsec: 0 };

fn new(kind: u32, n: u8) -> New {
    New {
        kind,
        mode: 420,
        time: EPOCH,
        file: [n; 16],
    }
}

// ---- what a call answered

#[derive(Clone, Copy)]
pub struct Outcome(Result<(), Reason>);

impl fmt::Display for Outcome {
    fn fmt<W: fmt::Write>(&self, f: &mut fmt::Formatter<W>) -> fmt::Result {
        match self.0 {
            Ok(()) => f.write_str("done"),
            Err(reason) => write!(f, "{}", Refusal(reason)),
        }
    }
}

// And the handle that it gave. No handle with stamp 0 is live, so after a refusal every further call refuses.
#[derive(Clone, Copy)]
pub struct Opened {
    pub outcome: Outcome,
    pub handle: Handle,
}

impl From<Result<Handle, Reason>> for Opened {
    fn from(r: Result<Handle, Reason>) -> Self {
        Opened {
            outcome: Outcome(r.map(|_| ())),
            handle: r.unwrap_or(Handle { hold: 0, stamp: 0 }),
        }
    }
}

// ---- a reply is kept: its table's bytes

fn keep(world: &mut [u8], r: Reply) -> Outcome
    requires { 4402 ≤ length world.old }
{
    write_table(world, r.table);
    Outcome(r.answer)
}

fn keep_held(world: &mut [u8], r: HeldReply) -> Opened
    requires { 4402 ≤ length world.old }
{
    write_table(world, r.table);
    Opened::from(r.answer)
}

// ---- the calls

pub fn format(world: &mut [u8]) -> Outcome
    requires { 4402 ≤ length world.old }
{
    let r = calls_format::format(&mut world[4402..], EPOCH, [1; 16]);
    Outcome(r.answer)
}

pub fn root(world: &mut [u8], who: u8) -> Opened
    requires { 4402 ≤ length world.old }
{
    let t = read_table(world);
    let g = calls_find::root(&world[4402..], t, who);
    keep_held(world, g)
}

pub fn find(world: &mut [u8], who: u8, h: Handle, name: &[u8]) -> Opened
    requires { 4402 ≤ length world.old }
{
    let t = read_table(world);
    let g = calls_find::find(&world[4402..], t, who, h, name);
    keep_held(world, g)
}

pub fn walk(world: &mut [u8], who: u8, h: Handle, path: &[u8], links: &mut [u8]) -> Opened
    requires { 4402 ≤ length world.old }
{
    let t = read_table(world);
    let g = calls_walk::walk(&world[4402..], t, who, h, path, links);
    keep_held(world, g)
}

// A new node in a folder; its file's name is 16 times n.
pub fn create(world: &mut [u8], who: u8, folder: Handle, name: &[u8], kind: u32, n: u8) -> Opened
    requires { 4402 ≤ length world.old }
{
    let t = read_table(world);
    let g = calls_create::create(&mut world[4402..], t, who, folder, name, new(kind, n));
    keep_held(world, g)
}

pub fn link(world: &mut [u8], who: u8, folder: Handle, name: &[u8], h: Handle) -> Outcome
    requires { 4402 ≤ length world.old }
{
    let t = read_table(world);
    let r = calls_link::link(&mut world[4402..], t, who, folder, name, h);
    keep(world, r)
}

pub fn remove_file(world: &mut [u8], who: u8, folder: Handle, name: &[u8]) -> Outcome
    requires { 4402 ≤ length world.old }
{
    let t = read_table(world);
    let r = calls_remove::remove_file(&mut world[4402..], t, who, folder, name);
    keep(world, r)
}

pub fn remove_folder(world: &mut [u8], who: u8, folder: Handle, name: &[u8]) -> Outcome
    requires { 4402 ≤ length world.old }
{
    let t = read_table(world);
    let r = calls_remove::remove_folder(&mut world[4402..], t, who, folder, name);
    keep(world, r)
}

pub fn move_(world: &mut [u8], who: u8, from: Handle, old: &[u8], to: Handle, new: &[u8]) -> Outcome
    requires { 4402 ≤ length world.old }
{
    let t = read_table(world);
    let r = calls_move::move_(&mut world[4402..], t, who, from, old, to, new);
    keep(world, r)
}

pub fn close(world: &mut [u8], who: u8, h: Handle) -> Outcome
    requires { 4402 ≤ length world.old }
{
    let t = read_table(world);
    let r = calls_close::close(&mut world[4402..], t, who, h);
    keep(world, r)
}

pub fn write(world: &mut [u8], who: u8, h: Handle, place: u64, src: &[u8]) -> Outcome
    requires { 4402 ≤ length world.old }
{
    let t = read_table(world);
    let r = calls_write::write(&mut world[4402..], t, who, h, place, src);
    keep(world, r)
}

pub fn fallocate(
    world: &mut [u8],
    who: u8,
    h: Handle,
    mode: FallocateMode,
    from: u64,
    len: u64,
) -> Outcome
    requires { 4402 ≤ length world.old }
{
    let t = read_table(world);
    let r = calls_fallocate::fallocate(&mut world[4402..], t, who, h, mode, from, len);
    keep(world, r)
}

pub fn read(world: &[u8], who: u8, h: Handle, place: u64, out: &mut [u8])
    requires { 4402 ≤ length world.now }
{
    let _ = calls_read::read(&world[4402..], read_table(world), who, h, place, out);
}

pub fn metadata(world: &[u8], who: u8, h: Handle) -> Result<Metadata, Reason>
    requires { 4402 ≤ length world.now }
{
    calls_metadata::metadata(&world[4402..], read_table(world), who, h)
}

pub fn get_entry(world: &[u8], who: u8, h: Handle, k: u64, out: &mut [u8])
    requires { 4402 ≤ length world.now }
{
    let _ = calls_entry::get_entry(&world[4402..], read_table(world), who, h, k, out);
}

pub fn path(world: &[u8], who: u8, h: Handle, out: &mut [u8])
    requires { 4402 ≤ length world.now }
{
    let _ = calls_path::path(&world[4402..], read_table(world), who, h, out);
}

pub fn check(world: &[u8]) -> Verdict
    requires { 4402 ≤ length world.now }
{
    fsck::check(&world[4402..], read_table(world))
}

pub fn mend(world: &mut [u8]) -> Outcome
    requires { 4402 ≤ length world.old }
{
    let t = read_table(world);
    Outcome(calls_mend::mend(&mut world[4402..], t))
}

// ---- the host goes down, and the table with it

pub fn go_down(world: &mut [u8])
    requires { 4402 ≤ length world.old }
{
    put_empty(world);
}

// ---- where a scene begins

// Nothing is open but the root, by Ann: her handle on it.
pub fn begin(world: &mut [u8]) -> Handle
    requires { 4402 ≤ length world.old }
{
    put_empty(world);
    root(world, ANN).handle
}

// The same on a fresh image.
pub fn fresh(world: &mut [u8]) -> Handle
    requires { 4402 ≤ length world.old }
{
    format(world);
    begin(world)
}
