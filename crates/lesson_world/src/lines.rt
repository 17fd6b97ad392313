// What several scenes tell.
ghost use Rattle.std.specs.Prelude.{◌≤◌, length};

use crate::world::{
    ANN, Outcome, check, create, get_entry, mend, metadata, path, read, walk, write,
};
use base::{Reason, copy};
use fsck::Verdict;
use lesson_lib::say::{Refusal, Text};
use sefs::Metadata;
use std::{fmt, io};
use table::Handle;

const SYMLINK: u32 = 3;

// What a handle tells who asks with it: its node's number and links.
#[derive(Clone, Copy)]
pub struct NodeWords(Result<Metadata, Reason>);

impl fmt::Display for NodeWords {
    fn fmt<W: fmt::Write>(&self, f: &mut fmt::Formatter<W>) -> fmt::Result {
        match self.0 {
            Ok(m) => write!(f, "node {}, links {}", m.inode, m.nlinks),
            Err(reason) => write!(f, "{}", Refusal(reason)),
        }
    }
}

pub fn node(world: &[u8], who: u8, h: Handle) -> NodeWords
    requires { 4402 ≤ length world.now }
{
    NodeWords(metadata(world, who, h))
}

// How many bytes of its own the node has.
#[derive(Clone, Copy)]
pub struct SizeWords(Result<Metadata, Reason>);

impl fmt::Display for SizeWords {
    fn fmt<W: fmt::Write>(&self, f: &mut fmt::Formatter<W>) -> fmt::Result {
        match self.0 {
            Ok(m) => write!(f, "{}", m.size),
            Err(reason) => write!(f, "{}", Refusal(reason)),
        }
    }
}

pub fn size(world: &[u8], who: u8, h: Handle) -> SizeWords
    requires { 4402 ≤ length world.now }
{
    SizeWords(metadata(world, who, h))
}

// What a node's own bytes say.
pub fn outline(world: &[u8], who: u8, h: Handle) -> Text<64>
    requires { 4402 ≤ length world.now }
{
    let mut out = [0u8; 64];
    read(world, who, h, 0, &mut out);
    Text(out)
}

// A folder's path, as its title bar shows it.
pub fn title(world: &[u8], who: u8, h: Handle) -> Text<64>
    requires { 4402 ≤ length world.now }
{
    let mut out = [0u8; 64];
    path(world, who, h, &mut out);
    Text(out)
}

// The name in a slot of the root, by Ann's handle.
pub fn slot(world: &[u8], root: Handle, i: u64) -> Text<256>
    requires { 4402 ≤ length world.now }
{
    let mut entry = [0u8; 264];
    get_entry(world, ANN, root, i, &mut entry);
    let mut name = [0u8; 256];
    copy(&mut name, &entry[4..260]);
    Text(name)
}

// What the check says of image and table.
#[derive(Clone, Copy)]
pub struct Judgement(Verdict);

impl fmt::Display for Judgement {
    fn fmt<W: fmt::Write>(&self, f: &mut fmt::Formatter<W>) -> fmt::Result {
        match self.0 {
            Verdict::Pass { .. } => f.write_str("passes"),
            Verdict::Fail(rule) => write!(f, "fails rule {rule}"),
        }
    }
}

// The same, and then what the mender does.
pub fn judged(world: &mut [u8]) -> (Judgement, Outcome)
    requires { 4402 ≤ length world.old }
{
    let verdict = Judgement(check(world));
    (verdict, mend(world))
}

// A new node in a folder, and what its handle tells: a line of its own.
pub fn create_line(
    rt: &impl Print,
    world: &mut [u8],
    who: u8,
    folder: Handle,
    name: &[u8],
    kind: u32,
    n: u8,
) -> io::Result<Handle>
    requires { 4402 ≤ length world.old }
{
    print!(rt; "  create ")?;
    rt.write_all(name)?;
    let a = create(world, who, folder, name, kind, n);
    let it = node(world, who, a.handle);
    println!(rt; ": {}; it is {it}.", a.outcome)?;
    Ok(a.handle)
}

// An outline goes into a node's own bytes.
pub fn save(world: &mut [u8], who: u8, h: Handle, outline: &[u8]) -> Outcome
    requires { 4402 ≤ length world.old }
{
    write(world, who, h, 0, outline)
}

// A symlink a in a folder, by Ann: what is written in it is its target.
pub fn symlink_line(
    rt: &impl Print,
    world: &mut [u8],
    folder: Handle,
    n: u8,
    target: &[u8],
) -> io::Result<()>
    requires { 4402 ≤ length world.old }
{
    print!(rt; "  a symlink a there, with the target ")?;
    rt.write_all(target)?;
    let a = create(world, ANN, folder, b"a", SYMLINK, n);
    let saved = save(world, ANN, a.handle, target);
    println!(rt; ": {saved}.")
}

// Her walk from the root, and the targets that it has read.
pub fn walk_line(rt: &impl Print, world: &mut [u8], root: Handle, path: &[u8]) -> io::Result<Handle>
    requires { 4402 ≤ length world.old }
{
    print!(rt; "  walk to ")?;
    rt.write_all(path)?;
    let mut links = [0u8; 64];
    let a = walk(world, ANN, root, path, &mut links);
    print!(rt; ": {}; the link buffer has ", a.outcome)?;
    Text(links).show(rt)?;
    Ok(a.handle)
}
