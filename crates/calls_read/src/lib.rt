// The call read: the bytes below a node's size. It changes no byte of the arena, and reads it by the chains of `sound`.
#![tactic(auto)]

ghost use Rattle.std.specs.Prelude.{◌≡◌, ◌≤◌, length};
ghost use Rattle.base.specs.Told.{code};
ghost use Rattle.base.specs.Parts.{tab};
ghost use Rattle.arena.specs.Fields.{file};
ghost use Rattle.files.specs.Read.{length_of, byte_at};
ghost use Rattle.sefs.specs.Nodes.{node_file};
ghost use Rattle.sefs.specs.Contents.{read_count, read_bytes, call_read};
ghost use Rattle.chains.specs.Led.{Led};
ghost use Rattle.mem.specs.Mem.{table_in, Whole};
ghost use Rattle.calls.specs.Answers.{taken_of, Laid, Lays};
ghost use Rattle.calls.specs.Asked.{Admitted};
ghost use Rattle.calls_read.specs.Read.{read_in};

use base::{Reason, clear, least};
use calls::led::admit;
use calls::{by_handle, has_contents};
use chains::{length_of, read_run};
use mem::{MEMORY, put_table, rec_at};
use structs::DiskINode;
use table::{Handle, Table};

// How many bytes from `place` on lie below the size and in the room. Neither sum nor difference overflows.
fn count(size: u64, place: u64, room: usize) -> usize
    ensures { (result ≡ read_count size place room) × (result ≤ room) }
{
    if size <= place {
        return 0;
    }
    if size - place < (room as u64) {
        return (size - place) as usize;
    }
    room
}

// The bytes of a file of length len: those below it, then zeros.
fn fill(
    arena: &[u8],
    first: &[u16],
    next: &[u16],
    name: &[u8; 16],
    len: usize,
    place: usize,
    out: &mut [u8],
)
    requires led { Led arena.now first.now next.now }
    requires len_value { (len ≡ length_of arena.now (file 1 name.now)) × (len ≤ 4294967295) }
    ensures { out.new ≡ tab (byte_at arena.now (file 1 name.now)) place (length out.old) }
{
    if len <= place {
        clear(out);
        return;
    }
    let m = least(len - place, out.len());
    read_run(arena, first, next, 1, name, place, &mut out[0..m]);
    clear(&mut out[m..]);
}

// The n bytes from `place` on go to the output's start. Stuck where the file is missing.
pub fn read_bytes(
    arena: &[u8],
    first: &[u16],
    next: &[u16],
    rec: DiskINode,
    place: usize,
    n: usize,
    out: &mut [u8],
) -> Result<(), Reason>
    requires led { Led arena.now first.now next.now }
    requires n_in_bounds { n ≤ length out.old }
    ensures { Laid (read_bytes arena.now (node_file rec) place n) out.old out.new n (code result) }
{
    let file = rec.file;
    let end = length_of(arena, first, next, 1, &file);
    if end == 0 {
        return Err(Reason::Stuck);
    }
    fill(arena, first, next, &file, end - 1, place, &mut out[..n]);
    Ok(())
}

fn read_in(
    arena: &[u8],
    first: &[u16],
    next: &[u16],
    rec: DiskINode,
    place: u64,
    out: &mut [u8],
) -> Result<usize, Reason>
    requires { Led arena.now first.now next.now }
    ensures { Lays taken_of (read_in arena.now rec place (length out.old)) out.old out.new result }
{
    has_contents(rec)?;
    let n = count(rec.size, place, out.len());
    read_bytes(arena, first, next, rec, place as usize, n, out)?;
    Ok(n)
}

// What follows the tests of arena and table, by the chains that they left.
pub fn read_led(
    arena: &[u8],
    first: &[u16],
    next: &[u16],
    mem: &[u8],
    who: u8,
    h: Handle,
    place: u64,
    out: &mut [u8],
) -> Result<usize, Reason>
    requires { Admitted arena.now first.now next.now mem.now }
    ensures { Lays taken_of (call_read arena.now (table_in mem.now) who h place (length out.old)) out.old out.new result }
{
    let row = by_handle(mem, who, h)?;
    let rec = rec_at(mem, row);
    read_in(arena, first, next, rec, place, out)
}

// The call on the table in memory.
pub fn read_on(
    arena: &[u8],
    mem: &[u8],
    who: u8,
    h: Handle,
    place: u64,
    out: &mut [u8],
) -> Result<usize, Reason>
    requires { Whole mem.now }
    ensures { Lays taken_of (call_read arena.now (table_in mem.now) who h place (length out.old)) out.old out.new result }
{
    let mut chains = [0u16; 8192];
    admit(arena, &mut chains, mem)?;
    let c = &chains[..];
    read_led(arena, &c[..4096], &c[4096..8192], mem, who, h, place, out)
}

pub fn read(
    arena: &[u8],
    t: Table,
    who: u8,
    h: Handle,
    place: u64,
    out: &mut [u8],
) -> Result<usize, Reason>
    ensures { Lays taken_of (call_read arena.now t who h place (length out.old)) out.old out.new result }
{
    let mut mem = [0u8; MEMORY];
    put_table(&mut mem, t);
    read_on(arena, &mem, who, h, place, out)
}
