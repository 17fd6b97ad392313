// The listing: from a slot on by its number, and by a place that the caller lends, which the call moves on by the slots written; it tells the dots
// where the place asks for them. It changes no byte
// of the arena, and reads it by the chains of `sound`.
#![tactic(auto)]

ghost use Rattle.std.specs.Prelude.{◌≡◌, length};
ghost use Rattle.sefs.specs.Read.{call_listing};
ghost use Rattle.mem.specs.Mem.{table_in, Whole};
ghost use Rattle.calls.specs.Answers.{listed_of, Lays};
ghost use Rattle.calls.specs.Asked.{Admitted};
ghost use Rattle.verdicts.specs.Starts.{start_of};
ghost use Rattle.calls_list.specs.Place.{Moves, ListsAt};

use base::Reason;
use calls::by_handle;
use calls::led::admit;
use list_slots::list_in;
use mem::{MEMORY, put_table, rec_at};
use table::{Handle, Table};
use verdicts::start_of;

// What follows the tests of arena and table, by the chains that they left.
pub fn list_led(
    arena: &[u8],
    first: &[u16],
    next: &[u16],
    mem: &[u8],
    who: u8,
    h: Handle,
    at: u64,
    out: &mut [u8],
) -> Result<usize, Reason>
    requires { Admitted arena.now first.now next.now mem.now }
    ensures { Lays listed_of (call_listing arena.now (table_in mem.now) who h at (length out.old)) out.old out.new result }
{
    let row = by_handle(mem, who, h)?;
    let rec = rec_at(mem, row);
    list_in(arena, first, next, rec, at, out)
}

// The call on the table in memory.
pub fn listing_on(
    arena: &[u8],
    mem: &[u8],
    who: u8,
    h: Handle,
    at: u64,
    out: &mut [u8],
) -> Result<usize, Reason>
    requires { Whole mem.now }
    ensures { Lays listed_of (call_listing arena.now (table_in mem.now) who h at (length out.old)) out.old out.new result }
{
    let mut chains = [0u16; 8192];
    admit(arena, &mut chains, mem)?;
    let c = &chains[..];
    list_led(arena, &c[..4096], &c[4096..8192], mem, who, h, at, out)
}

// The slots from `next` on, as stored: as many as there are and as the output takes.
pub fn list_from(
    arena: &[u8],
    t: Table,
    who: u8,
    h: Handle,
    next: u64,
    out: &mut [u8],
) -> Result<usize, Reason>
    ensures { Lays listed_of (call_listing arena.now t who h next (length out.old)) out.old out.new result }
{
    let mut mem = [0u8; MEMORY];
    put_table(&mut mem, t);
    listing_on(arena, &mem, who, h, next, out)
}

// ---- by a place

// Where a listing goes on: the folder's handle, the slot that comes next, and whether the dots are asked for.
#[repr(C)]
#[derive(Clone, Copy)]
pub struct Place {
    pub handle: Handle,
    pub next: u64,
    pub dots: bool,
}

// What a listing answers, and the slot that comes next then.
#[derive(Clone, Copy)]
pub struct Moved {
    pub answer: Result<usize, Reason>,
    pub next: u64,
}

// The listing, with the place's fields by value.
pub fn list_on(
    arena: &[u8],
    t: Table,
    who: u8,
    h: Handle,
    dots: bool,
    next: u64,
    out: &mut [u8],
) -> Moved
    ensures { Moves dots next (call_listing arena.now t who h (start_of dots next) (length out.old)) out.old out.new result }
{
    let from = start_of(dots, next);
    match list_from(arena, t, who, h, from, out) {
        Ok(n) => Moved {
            answer: Ok(n),
            next: from + n as u64,
        },
        Err(reason) => Moved {
            answer: Err(reason),
            next,
        },
    }
}

// The slots from the place on, as stored; the dots where it asks for them. The place is taken apart, and only its next slot changes.
pub fn list(
    arena: &[u8],
    t: Table,
    who: u8,
    place: &mut Place,
    out: &mut [u8],
) -> Result<usize, Reason>
    ensures { ListsAt arena.now t who place.old out.old place.new out.new result }
{
    let h = place.handle;
    let m = list_on(arena, t, who, h, place.dots, place.next, out);
    place.next = m.next;
    m.answer
}
