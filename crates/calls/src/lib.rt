// What a call answers, and what it asks before its steps: the reasons that every call can give, and those about folders and names.
// A question that refuses the call answers its reason, as an `Err`.
#![tactic(auto)]

pub mod led;
pub mod refusals;

ghost use Rattle.std.specs.Prelude.{◌≡◌, ◌<◌, true, length};
ghost use Rattle.std.specs.Result.{is_ok, result_unwrap_or};
ghost use Rattle.base.specs.Told.{code};
ghost use Rattle.base.specs.Out.{Went, answer};
ghost use Rattle.table.specs.Table.{add_hold};
ghost use Rattle.sefs.specs.Ask.{admit, an_owner, by_handle, good_name, new_name, not_long, not_special, live_folder, not_removed};
ghost use Rattle.sefs.specs.Ask.{known as known_type, folder as is_folder};
ghost use Rattle.sefs.specs.Read.{readable as readable_as};
ghost use Rattle.sefs.specs.Contents.{has_contents};
ghost use Rattle.mem.specs.Mem.{table_in, Whole, memory_size};
ghost use Rattle.calls.specs.Answers.{done_with, refused_with, no_handle, added_as, handed_by, after_of, given_of};
ghost use Rattle.calls.specs.Asked.{by_two};

use base::Reason;
use holds::{add_hold, is_owner, live};
use mem::table_at;
use structs::DiskINode;
use table::{Handle, Table};
use verdicts::is_type;

// An answer, and the table afterwards: the one that the call was given, where it is refused. A refusal is told by its reason, unless it says otherwise.
#[derive(Clone, Copy)]
pub struct Reply<E = Reason> {
    pub answer: Result<(), E>,
    pub table: Table,
}

#[derive(Clone, Copy)]
pub struct HeldReply {
    pub answer: Result<Handle, Reason>,
    pub table: Table,
}

pub fn done<E: Copy>(t: Table) -> Reply<E>
    ensures { result ≡ done_with t }
{
    Reply {
        answer: Ok(()),
        table: t,
    }
}

pub fn refused<E: Copy>(t: Table, reason: E) -> Reply<E>
    ensures { result ≡ refused_with t reason }
{
    Reply {
        answer: Err(reason),
        table: t,
    }
}

// What a call answers once its steps are decided: the table as memory has it, or the one that the call was given.
pub fn settle<E: Copy>(t: Table, mem: &[u8], r: Result<(), E>) -> Reply<E>
    requires { length mem.now ≡ memory_size }
    ensures { result ≡ after_of t (table_in mem.now) r }
{
    match r {
        Ok(()) => done(table_at(mem)),
        Err(reason) => refused(t, reason),
    }
}

// ---- a hold that a call makes

// A hold of who's on the row of a node that was opened, in the table in memory. None where its opening had a reason.
pub fn hand<E: Copy>(mem: &mut [u8], who: u8, opened: Result<usize, E>) -> Result<Handle, E>
    requires { is_ok opened ≡ true → Whole mem.old × (result_unwrap_or opened 0 < 34) }
    ensures { (result ≡ handed_by opened (result_unwrap_or result no_handle)) × (is_ok opened ≡ true → add_hold (table_in mem.old) who (result_unwrap_or opened 0) ≡ added_as (result_unwrap_or result no_handle) (table_in mem.new)) }
{
    let row = opened?;
    Ok(add_hold(mem, who, row as u32))
}

// The same for a call that makes a hold.
pub fn settle_held(t: Table, mem: &[u8], r: Result<Handle, Reason>) -> HeldReply
    requires { length mem.now ≡ memory_size }
    ensures { result ≡ given_of t (table_in mem.now) r }
{
    let table = if r.is_ok() { table_at(mem) } else { t };
    HeldReply { answer: r, table }
}

// ---- names

// 5: a zero byte inside, or not UTF-8.
pub fn good_name(name: &[u8]) -> Result<(), Reason>
    ensures { code result ≡ answer (good_name name.now) }
{
    utf8::early_reason(utf8::name_verdict(name))
}

// 5 for a new name: also where it has a slash.
pub fn new_name(name: &[u8]) -> Result<(), Reason>
    ensures { code result ≡ answer (new_name name.now) }
{
    utf8::new_reason(utf8::name_verdict(name))
}

// 10: over 255 bytes.
pub fn not_long(name: &[u8]) -> Result<(), Reason>
    ensures { code result ≡ answer (not_long name.now) }
{
    if name.len() > 255 {
        return Err(Reason::NameTooLong);
    }
    Ok(())
}

// 9: `.`, `..` and the empty name.
pub fn not_special(name: &[u8]) -> Result<(), Reason>
    ensures { code result ≡ answer (not_special name.now) }
{
    if utf8::is_special(name) {
        return Err(Reason::IsDir);
    }
    Ok(())
}

// ---- records

// 000 takes metadata: type 0, and a type above 4, stick.
pub fn known(rec: DiskINode) -> Result<(), Reason>
    ensures { code result ≡ answer (known_type rec) }
{
    if is_type(rec.kind) {
        return Ok(());
    }
    Err(Reason::Stuck)
}

// 7, once the type is known.
pub fn folder(rec: DiskINode) -> Result<(), Reason>
    ensures { code result ≡ answer (is_folder rec) }
{
    if rec.kind == 2 {
        return Ok(());
    }
    Err(Reason::NotDir)
}

pub fn not_removed(rec: DiskINode) -> Result<(), Reason>
    ensures { code result ≡ answer (not_removed rec) }
{
    if 0 < rec.nlinks {
        return Ok(());
    }
    Err(Reason::DirRemoved)
}

// A folder that something is done in: its metadata, 7, 8.
pub fn live_folder(rec: DiskINode) -> Result<(), Reason>
    ensures { code result ≡ answer (live_folder rec) }
{
    known(rec)?;
    folder(rec)?;
    not_removed(rec)
}

// What get entry and the listing ask of a folder: a type above 4 sticks before 7; type 0 is 7.
pub fn readable(rec: DiskINode) -> Result<(), Reason>
    ensures { code result ≡ answer (readable_as rec) }
{
    if rec.kind > 4 {
        return Err(Reason::Stuck);
    }
    folder(rec)
}

// What read, write and resize ask of a node: a type above 4 sticks before 21; type 0 is 21.
pub fn has_contents(rec: DiskINode) -> Result<(), Reason>
    ensures { code result ≡ answer (has_contents rec) }
{
    if rec.kind > 4 {
        return Err(Reason::Stuck);
    }
    if is_type(rec.kind) & (rec.kind != 2) {
        return Ok(());
    }
    Err(Reason::NotFile)
}

// A count as a place: its bound is known here.
pub fn long(x: u32) -> u64
    ensures { (result ≡ x) × (result < 4294967296) }
{
    x as u64
}

// ---- handles

// 6: an owner outside 1 to 4.
pub fn an_owner(who: u8) -> Result<(), Reason>
    ensures { code result ≡ answer (an_owner who) }
{
    if is_owner(who) {
        return Ok(());
    }
    Err(Reason::InvalidParam)
}

// 6, then 4 where it is not live, or another's.
pub fn by_handle(mem: &[u8], who: u8, h: Handle) -> Result<usize, Reason>
    requires { Whole mem.now }
    ensures { Went (by_handle (table_in mem.now) who h) (result_unwrap_or result 0) (result_unwrap_or result 0 < 34) (code result) }
{
    an_owner(who)?;
    let f = live(mem, who, h);
    match f {
        Some(i) => Ok(i),
        None => Err(Reason::BadHandle),
    }
}

// One handle after the other: the rows of both.
pub fn by_two(mem: &[u8], who: u8, h: Handle, k: Handle) -> Result<(usize, usize), Reason>
    requires { Whole mem.now }
    ensures { Went (by_two (table_in mem.now) who h k) (result_unwrap_or result (0, 0)) (((result_unwrap_or result (0, 0)).0 < 34) × ((result_unwrap_or result (0, 0)).1 < 34)) (code result) }
{
    let row = by_handle(mem, who, h)?;
    let other = by_handle(mem, who, k)?;
    Ok((row, other))
}

// ---- arena and table

// 1, 2, 3, where no file is read: the frame of the chains is left.
pub fn admitted(arena: &[u8], mem: &[u8]) -> Result<(), Reason>
    requires { Whole mem.now }
    ensures { Went (admit arena.now (table_in mem.now)) tt Unit (code result) }
{
    let mut chains = [0u16; 8192];
    led::admit(arena, &mut chains, mem)
}
