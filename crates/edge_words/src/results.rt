// Results that are more than a number, as words over all of a lent slice.
ghost use Rattle.std.specs.Prelude.{◌≡◌, [], ◌∷◌, ◌+◌, ◌≤◌, length};
ghost use Rattle.edge_words.specs.Words.{puts, handle_words, time_words, node_words, times_words, owner_words, metadata_words};

use le::to_bits;
use sefs::Metadata;
use structs::Timespec;
use table::Handle;

pub fn put_handle(out: &mut [u64], h: Handle)
    requires { length out.old ≡ 2 }
    ensures { out.new ≡ handle_words h }
{
    out[0] = h.hold as u64;
    out[1] = h.stamp;
}

pub fn put_counts(out: &mut [u64], nodes: u32, unused: u32, free: u32)
    requires { length out.old ≡ 3 }
    ensures { out.new ≡ nodes ∷ unused ∷ free ∷ [] }
{
    out[0] = nodes as u64;
    out[1] = unused as u64;
    out[2] = free as u64;
}

// Of listing, the slot that comes next; of read, how many bytes.
pub fn put_next(out: &mut [u64], next: u64)
    requires { length out.old ≡ 1 }
    ensures { out.new ≡ next ∷ [] }
{
    out[0] = next;
}

// ---- metadata

fn put_node(out: &mut [u64], m: Metadata)
    requires { length out.old ≡ 14 }
    ensures { out.new ≡ puts out.old 0 (node_words m) }
{
    out[0] = m.inode as u64;
    out[1] = m.size;
    out[2] = m.mode as u64;
    out[3] = m.kind as u64;
    out[4] = m.blocks as u64;
}

fn put_time(out: &mut [u64], at: usize, t: Timespec)
    requires { at + 2 ≤ length out.old }
    ensures { out.new ≡ puts out.old at (time_words t) }
{
    out[at] = to_bits(t.sec);
    out[at + 1] = to_bits(t.nsec);
}

fn put_times(out: &mut [u64], m: Metadata)
    requires { length out.old ≡ 14 }
    ensures { out.new ≡ puts out.old 5 (times_words m) }
{
    let atime = m.atime;
    let mtime = m.mtime;
    let ctime = m.ctime;
    put_time(out, 5, atime);
    put_time(out, 7, mtime);
    put_time(out, 9, ctime);
}

fn put_owner(out: &mut [u64], m: Metadata)
    requires { length out.old ≡ 14 }
    ensures { out.new ≡ puts out.old 11 (owner_words m) }
{
    out[11] = m.nlinks as u64;
    out[12] = m.uid as u64;
    out[13] = m.gid as u64;
}

pub fn put_metadata(out: &mut [u64], m: Metadata)
    requires { length out.old ≡ 14 }
    ensures { out.new ≡ metadata_words m }
{
    put_node(out, m);
    put_times(out, m);
    put_owner(out, m);
}
