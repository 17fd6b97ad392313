// One operation on the arena itself: a workspace of zeros, the step on the view, and commit where it was done.
ghost use Rattle.std.specs.Prelude.{◌≡◌, ◌*◌, ◌≤◌, length, replicate};
ghost use Rattle.base.specs.Told.{code};
ghost use Rattle.arena.specs.Blocks.{blocks};
ghost use Rattle.overlay.specs.View.{begun, Fine, left};

use crate::record::{Record, Store};
use base::Reason;
use overlay::{begin, commit};

// The workspace, ready for a step.
pub fn start(work: &mut [u8; 9216])
    ensures { work.new ≡ begun (replicate 9216 0) }
{
    *work = [0; 9216];
    begin(work);
}

// What is put is src; what is cut ends at the place after pos and size.
fn step(
    store: Store,
    record: &Record,
    arena: &[u8],
    work: &mut [u8],
    src: &[u8],
) -> Result<(), Reason>
    requires fine { Fine arena.now work.old × (3 ≤ left work.old) }
    requires src_len { length src.now ≤ 480 }
    ensures { code result ≡ 0 → Fine arena.now work.new }
{
    let which = record.which;
    let name = &record.name;
    let pos = record.pos as usize;
    match store {
        Store::Put => files::store::put(arena, work, which, name, pos, src),
        Store::Cut => files::store::cut(arena, work, which, name, pos + record.size as usize),
        Store::Make => files::store::make(arena, work, which, name),
        Store::Drop => files::store::drop(arena, work, which, name),
    }
}

pub fn store(
    store: Store,
    record: &Record,
    arena: &mut [u8],
    work: &mut [u8; 9216],
    src: &[u8],
) -> Result<(), Reason>
    requires arena_len { (length arena.old ≡ 512 * blocks arena.old) × (blocks arena.old ≤ 128) }
    requires src_len { length src.now ≤ 480 }
{
    start(work);
    step(store, record, arena, work, src)?;
    commit(arena, work);
    Ok(())
}
