// Small decisions that need neither arena nor memory: of types, of a name, of a place.
#![tactic(auto)]

ghost use Rattle.std.specs.Prelude.{◌≡◌, ◌&&◌, ◌≤◌, eqb};
ghost use Rattle.structs.specs.Types.{is_type, move_verdict_of};
ghost use Rattle.utf8.specs.Names.{is_dots};
ghost use Rattle.sefs.specs.Create.{can_make};
ghost use Rattle.verdicts.specs.Starts.{start_of};

use structs::{DiskINode, MoveVerdict};
use utf8::is_dots;

// ---- types

// One of the four types.
pub fn is_type(kind: u32) -> bool
    ensures { result ≡ is_type kind }
{
    (0 < kind) & (kind <= 4)
}

// A file, a folder or a symlink; no socket.
pub fn can_make(kind: u32) -> bool
    ensures { result ≡ can_make kind }
{
    (0 < kind) & (kind <= 3)
}

// The verdicts by moved type (a row each: file, folder, symlink, socket) and replaced type: 0 allowed, 1 NotDir, 2 IsDir, 3 if empty.
const VERDICTS: [u8; 16] = [0, 2, 0, 0, 1, 3, 1, 1, 0, 2, 0, 0, 0, 2, 0, 0];

pub fn move_verdict(moved: u32, replaced: u32) -> MoveVerdict
    requires le_moved { (1 ≤ moved) × (moved ≤ 4) }
    requires le_replaced { (1 ≤ replaced) × (replaced ≤ 4) }
    ensures { result ≡ move_verdict_of moved replaced }
{
    let k = base::index((moved - 1) * 4 + (replaced - 1));
    let v = VERDICTS[k];
    match v {
        0 => MoveVerdict::Allowed,
        1 => MoveVerdict::NotDir,
        2 => MoveVerdict::IsDir,
        _ => MoveVerdict::IfEmpty,
    }
}

// ---- names and places

// `..` of a folder that is removed leads nowhere.
pub fn is_orphan(rec: DiskINode, name: &[u8]) -> bool
    ensures { result ≡ (is_dots name.now && eqb rec.nlinks 0) }
{
    is_dots(name) & (rec.nlinks == 0)
}

// Below slot 2 a listing starts only where the dots are asked for.
pub fn start_of(dots: bool, next: u64) -> u64
    ensures { result ≡ start_of dots next }
{
    if !dots & (next < 2) {
        return 2;
    }
    next
}
