// A block by itself.
ghost use Rattle.std.specs.Prelude.{◌≡◌, length, eqb, ◌||◌};
ghost use Rattle.sound.specs.Sound.{all_zero, layout, within};
ghost use Rattle.arena.specs.Fields.{tag_of, which_of, name_of};
ghost use Rattle.base.specs.Parts.{part as part_of};

use arena::{
    CHECK_AT, DATA, NAME_AT, NODE_FILE, NUMBER_AT, PAYLOAD, PAYLOAD_AT, PAYLOAD_END, block_check,
};
use base::index;
use le::u32_at;

// Whether every byte is zero. The bytes are joined, and not tested one by one, so that many are read at once.
pub fn all_zero(part: &[u8]) -> bool
    ensures { result ≡ all_zero part.now }
{
    let mut joined: u8 = 0;
    for byte in part {
        joined |= *byte;
    }
    joined == 0
}

fn name_ok(part: &[u8]) -> bool
    requires { length part.now ≡ 512 }
    ensures { result ≡ (eqb (which_of part.now) 1 || all_zero (name_of part.now)) }
{
    part[1] == NODE_FILE || all_zero(&part[NAME_AT..NUMBER_AT])
}

fn payload_ok(part: &[u8]) -> bool
    requires { length part.now ≡ 512 }
    ensures { result ≡ (eqb (tag_of part.now) 2 || all_zero (part_of part.now 24 504)) }
{
    part[0] == DATA || all_zero(&part[PAYLOAD_AT..PAYLOAD_END])
}

// A block's layout.
#[tactic(auto, unfolding(crate::specs::Sound::layout))]
pub fn layout_ok(part: &[u8]) -> bool
    requires { length part.now ≡ 512 }
    ensures { result ≡ layout part.now }
{
    part[0] <= DATA
        && part[1] <= NODE_FILE
        && all_zero(&part[2..NAME_AT])
        && name_ok(part)
        && payload_ok(part)
        && all_zero(&part[PAYLOAD_END..CHECK_AT])
        && u32_at(part, CHECK_AT) == block_check(part)
}

// A data block against the length of its file.
pub fn within_ok(part: &[u8], len: u32) -> bool
    requires { length part.now ≡ 512 }
    ensures { result ≡ within part.now len }
{
    let to = index(len);
    let from = PAYLOAD * index(u32_at(part, 20));
    if from >= to {
        return false;
    }
    let left = to - from;
    left >= PAYLOAD || all_zero(&part[PAYLOAD_AT + left..PAYLOAD_END])
}
