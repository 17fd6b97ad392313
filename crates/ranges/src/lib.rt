// No call yet: order 13's modes and their numbers; what fallocate does in each of them, and its laws.
#![tactic(auto)]

ghost use Rattle.std.specs.Prelude.{◌≡◌};
ghost use Rattle.ranges.specs.Modes.{mode_of};

// Operation mode for fallocate (vfs.rs: FallocateMode). Of allocate's two flags keep size alone matters: true where it is given. A number that is no
// mode can come at the C edge alone.
#[derive(Clone, Copy)]
pub enum FallocateMode {
    Allocate(bool),
    PunchHoleKeepSize,
    ZeroRange,
    ZeroRangeKeepSize,
    CollapseRange,
    InsertRange,
    Unknown,
}

// The mode of that number; of the flags bit 0 asks allocate to keep the size.
pub fn mode_of(mode: u8, flags: u8) -> FallocateMode
    ensures { result ≡ mode_of mode flags }
{
    if mode == 0 {
        return FallocateMode::Allocate(flags % 2 == 1);
    }
    if mode == 1 {
        return FallocateMode::PunchHoleKeepSize;
    }
    if mode == 2 {
        return FallocateMode::ZeroRange;
    }
    if mode == 3 {
        return FallocateMode::ZeroRangeKeepSize;
    }
    if mode == 4 {
        return FallocateMode::CollapseRange;
    }
    if mode == 5 {
        return FallocateMode::InsertRange;
    }
    FallocateMode::Unknown
}
