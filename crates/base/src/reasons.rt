// The reasons of a refusal, and their numbers (specs/Reasons).
ghost use Rattle.std.specs.Prelude.{◌≡◌};
ghost use Rattle.base.specs.Told.{number, code};

// Why a call is refused.
#[derive(Clone, Copy, Debug, PartialEq, Eq)]
pub enum Reason {
    // The arena's length is none of 16 to 4,096 whole blocks.
    BadArena = 1,

    // The arena is not sound.
    Damaged,

    // The table is not well formed.
    BadTable,

    // No live handle of who asks.
    BadHandle,

    // A name that is none.
    BadName,

    // Something that the call does not take.
    InvalidParam,

    // No folder.
    NotDir,

    // A folder without links.
    DirRemoved,

    // A folder, or one of the dots.
    IsDir,

    // A name of more than 255 bytes.
    NameTooLong,

    // No such name.
    EntryNotFound,

    // The name is there already.
    EntryExist,

    // A folder with more than its dots.
    DirNotEmpty,

    // The name for the new node's file is taken.
    FileTaken,

    // One link more does not fit.
    TooManyLinks,

    // No hold, row or stamp is left.
    TableFull,

    // Not enough free blocks.
    NoDeviceSpace,

    // No image of this file system.
    WrongFs,

    // The image does not hold what its own numbers say.
    Stuck,

    // The output has no room.
    OutFull,

    // (order 1) No node with contents of its own.
    NotFile,

    // (order 1) Beyond what a file may have.
    FileTooBig,

    // (order 7) Too many links on the way.
    SymLoop,

    // (order 11) A hold is live.
    InUse,
}

impl Reason {
    // The number by which it is told.
    pub fn number(self) -> u8
        ensures { result ≡ number self }
    {
        self as u8
    }
}

// An answer as C has it: 0, or the reason's number.
pub fn code(r: Result<(), Reason>) -> u8
    ensures { result ≡ code r }
{
    match r {
        Ok(()) => 0,
        Err(reason) => reason.number(),
    }
}
