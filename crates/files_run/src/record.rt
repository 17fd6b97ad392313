// A record of the script.
use le::u32_at;
use std::fmt;

#[derive(Clone, Copy)]
pub enum Store {
    Put,
    Cut,
    Make,
    Drop,
}

impl fmt::Display for Store {
    fn fmt<W: fmt::Write>(&self, f: &mut fmt::Formatter<W>) -> fmt::Result {
        let word = match self {
            Store::Put => "put",
            Store::Cut => "cut",
            Store::Make => "make",
            Store::Drop => "drop",
        };
        f.write_str(word)
    }
}

#[derive(Clone, Copy)]
pub enum Operation {
    Arena,
    Store(Store),
    Read,
    Ask,
}

impl From<u8> for Operation {
    fn from(b: u8) -> Self {
        match b {
            1 => Operation::Arena,
            2 => Operation::Store(Store::Put),
            3 => Operation::Store(Store::Cut),
            4 => Operation::Store(Store::Make),
            0 | 5 => Operation::Store(Store::Drop),
            6 => Operation::Read,
            _ => Operation::Ask,
        }
    }
}

#[derive(Clone, Copy)]
pub struct Record {
    pub operation: Operation,
    pub which: u8,
    pub name: [u8; 16],
    pub seed: u8,
    pub pos: u32,
    pub size: u32,
}

impl From<&[u8; 12]> for Record {
    fn from(bytes: &[u8; 12]) -> Self {
        Record {
            operation: Operation::from(bytes[0]),
            which: bytes[1],
            name: name_of(bytes[2]),
            seed: bytes[3],
            pos: u32_at(bytes, 4),
            size: u32_at(bytes, 8),
        }
    }
}

// A name whose halves other names have too.
fn name_of(from: u8) -> [u8; 16] {
    let mut name = [from / 4; 16];
    name[..8].fill(from % 4);
    name
}
