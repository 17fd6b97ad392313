// What the calls are given.
ghost use Rattle.std.specs.Prelude.{◌≡◌, length};
ghost use Rattle.edge_words.specs.Words.{handle_of, time_of};

use base::copy;
use structs::Timespec;
use table::Handle;

pub fn handle(hold: u32, stamp: u64) -> Handle
    ensures { result ≡ handle_of hold stamp }
{
    Handle {
        hold: hold,
        stamp: stamp,
    }
}

pub fn time(sec: i64, nsec: i64) -> Timespec
    ensures { result ≡ time_of sec nsec }
{
    Timespec {
        sec: sec,
        nsec: nsec,
    }
}

pub fn file_of(name: &[u8]) -> [u8; 16]
    requires { length name.now ≡ 16 }
    ensures { result ≡ name.now }
{
    let mut file = [0u8; 16];
    copy(&mut file, name);
    file
}
