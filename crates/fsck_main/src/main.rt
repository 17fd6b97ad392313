// The checker's program: the arena is standard input.
#![tactic(auto)]

use std::io;

fn main(rt: HostRuntime) -> io::Result<()> {
    fsck_report::report(&rt, &mut rt.reader())
}
