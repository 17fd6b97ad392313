// What the checker's program prints, of each file that an argument names.
#![tactic(auto)]

use std::io;
use std::rt::{Env, Files};

fn judge<R: Env + Files + Print + Eprint>(rt: &R, i: usize) -> io::Result<()> {
    if let Some(mut file) = cases::open(rt, i)? {
        fsck_report::report(rt, &mut file)?;
    }
    Ok(())
}

fn main(rt: HostRuntime) -> io::Result<()> {
    let n = cases::arg_count(&rt);
    for i in 1..n {
        judge(&rt, i)?;
    }
    Ok(())
}
