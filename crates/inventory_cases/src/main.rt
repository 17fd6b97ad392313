// What the inventory's program prints, of each file that an argument names, on lines after its name.
#![tactic(auto)]

use std::io;
use std::rt::{Env, Files};

fn judge<R: Env + Files + Print + Eprint>(rt: &R, i: usize) -> io::Result<()> {
    let file = cases::open(rt, i)?;
    rt.write_all(b"\n")?;
    if let Some(mut file) = file {
        inventory_report::report(rt, &mut file)?;
    }
    Ok(())
}

fn main(rt: HostRuntime) -> io::Result<()> {
    let n = cases::arg_count(&rt);
    for i in 1..n {
        judge(&rt, i)?;
    }
    Ok(())
}
