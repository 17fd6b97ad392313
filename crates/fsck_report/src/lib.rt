// What the checker's programs print of one input: an arena of at most 65,536 bytes, no node open; one line out.
#![tactic(auto)]

use fsck::Verdict;
use std::io;
use std::io::Read;

fn tell(rt: &impl Print, v: Verdict) -> io::Result<()> {
    match v {
        Verdict::Pass {
            nodes,
            unused,
            free,
        } => println!(rt; "pass nodes {nodes} unused {unused} free {free}"),
        Verdict::Fail(rule) => println!(rt; "fail rule {rule}"),
    }
}

// The input's bytes, to its end or one past the limit.
pub fn report(rt: &impl Print, input: &mut impl Read) -> io::Result<()> {
    let mut arena = [0u8; 65537];
    let n = cases::read_full(input, &mut arena)?;
    if n > 65536 {
        tell(rt, Verdict::Fail(1))
    } else {
        tell(rt, fsck::check(&arena[..n], table::empty()))
    }
}
