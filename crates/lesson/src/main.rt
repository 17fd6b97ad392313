// The lesson of the course: document 01's examples, run on the calls. Each scene is a function, and each line that it prints says what was
// done and what came out.
#![tactic(auto)]

mod host;
mod slots;
mod support;

use lesson_made::{log, made, stops, walks, weights};
use std::io;

fn main(rt: HostRuntime) -> io::Result<()> {
    let mut world = [0u8; 12594];
    let mut kept = [0u8; 12594];
    made::fresh_image(&rt, &mut world)?;
    made::file_a(&rt, &mut world)?;
    made::folder_b(&rt, &mut world)?;
    slots::slots(&rt, &mut world)?;
    made::second_group(&rt, &mut world)?;
    made::numbers(&rt)?;
    made::names(&rt, &mut world, &mut kept)?;
    slots::same_node(&rt, &mut world, &mut kept)?;
    slots::families(&rt, &mut world)?;
    walks::masters(&rt)?;
    slots::two_keys(&rt, &mut world)?;
    support::support_call(&rt, &mut world)?;
    log::log_edited(&rt, &mut world, &mut kept)?;
    host::host_down(&rt, &mut world, &mut kept)?;
    stops::create_stops(&rt, &mut world, &mut kept)?;
    weights::title_bars(&rt)
}
