// The trials of docs/SCOPE.md, "Trials at the edges", that are run: a line for each.
#![tactic(auto)]

mod corrections;
mod displacement;
mod fix;
mod report;
mod sky;

use std::io;

fn main(rt: HostRuntime) -> io::Result<()> {
    displacement::run(&rt)?;
    fix::run(&rt)?;
    corrections::run(&rt)
}
