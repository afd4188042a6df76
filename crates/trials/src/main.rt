// The marked trials through the code, a line for each.
#![tactic(auto)]

mod carriers;
mod centre;
mod corrections;
mod numbers;
mod slots;
mod track;

use std::io;

fn report(rt: &impl Print, name: &str, holds: bool) -> io::Result<()> {
    let outcome = if holds { "holds" } else { "FAILS" };
    println!(rt; "{name} {outcome}")
}

fn main(rt: HostRuntime) -> io::Result<()> {
    report(&rt, "m1", numbers::root_of_four())?;
    report(&rt, "m2", numbers::root_of_two())?;
    report(&rt, "m3", numbers::root_of_least())?;
    report(&rt, "m4", centre::empty())?;
    report(&rt, "m5", centre::four())?;
    report(&rt, "m6", slots::five())?;
    report(&rt, "m7", numbers::identity_factors())?;
    report(&rt, "m8", numbers::zero_pivot_refused())?;
    report(&rt, "m9", carriers::states())?;
    report(&rt, "m10", corrections::bridged())?;
    report(&rt, "m11", corrections::gap_too_long())?;
    report(&rt, "m12", track::one_point())?;
    report(&rt, "m13", track::not_held())
}
