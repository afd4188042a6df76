// Entry points of the receiver clocks, whose state the caller holds: the slot of each place, and how many constellations have been given.
ghost use Rattle.std.specs.Prelude.{◌≡◌};
ghost use Rattle.clocks.specs.Clocks as spec;
ghost use Rattle.zaqnuti.specs.Numbers.{clocks_from};

use clocks::clocks::Clocks;

// Returns the clocks that the lent slots and a count hold.
fn clocks(slot: &[usize; 8], count: usize) -> Clocks
    ensures { result ≡ clocks_from slot.now count }
{
    Clocks { slot: *slot, count }
}

// Writes the state with no constellation to the lent slots and count.
#[unsafe(no_mangle)]
pub extern "C" fn zaqnuti_clocks_new(slot: &mut [usize; 8], count: &mut usize)
    ensures { clocks_from slot.new count.new ≡ spec.none }
{
    let none = Clocks::new();
    let places = none.slot;
    *slot = places;
    *count = none.count;
}

// Adds a constellation to the lent state.
#[unsafe(no_mangle)]
pub extern "C" fn zaqnuti_clocks_given(slot: &mut [usize; 8], count: &mut usize, constellation: u8)
    ensures { clocks_from slot.new count.new ≡ spec.given (clocks_from slot.old count.old) constellation }
{
    let given = clocks(slot, *count).given(constellation);
    let places = given.slot;
    *slot = places;
    *count = given.count;
}

// Returns the slot of a constellation: the largest usize for one not yet given.
#[unsafe(no_mangle)]
pub extern "C" fn zaqnuti_clocks_slot(slot: &[usize; 8], constellation: u8) -> usize
    ensures { result ≡ spec.slot (clocks_from slot.now 0) constellation }
{
    clocks(slot, 0).slot(constellation)
}

// Returns the number of unknowns: three coordinates and a clock for each constellation given.
#[unsafe(no_mangle)]
pub extern "C" fn zaqnuti_clocks_unknowns(slot: &[usize; 8], count: usize) -> usize
    ensures { result ≡ spec.unknowns (clocks_from slot.now count) }
{
    clocks(slot, count).unknowns()
}
