// The lent columns of a base epoch and of the states beside it.

// The columns of the ranges, and how many there are.
#[derive(Clone, Copy)]
pub struct RangeColumns<'a> {
    pub count: usize,
    pub constellation: &'a [u8],
    pub svid: &'a [u16],
    pub band: &'a [u32],
    pub pseudorange: &'a [f64],
}

// The columns of the states, and how many there are; each has eight floats: position, velocity, clock, modelled.
#[derive(Clone, Copy)]
pub struct StateColumns<'a> {
    pub count: usize,
    pub constellation: &'a [u8],
    pub svid: &'a [u16],
    pub band: &'a [u32],
    pub floats: &'a [f64],
}
