// The receiver clocks, one for each constellation.
ghost use Rattle.std.specs.Prelude.{◌≡◌};
ghost use Rattle.clocks.specs.Clocks as spec;

// The slot of each place, and how many constellations have been given. A place that has none holds the largest number, since C holds these numbers itself
// (zaqnuti_clocks_given).
#[derive(Clone, Copy)]
pub struct Clocks {
    pub slot: [usize; 8],
    pub count: usize,
}

// The place of a constellation.
pub(crate) fn place(constellation: u8) -> usize
    ensures { result ≡ spec.place constellation }
{
    if constellation < 7 {
        constellation as usize
    } else {
        7
    }
}

impl Clocks {
    // No constellation given yet.
    pub fn new() -> Self
        ensures { result ≡ spec.none }
    {
        Self {
            slot: [0xFFFF_FFFF_FFFF_FFFF; 8],
            count: 0,
        }
    }

    // One constellation more.
    pub fn given(mut self, constellation: u8) -> Self
        ensures { result ≡ spec.given self constellation }
    {
        let n = self.count;
        if n > 7 {
            return self;
        }
        let i = place(constellation);
        if self.slot[i] == 0xFFFF_FFFF_FFFF_FFFF {
            self.slot[i] = 3 + n;
            self.count = n + 1;
        }
        self
    }

    // The slot of a constellation.
    pub fn slot(self, constellation: u8) -> usize
        ensures { result ≡ spec.slot self constellation }
    {
        let i = place(constellation);
        self.slot[i]
    }

    // How many constellations have been given.
    pub fn count(self) -> usize
        ensures { result ≡ self.count }
    {
        self.count
    }

    // Three coordinates and the clocks.
    pub fn unknowns(self) -> usize
        ensures { result ≡ spec.unknowns self }
    {
        std::num::wrapping_add_usize(3, self.count)
    }
}
