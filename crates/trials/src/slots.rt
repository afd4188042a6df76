// The marked trial of the clocks.
ghost use Rattle.std.specs.Prelude.{◌≡◌, true};

use clocks::clocks::Clocks;

// Constellations 6, 1, 6, 9, 7 give slots 3, 4, 3, 5, 5.
pub fn five() -> bool
    ensures { result ≡ true }
{
    let k = Clocks::new().given(6).given(1).given(6).given(9).given(7);
    (k.slot(6) == 3) & (k.slot(1) == 4) & (k.slot(9) == 5) & (k.slot(7) == 5)
}
