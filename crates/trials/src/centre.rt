// The marked trials of the centre.
ghost use Rattle.std.specs.Prelude.{◌≡◌, true};

use median::centre::centre_scale;
use numeric::order::pattern;

// The empty centre is (0, 1).
pub fn empty() -> bool
    ensures { result ≡ true }
{
    let none = [0u64; 1];
    let answer = centre_scale(&none[..0]);
    match answer {
        Ok(c) => (pattern(c.centre) == 0) & (c.scale == 1.0),
        Err(_) => false,
    }
}

// 3, 1, 2, 4 has centre 3 and median deviation 1.
pub fn four() -> bool
    ensures { result ≡ true }
{
    let residuals = [pattern(3.0), pattern(1.0), pattern(2.0), pattern(4.0)];
    let answer = centre_scale(&residuals);
    match answer {
        Ok(c) => (c.centre == 3.0) & (c.scale == 1.4826 * 1.0 + 1e-6),
        Err(_) => false,
    }
}
