// The centre of residuals and their scale.
ghost use Rattle.numeric.specs.Refusal.{answer_number};
ghost use Rattle.std.specs.Prelude.{◌≡◌, length};
ghost use Rattle.median.specs.Steps.{Front, Room};
ghost use Rattle.median.specs.Centre.{deviations_of, Centred};

use crate::median::{middle, of_like_sign};
use numeric::order::{float, pattern};
use numeric::real::abs;
use numeric::refusal::Refusal;

// The centre and the scale.
#[derive(Clone, Copy)]
pub struct CentreScale {
    pub centre: f64,
    pub scale: f64,
}

// Writes the absolute deviations of the residuals from the centre to the front of k. Their signs are clear.
fn deviations(residuals: &[u64], centre: f64, k: &mut [u64; 64])
    requires { Room (length residuals.now) k.old }
    ensures { Front (deviations_of centre residuals.now) (length residuals.now) k.new }
{
    let n = residuals.len();
    for i in 0..n {
        let b = residuals[i];
        let x = float(b);
        k[i] = pattern(abs(x - centre));
    }
}

// Returns the residual at place len/2 in order, and as scale 1.4826 times the deviation at that place plus 1e-6. Refuses more than 64 residuals by 2.
pub fn centre_scale(residuals: &[u64]) -> Result<CentreScale, Refusal>
    ensures { Centred residuals.now result }
{
    let n = residuals.len();
    if 64 < n {
        return Err(Refusal::TooMany);
    }
    if n == 0 {
        return Ok(CentreScale {
            centre: 0.0,
            scale: 1.0,
        });
    }
    let mut k = [0u64; 64];
    let centre = float(middle(residuals, &mut k));
    deviations(residuals, centre, &mut k);
    let deviation = float(of_like_sign(&mut k, n, n / 2));
    Ok(CentreScale {
        centre: centre,
        scale: 1.4826 * deviation + 1e-6,
    })
}
