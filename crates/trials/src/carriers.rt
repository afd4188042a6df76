// The marked trial of a carrier's state, through a displacement.
ghost use Rattle.std.specs.Prelude.{◌≡◌, true};
ghost use Rattle.tdcp.specs.Displacement.{displacement_of};
ghost use Rattle.trials.specs.Steps.{six_in, used_of};

use numeric::vec3::Vec3;
use records::record::{Carrier, Epoch};
use tdcp::displacement::{Settings, delta_position};

// How many pairs a displacement of zero rounds uses of six carriers in this state at either epoch, 0 where it is refused.
fn used_in(state: i32) -> usize
    ensures { result ≡ used_of (displacement_of (six_in state)) }
{
    let zero = Vec3 {
        x: 0.0,
        y: 0.0,
        z: 0.0,
    };
    let place = Vec3 {
        x: 1.0,
        y: 0.0,
        z: 0.0,
    };
    let carrier = Carrier {
        constellation: 1,
        svid: 5,
        band: 1575,
        adr: 0.0,
        state: state,
        satellite: place,
        elevation: 10.0,
        rate: 0.0,
    };
    let carriers = [carrier; 64];
    let six = Epoch {
        count: 6,
        carriers: carriers,
    };
    let settings = Settings {
        screen: 0.5,
        sigma_a: 1.0,
        sigma_b: 0.0,
        huber: 1.0,
        mask: 10.0,
        rounds: 0,
        agreement: 0.0,
    };
    let answer = delta_position(six, six, 1.0, zero, settings);
    match answer {
        Ok(d) => d.used,
        Err(_) => 0,
    }
}

// States 1 usable, 0, 3, 5 and -1 not.
pub fn states() -> bool
    ensures { result ≡ true }
{
    (used_in(1) == 6)
        & (used_in(0) == 0)
        & (used_in(3) == 0)
        & (used_in(5) == 0)
        & (used_in(-1) == 0)
}
