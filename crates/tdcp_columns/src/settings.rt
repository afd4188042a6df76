// A caller's settings of a displacement.
ghost use Rattle.std.specs.Prelude.{◌≡◌, min};
ghost use Rattle.tdcp_columns.specs.Displacement as spec;

use estimate_rounds::rounds::rounds_of;
use tdcp::displacement::Settings;

// Returns the settings of five floats and the rounds.
pub fn displacement_settings(s: &[f64; 5], rounds: usize) -> Settings
    ensures { result ≡ spec.lent_settings s (min rounds 51) }
{
    let n = rounds_of(rounds);
    Settings {
        screen: s[0],
        sigma_a: s[1],
        sigma_b: s[2],
        huber: s[3],
        mask: s[4],
        rounds: n,
        agreement: 0.0,
    }
}
