// Entry point of a displacement as north, east, down.

ghost use Rattle.frames.specs.Lent.{DirectionAnswered};

use frames::lent::ned_into;

// Writes the displacement at the position along north, east and down to `ned` and returns 0. On refusal, returns 19 and changes nothing.
#[unsafe(no_mangle)]
pub extern "C" fn zaqnuti_north_east_down(
    position: &[f64; 3],
    displacement: &[f64; 3],
    ned: &mut [u64; 3],
) -> u8
    ensures { DirectionAnswered position.now displacement.now result ned.old ned.new }
{
    ned_into(position, displacement, ned)
}
