// North, east, down of floats that a caller lends. The result is taken as patterns, so that a refusal is promised to leave every bit.
ghost use Rattle.std.specs.Prelude.{◌≡◌};
ghost use Rattle.frames.specs.Lent.{DirectionAnswered};

use crate::frames::{Ned, north_east_down};
use numeric::refusal::put;
use numeric::vec3::Vec3;

// Writes the displacement at the position along north, east and down to `ned` and returns 0. On refusal, returns 19 and changes nothing.
pub fn ned_into(position: &[f64; 3], displacement: &[f64; 3], ned: &mut [u64; 3]) -> u8
    ensures { DirectionAnswered position.now displacement.now result ned.old ned.new }
{
    let answer = north_east_down(Vec3::from(*position), Vec3::from(*displacement));
    put(answer.map(Ned::patterns), ned)
}
