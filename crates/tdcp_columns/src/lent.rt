// The answer of a displacement in lent memory. Doubles are lent as their patterns, so that a refusal is promised to change no bit.
ghost use Rattle.std.specs.Prelude.{◌≡◌};
ghost use Rattle.lists.specs.Memory.{lent};
ghost use Rattle.tdcp.specs.Rated.{plain_of};
ghost use Rattle.tdcp_columns.specs.Displacement as spec;
ghost use Rattle.tdcp_columns.specs.Rated as rated;

use numeric::order::pattern;
use numeric::refusal::Refusal;
use tdcp::displacement::RatedDelta;

// Returns 0 and writes the displacement in metres, without its figures, to `delta` and how many pairs were used and screened out to `counts`. On refusal, returns its number and changes nothing.
pub fn answer_into(
    answer: Result<RatedDelta, Refusal>,
    delta: &mut [u64; 3],
    counts: &mut [usize; 2],
) -> u8
    ensures { spec.Leaves (plain_of answer) result (lent delta) (lent counts) }
{
    match answer {
        Ok(d) => {
            let v = d.moved.delta.patterns();
            *delta = v;
            *counts = [d.moved.used, d.moved.screened];
            0
        }
        Err(r) => r.number(),
    }
}

// Returns 0 and writes the displacement, its figures and its counts. On refusal, returns its number and changes nothing.
pub fn rated_into(
    answer: Result<RatedDelta, Refusal>,
    delta: &mut [u64; 3],
    quality: &mut [u64; 2],
    counts: &mut [usize; 2],
) -> u8
    ensures { rated.RatedLeaves answer result (lent delta) (lent quality) (lent counts) }
{
    let number = answer_into(answer, delta, counts);
    if let Ok(d) = answer {
        let chi = pattern(d.chi);
        let pdop = pattern(d.pdop);
        *quality = [chi, pdop];
    }
    number
}
