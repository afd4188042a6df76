// The line form: a text of settings and carriers in, the displacement's line out.
#![tactic(auto)]

mod field;
mod line;
mod print;
mod split;
mod text;

ghost use Rattle.line_form.specs.Answer.{LineAnswered};

use crate::print::print_to;
use crate::text::displacement_in;
use numeric::refusal::Refusal;

// Writes the line that answers `text` to the start of `line` and returns its length. On refusal, changes nothing.
pub fn answer(text: &[u8], line: &mut [u8]) -> Result<usize, Refusal>
    ensures { LineAnswered text.now line.old line.new result }
{
    let d = displacement_in(text);
    let mut out = [0u8; 128];
    let n = print_to(&mut out, d);
    if line.len() < n {
        return Err(Refusal::TooMany);
    }
    line[..n].copy_from_slice(&out[..n]);
    Ok(n)
}
