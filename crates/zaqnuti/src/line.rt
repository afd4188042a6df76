// The line form for C: a text in, the line of its answer out.
ghost use Rattle.line_form.specs.Answer.{LineAnswers};

use numeric::refusal::put;

// Returns 0 and writes the line that answers `text` to `line` and its length to `written`. Returns 2 and changes nothing where `line` is shorter than the line.
#[unsafe(no_mangle)]
pub extern "C" fn zaqnuti_line(text: &[u8], line: &mut [u8], written: &mut usize) -> u8
    ensures { LineAnswers text.now result line.old line.new written.old written.new }
{
    put(line_form::answer(text, line), written)
}
