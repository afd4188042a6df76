// A whole text of the form.
ghost use Rattle.std.specs.Prelude.{◌≡◌, ◌<◌, ◌≤◌, length, drop};
ghost use Rattle.line_form.specs.Steps.{Displaces, LinesDisplace, Keeps, ReadsNext};

use crate::line::{Line, first_of, line_of};
use crate::split::find;
use numeric::refusal::Refusal;
use numeric::vec3::Vec3;
use records::arrays::CarrierArrays;
use records::pair::Profile;
use records::record::Carrier;
use tdcp::displacement::{Delta, Interval, Settings, displaced};

// A line, and the place after its LF; a last line without one is broken.
#[derive(Clone, Copy)]
struct Next {
    line: Line,
    at: usize,
}

// Reads the line that begins at this place.
fn next_line(text: &[u8], at: usize) -> Next
    requires { (at < length text.now) × (length text.now ≤ 32768) }
    ensures { ReadsNext text.now at result }
{
    let n = text.len();
    let e = find(text, at, b'\n');
    if e == n {
        return Next {
            line: Line::Broken,
            at: n,
        };
    }
    let line = line_of(&text[at..e]);
    Next {
        line: line,
        at: e + 1,
    }
}

// Adds a carrier to the n of an epoch and returns the new count. Carriers past the 64th are counted but not written.
fn keep(c: Carrier, n: usize, arrays: &mut CarrierArrays) -> usize
    requires { n ≤ 32768 }
    ensures { Keeps c n result arrays.old.signals arrays.old.states arrays.old.floats arrays.new.signals arrays.new.states arrays.new.floats }
{
    if n < 64 {
        arrays.put(n, c);
    }
    n + 1
}

// Returns the displacement between the epochs of the lines from place `from` on, which are filled in place, line by line.
fn displacement_after(
    text: &[u8],
    from: usize,
    dt: f64,
    receiver: Vec3,
    settings: Settings,
) -> Result<Delta, Refusal>
    requires { (from ≤ length text.now) × (length text.now ≤ 32768) }
    ensures { LinesDisplace (drop from text.now) dt receiver settings result }
{
    let mut then = CarrierArrays::new();
    let mut now = CarrierArrays::new();
    let mut m: usize = 0;
    let mut n: usize = 0;
    let mut at = from;
    while at < text.len() {
        let next = next_line(text, at);
        at = next.at;
        match next.line {
            Line::Previous(c) => m = keep(c, m, &mut then),
            Line::Current(c) => n = keep(c, n, &mut now),
            Line::Broken => return Err(Refusal::BrokenForm),
        }
    }
    if (64 < m) | (64 < n) {
        return Err(Refusal::TooMany);
    }
    displaced(
        then.first(m),
        now.first(n),
        Interval::Seconds(dt),
        receiver,
        settings,
        Profile::General,
        false,
    )
    .map(|d| d.moved)
}

// Returns the displacement that the text asks for.
pub(crate) fn displacement_in(text: &[u8]) -> Result<Delta, Refusal>
    ensures { Displaces text.now result }
{
    let n = text.len();
    if n > 32768 {
        return Err(Refusal::BrokenForm);
    }
    let end = find(text, 0, b'\n');
    if end == n {
        return Err(Refusal::BrokenForm);
    }
    let Some(given) = first_of(&text[..end]) else {
        return Err(Refusal::BrokenForm);
    };
    displacement_after(text, end + 1, given.dt, given.receiver, given.settings)
}
