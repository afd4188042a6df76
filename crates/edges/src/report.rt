// Writes a line for each trial: its name and its answer.
use corrections_add::add::Counts;
use numeric::refusal::Refusal;
use numeric::vec3::Vec3;
use std::{fmt, io};
use tdcp::displacement::Delta;
use wls::fix::Solution;

// A vector, each coordinate as its 64 bits.
#[derive(Clone, Copy)]
struct Bits(Vec3);

impl fmt::Display for Bits {
    fn fmt<W: fmt::Write>(&self, f: &mut fmt::Formatter<W>) -> fmt::Result {
        let [x, y, z] = self.0.patterns();
        write!(f, "{x:016x} {y:016x} {z:016x}")
    }
}

// A displacement.
#[derive(Clone, Copy)]
pub struct Moved(pub Delta);

impl fmt::Display for Moved {
    fn fmt<W: fmt::Write>(&self, f: &mut fmt::Formatter<W>) -> fmt::Result {
        let d = self.0;
        write!(
            f,
            "used {}, screened {}, moved {}",
            d.used,
            d.screened,
            Bits(d.delta)
        )
    }
}

// A fix.
#[derive(Clone, Copy)]
pub struct Fixed(pub Solution);

impl fmt::Display for Fixed {
    fn fmt<W: fmt::Write>(&self, f: &mut fmt::Formatter<W>) -> fmt::Result {
        let s = self.0;
        write!(f, "used {}, at {}", s.used, Bits(s.position))
    }
}

// The counts of a table.
#[derive(Clone, Copy)]
pub struct Added(pub Counts);

impl fmt::Display for Added {
    fn fmt<W: fmt::Write>(&self, f: &mut fmt::Formatter<W>) -> fmt::Result {
        write!(f, "samples {}", self.0.samples)
    }
}

// Writes a trial's line.
pub fn report<T: fmt::Display + Drop>(
    rt: &impl Print,
    name: &str,
    answer: Result<T, Refusal>,
) -> io::Result<()> {
    match answer {
        Ok(value) => println!(rt; "{name}: {value}"),
        Err(refusal) => println!(rt; "{name}: {refusal}"),
    }
}
