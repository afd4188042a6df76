// A mileage that the caller holds as ten words: the limit's bits, epochs, refused, set aside, counted millimetres, counted pulses, standing millimetres, all
// pulses, whether the last epoch had a pulse, and the last epoch's millimetres where it stands so far.
ghost use Rattle.std.specs.Prelude.{◌≡◌};
ghost use Rattle.mileage.specs.Words as spec;

use crate::mileage::{Epoch, Mileage, Report, way_for};
use numeric::order::{float, pattern};
use numeric::refusal::Refusal;
use numeric::vec3::Vec3;

// The mileage that the words hold.
impl From<[u64; 10]> for Mileage {
    ghost from_gives = { λ w mileage. mileage ≡ spec.mileage_from w };

    fn from(w: [u64; 10]) -> Mileage {
        let limit = w[0];
        Mileage {
            limit: float(limit),
            epochs: w[1],
            refused: w[2],
            aside: w[3],
            counted: w[4],
            covered: w[5],
            standing: w[6],
            pulses: w[7],
            moved: w[8],
            waiting: w[9],
        }
    }
}

// The ten words of a mileage.
impl From<Mileage> for [u64; 10] {
    ghost from_gives = { λ mileage w. w ≡ spec.mileage_words mileage };

    fn from(m: Mileage) -> [u64; 10] {
        [
            pattern(m.limit),
            m.epochs,
            m.refused,
            m.aside,
            m.counted,
            m.covered,
            m.standing,
            m.pulses,
            m.moved,
            m.waiting,
        ]
    }
}

// The seven words of a report.
impl From<Report> for [u64; 7] {
    ghost from_gives = { λ report w. w ≡ spec.mileage_report_words report };

    fn from(p: Report) -> [u64; 7] {
        [
            p.epochs, p.refused, p.aside, p.counted, p.covered, p.standing, p.pulses,
        ]
    }
}

// Adds an epoch to the mileage that the lent words hold.
pub fn add_held(
    mileage: &[u64; 10],
    refused_by: u8,
    delta: &[f64; 3],
    quality: &[f64; 2],
    pulses: u16,
) -> Result<Mileage, Refusal>
    ensures { result ≡ spec.mileage_added_words mileage.now (spec.lent_epoch refused_by delta quality pulses) }
{
    let displacement = Vec3::from(*delta);
    // The way first: it may need a root, which is a call, over which no word has to be kept.
    let way = way_for(refused_by, displacement);
    let e = Epoch {
        refused: refused_by,
        displacement,
        chi: quality[0],
        pdop: quality[1],
        pulses,
    };
    Mileage::from(*mileage).add_way(way, e)
}
