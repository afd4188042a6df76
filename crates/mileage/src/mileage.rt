// A mileage over at most 65,535 epochs: all pulses, and the millimetres and pulses of the epochs that count.
ghost use Rattle.std.specs.Prelude.{◌≡◌, true, false, cond, ◌≤◌, ◌<◌};
ghost use Rattle.mileage.specs.Mileage as spec;
ghost use Rattle.mileage.specs.Steps.{GrowsBy, way_for};

use crate::rated::is_rated;
use numeric::real::in_range;
use numeric::refusal::Refusal;
use numeric::vec3::Vec3;
use trip::measure::way_of_square;

// One epoch: the number that refused its displacement (0: none), the displacement in metres, its quality, and its odometer pulses. The number is a C caller's and
// may be that of no `Refusal`.
#[derive(Clone, Copy)]
pub struct Epoch {
    pub refused: u8,
    pub displacement: Vec3,
    pub chi: f64,
    pub pdop: f64,
    pub pulses: u16,
}

// The limit of the predicted error in metres; the epochs, and of them those refused and set aside; the millimetres and pulses of counted epochs; the
// millimetres of standing ones without the last epoch's; all pulses; whether the last epoch had a pulse (1 or 0); and the last epoch's millimetres where it
// stands so far.
#[derive(Clone, Copy)]
pub struct Mileage {
    pub limit: f64,
    pub epochs: u64,
    pub refused: u64,
    pub aside: u64,
    pub counted: u64,
    pub covered: u64,
    pub standing: u64,
    pub pulses: u64,
    pub moved: u64,
    pub waiting: u64,
}

// The epochs, those refused and set aside, the millimetres and pulses of counted epochs, the millimetres of standing ones, and all pulses.
#[derive(Clone, Copy)]
pub struct Report {
    pub epochs: u64,
    pub refused: u64,
    pub aside: u64,
    pub counted: u64,
    pub covered: u64,
    pub standing: u64,
    pub pulses: u64,
}

// n where the test holds, and otherwise 0.
pub(crate) fn when(test: bool, n: u64) -> u64
    ensures { (result ≡ cond test n 0) × (result ≤ n) }
{
    if test { n } else { 0 }
}

// Multiplies by pulses and divides by covered in 64 bits. Refuses a result above 2 ^ 63 - 1.
pub(crate) fn scaled(counted: u64, pulses: u64, covered: u64) -> Result<u64, Refusal>
    requires { (0 < covered) × (covered ≤ pulses) × (pulses ≤ 4294836225) }
    ensures { result ≡ spec.distance_held (spec.scaled counted pulses covered) }
{
    let whole = counted / covered;
    let rest = counted % covered * pulses / covered;
    if (9223372036854775807 - rest) / pulses < whole {
        return Err(Refusal::BadTrip);
    }
    Ok(whole * pulses + rest)
}

// Returns the way of an accepted displacement. A refused one is not measured.
pub(crate) fn way_for(refused: u8, displacement: Vec3) -> u64
    ensures { result ≡ way_for refused displacement }
{
    if refused == 0 {
        let d = displacement;
        return way_of_square(d.x * d.x + d.y * d.y + d.z * d.z);
    }
    0
}

impl Mileage {
    // Starts a mileage with this limit.
    pub fn start(limit: f64) -> Result<Mileage, Refusal>
        ensures { result ≡ spec.mileage_started limit }
    {
        if in_range(limit) {
            return Ok(Mileage {
                limit,
                epochs: 0,
                refused: 0,
                aside: 0,
                counted: 0,
                covered: 0,
                standing: 0,
                pulses: 0,
                moved: 0,
                waiting: 0,
            });
        }
        Err(Refusal::SettingOutOfRange)
    }

    // Checks rule 16 of a mileage handed in. The first test keeps the sums of the second from overflowing. None fails in a drive, so that two branches cost least.
    pub fn is_sound(self) -> bool
        ensures { result ≡ spec.sound_mileage self }
    {
        let epochs = self.epochs;
        if !((epochs <= 65535)
            & (self.refused <= 65535)
            & (self.aside <= 65535)
            & (self.counted <= 0xFFFF_FFFF_FFFF)
            & (self.standing <= 0xFFFF_FFFF_FFFF)
            & (self.waiting <= 0xFFFF_FFFF_FFFF))
        {
            return false;
        }
        (self.refused + self.aside <= epochs)
            & (self.counted + self.standing + self.waiting <= 1000000 * epochs)
            & (self.pulses <= 65535 * epochs)
            & (self.covered <= self.pulses)
            & (self.moved <= 1)
            & in_range(self.limit)
    }

    // The mileage after an epoch that is refused or not, of use or not, of so many millimetres and pulses.
    pub(crate) fn grown(self, refused: bool, usable: bool, millimetres: u64, pulses: u64) -> Mileage
        requires { GrowsBy self millimetres pulses }
        ensures { result ≡ spec.grown self refused usable millimetres pulses }
    {
        let moves = 0 < pulses;
        let near = (0 < self.moved) | moves;
        let covered = when(usable & near, pulses);
        Mileage {
            limit: self.limit,
            epochs: self.epochs + 1,
            refused: self.refused + when(refused, 1),
            aside: self.aside + when(!refused & !usable, 1),
            counted: self.counted + when(moves, self.waiting) + when(usable & near, millimetres),
            covered: self.covered + covered,
            standing: self.standing + when(!moves, self.waiting),
            pulses: self.pulses + pulses,
            moved: when(moves, 1),
            waiting: when(usable & !near, millimetres),
        }
    }

    // Returns the mileage after an epoch of so many millimetres and pulses that counts, as most do.
    pub(crate) fn driven(self, millimetres: u64, more: u64) -> Mileage
        requires { GrowsBy self millimetres more × (0 < more) }
        ensures { result ≡ spec.grown self false true millimetres more }
    {
        Mileage {
            epochs: self.epochs + 1,
            counted: self.counted + self.waiting + millimetres,
            covered: self.covered + more,
            pulses: self.pulses + more,
            moved: 1,
            waiting: 0,
            ..self
        }
    }

    // Adds an epoch whose displacement is of this way. The usual case has a branch of its own.
    pub(crate) fn add_way(self, way: u64, e: Epoch) -> Result<Mileage, Refusal>
        requires { way ≡ way_for e.refused e.displacement }
        ensures { result ≡ spec.mileage_added self e }
    {
        if !(self.is_sound() & (self.epochs < 65535) & (way <= 1000000)) {
            return Err(Refusal::BadTrip);
        }
        let refused = e.refused != 0;
        let usable = !refused & is_rated(self.limit, e.chi, e.pdop);
        let pulses = e.pulses as u64;
        if usable & (0 < pulses) {
            return Ok(self.driven(way, pulses));
        }
        Ok(self.grown(refused, usable, way, pulses))
    }

    // Adds an epoch.
    pub fn add(self, e: Epoch) -> Result<Mileage, Refusal>
        ensures { result ≡ spec.mileage_added self e }
    {
        let way = way_for(e.refused, e.displacement);
        self.add_way(way, e)
    }

    // Reports the totals. The last epoch's millimetres count as standing where no pulse came so far.
    pub fn report(self) -> Result<Report, Refusal>
        ensures { result ≡ spec.mileage_reported self }
    {
        if !self.is_sound() {
            return Err(Refusal::BadTrip);
        }
        Ok(Report {
            epochs: self.epochs,
            refused: self.refused,
            aside: self.aside,
            counted: self.counted,
            covered: self.covered,
            standing: self.standing + self.waiting,
            pulses: self.pulses,
        })
    }

    // The distance in millimetres: those of counted epochs times all pulses by the pulses of counted epochs.
    pub fn distance(self) -> Result<u64, Refusal>
        ensures { result ≡ spec.mileage_distance self }
    {
        if !self.is_sound() {
            return Err(Refusal::BadTrip);
        }
        if self.covered == 0 {
            return Err(Refusal::NoDistance);
        }
        scaled(self.counted, self.pulses, self.covered)
    }

    // The millilitres for a kilometre of the distance.
    pub fn fuel(self, millilitres: u32) -> Result<u64, Refusal>
        ensures { result ≡ spec.mileage_fuelled self millilitres }
    {
        let d = self.distance()?;
        if d == 0 {
            return Err(Refusal::NoDistance);
        }
        Ok((millilitres as u64) * 1000000 / d)
    }
}
