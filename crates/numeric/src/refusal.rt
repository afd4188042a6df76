// Names each refusal number (docs/REFUSALS.md), and turns an answer into its number.
ghost use Rattle.std.specs.Prelude.{◌≡◌};
ghost use Rattle.numeric.specs.Refusal.{number_of, answer_number, value_after};

use std::error::Error;
use std::fmt;

#[derive(Clone, Copy, Debug, PartialEq, Eq)]
pub enum Refusal {
    BrokenForm = 1,
    TooMany = 2,
    SettingOutOfRange = 3,
    RecordOutOfRange = 4,
    BadInterval = 5,
    BadTrack = 6,
    TooFewPairs = 7,
    TooFewRows = 8,
    TooManySlots = 9,
    FitFailed = 10,
    TableFull = 11,
    NoCorrection = 12,
    BadTime = 13,
    QualityNotFinite = 14,
    OnReceiver = 15,
    BadTrip = 16,
    NoDistance = 17,
    BadDropTime = 18,
    NotTurned = 19,
    NotCertified = 20,
    BrokenRecords = 21,
}

impl Refusal {
    // The number that a caller outside is given.
    pub fn number(self) -> u8
        ensures { result ≡ number_of self }
    {
        self as u8
    }
}

impl fmt::Display for Refusal {
    fn fmt<W: fmt::Write>(&self, f: &mut fmt::Formatter<W>) -> fmt::Result {
        write!(f, "refused by {}", self.number())
    }
}

impl Error for Refusal {}

// The number of an answer: 0, or the refusal's.
pub fn answer_number<T: Drop>(answer: Result<T, Refusal>) -> u8
    ensures { result ≡ answer_number answer }
{
    match answer {
        Ok(_) => 0,
        Err(r) => r.number(),
    }
}

// Writes the value of an answer to lent memory and returns 0. On refusal, returns its number and changes nothing.
pub fn put<T: Drop>(answer: Result<T, Refusal>, place: &mut T) -> u8
    ensures { (result ≡ answer_number answer) × (place.new ≡ value_after answer place.old) }
{
    match answer {
        Ok(value) => {
            *place = value;
            0
        }
        Err(r) => r.number(),
    }
}
