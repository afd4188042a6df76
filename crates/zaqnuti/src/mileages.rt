// Entry points of a mileage, which the caller holds as ten words: the limit's bits, epochs, refused, set aside, counted millimetres, counted pulses, standing
// millimetres, all pulses, whether the last epoch had a pulse, and the last epoch's millimetres where it stands so far.
ghost use Rattle.lists.specs.Memory.{lent};
ghost use Rattle.mileage.specs.Mileage.{mileage_started};
ghost use Rattle.mileage.specs.Words as spec;

use mileage::mileage::Mileage;
use mileage::words::add_held;
use numeric::refusal::put;

// Starts a mileage in the lent words and returns 0. On refusal, returns 3 and changes nothing.
#[unsafe(no_mangle)]
pub extern "C" fn zaqnuti_mileage_start(limit: f64, mileage: &mut [u64; 10]) -> u8
    ensures { spec.MileageAnswers (mileage_started limit) result (lent mileage) }
{
    put(Mileage::start(limit).map(Into::into), mileage)
}

// Adds an epoch to the mileage in the lent words and returns 0. On refusal, returns 16 and changes nothing.
#[unsafe(no_mangle)]
pub extern "C" fn zaqnuti_mileage_add(
    mileage: &mut [u64; 10],
    refused_by: u8,
    delta: &[f64; 3],
    quality: &[f64; 2],
    pulses: u16,
) -> u8
    ensures { spec.MileageAnswers (spec.mileage_added_words mileage.old (spec.lent_epoch refused_by delta quality pulses)) result (lent mileage) }
{
    let step = add_held(mileage, refused_by, delta, quality, pulses);
    put(step.map(Into::into), mileage)
}

// Writes epochs, refused, set aside, counted millimetres, counted pulses, standing millimetres and all pulses to `report` and returns 0. On refusal, returns 16
// and changes nothing.
#[unsafe(no_mangle)]
pub extern "C" fn zaqnuti_mileage_report(mileage: &[u64; 10], report: &mut [u64; 7]) -> u8
    ensures { spec.MileageReportAnswers (spec.mileage_reported_words mileage.now) result (lent report) }
{
    put(Mileage::from(*mileage).report().map(Into::into), report)
}

// Writes the distance in millimetres to the lent number and returns 0. On refusal, returns 16 or 17 and changes nothing.
#[unsafe(no_mangle)]
pub extern "C" fn zaqnuti_mileage_distance(mileage: &[u64; 10], millimetres: &mut u64) -> u8
    ensures { spec.DistanceAnswers (spec.distance_words mileage.now) result (lent millimetres) }
{
    put(Mileage::from(*mileage).distance(), millimetres)
}

// Writes the millilitres for a kilometre to the lent number and returns 0. On refusal, returns 16 or 17 and changes nothing.
#[unsafe(no_mangle)]
pub extern "C" fn zaqnuti_mileage_fuel(
    mileage: &[u64; 10],
    millilitres: u32,
    per_km: &mut u64,
) -> u8
    ensures { spec.MileageFuelAnswers (spec.mileage_fuelled_words mileage.now millilitres) result (lent per_km) }
{
    put(Mileage::from(*mileage).fuel(millilitres), per_km)
}
