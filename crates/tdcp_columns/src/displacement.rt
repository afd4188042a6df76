// Displacements of two epochs' columns: refused by 2 where they do not fit, otherwise that of their signals, states and floats.
ghost use Rattle.std.specs.Prelude.{◌≡◌, length};
ghost use Rattle.records.specs.Carriers.{epoch_fits};
ghost use Rattle.records.specs.Lent.{epoch_columns, lent_vector};
ghost use Rattle.tdcp_columns.specs.Displacement as spec;
ghost use Rattle.tdcp_columns.specs.Steps.{FitInto, ColumnsPromised};

use crate::settings::displacement_settings;
use numeric::refusal::Refusal;
use numeric::vec3::Vec3;
use records::carriers::Carriers;
use records::columns::{EpochColumns, signals_into};
use records::pair::Profile;
use tdcp::displacement::{Interval, RatedDelta, displaced};

// Checks that there are at most 64 carriers and that the columns hold them.
fn epoch_fits(columns: EpochColumns) -> bool
    ensures { result ≡ epoch_fits (epoch_columns columns.entry) columns.entry.count }
{
    let n = columns.count;
    if n > 64 {
        return false;
    }
    (n <= columns.constellation.len())
        & (n <= columns.svid.len())
        & (n <= columns.band.len())
        & (n <= columns.state.len())
        & (6 * n <= columns.floats.len())
}

// Checks that the epoch fits, and writes its signals.
fn fit_into(columns: EpochColumns, signals: &mut [u64; 64]) -> bool
    requires { length signals.old ≡ 64 }
    ensures { FitInto (epoch_columns columns.entry) columns.entry.count result signals.new }
{
    if !epoch_fits(columns) {
        return false;
    }
    signals_into(columns, signals);
    true
}

// Returns the displacement between two epochs, with the figures of its fit on request. States and floats are read in place.
pub fn columns_displaced(
    previous: EpochColumns,
    current: EpochColumns,
    since: Interval,
    receiver: &[f64; 3],
    settings: &[f64; 5],
    rounds: usize,
    profile: Profile,
    wanted: bool,
) -> Result<RatedDelta, Refusal>
    ensures { ColumnsPromised wanted (spec.lent
        (epoch_columns previous.entry) previous.entry.count (epoch_columns current.entry) current.entry.count
        since (lent_vector receiver) (spec.lent_settings settings rounds) profile) result }
{
    let mut previous_signals = [0u64; 64];
    if !fit_into(previous, &mut previous_signals) {
        return Err(Refusal::TooMany);
    }
    let mut current_signals = [0u64; 64];
    if !fit_into(current, &mut current_signals) {
        return Err(Refusal::TooMany);
    }
    let then = Carriers {
        signals: &previous_signals[..previous.count],
        states: previous.state,
        floats: previous.floats,
    };
    let now = Carriers {
        signals: &current_signals[..current.count],
        states: current.state,
        floats: current.floats,
    };
    let at = Vec3::from(*receiver);
    let s = displacement_settings(settings, rounds);
    displaced(then, now, since, at, s, profile, wanted)
}
