// The displacement between two epochs of byte records.
ghost use Rattle.std.specs.Prelude.{◌≡◌, ◌*◌, ◌≤◌, length};
ghost use Rattle.records.specs.Steps.{Laid};
ghost use Rattle.tdcp.specs.Displacement.{Promised};
ghost use Rattle.wire.specs.Record.{count_in};
ghost use Rattle.wire_tdcp.specs.Displacement as spec;

use numeric::order::float;
use numeric::refusal::Refusal;
use numeric::vec3::Vec3;
use records::arrays::CarrierArrays;
use records::pair::Profile;
use records::record::Carrier;
use tdcp::displacement::{Delta, Interval, Settings, displaced};
use wire::record::{CarrierRecord, put_five, record_of};

// Returns the carrier of a record.
fn carrier_of(r: CarrierRecord) -> Carrier
    ensures { result ≡ spec.record_carrier r }
{
    let adr = float(r.adr);
    let x = float(r.x);
    let y = float(r.y);
    let z = float(r.z);
    let elevation = float(r.elevation);
    let rate = float(r.rate);
    let satellite = Vec3 { x, y, z };
    let bits = r.state;
    Carrier {
        constellation: r.constellation,
        svid: r.svid,
        band: r.band,
        adr,
        state: bits,
        satellite,
        elevation,
        rate,
    }
}

// Writes the carriers of the first n records of s.
fn put_records(s: &[u8], n: usize, arrays: &mut CarrierArrays)
    requires few { (n ≤ 64) × (59 * n ≤ length s.now) }
    requires room { (length arrays.old.signals ≡ 64) × (length arrays.old.states ≡ 64) × (length arrays.old.floats ≡ 384) }
    ensures { Laid (spec.record_carriers s.now n) n arrays.new.signals arrays.new.states arrays.new.floats }
{
    for i in 0..n {
        let r = record_of(s, 59 * i);
        let c = carrier_of(r);
        arrays.put(i, c);
    }
}

// Returns the displacement between two slices of at most 64 records.
fn displacement_of(
    previous: &[u8],
    current: &[u8],
    dt: f64,
    receiver: Vec3,
    settings: Settings,
) -> Result<Delta, Refusal>
    requires { (count_in previous.now ≤ 64) × (count_in current.now ≤ 64) }
    ensures { Promised (spec.record_input (spec.handed previous.now current.now dt receiver settings)) result }
{
    let m = previous.len() / 59;
    let n = current.len() / 59;
    let mut then = CarrierArrays::new();
    put_records(previous, m, &mut then);
    let mut now = CarrierArrays::new();
    put_records(current, n, &mut now);
    displaced(
        then.first(m),
        now.first(n),
        Interval::Seconds(dt),
        receiver,
        settings,
        Profile::General,
        false,
    )
    .map(|d| d.moved)
}

// Returns 0 and writes how many pairs were used and screened out and the displacement in metres to the first 40 bytes of `result`. On refusal, returns its number and
// changes nothing.
pub fn displacement_records(
    previous: &[u8],
    current: &[u8],
    dt: f64,
    receiver: Vec3,
    settings: Settings,
    res: &mut [u8],
) -> u8
    ensures { spec.RecordAnswers (spec.handed previous.now current.now dt receiver settings)
        result res.old res.new }
{
    if previous.len() % 59 != 0 {
        return Refusal::BrokenRecords.number();
    }
    if current.len() % 59 != 0 {
        return Refusal::BrokenRecords.number();
    }
    if previous.len() / 59 > 64 {
        return Refusal::TooMany.number();
    }
    if current.len() / 59 > 64 {
        return Refusal::TooMany.number();
    }
    if res.len() < 40 {
        return Refusal::TooMany.number();
    }
    match displacement_of(previous, current, dt, receiver, settings) {
        Ok(d) => {
            let [x, y, z] = d.delta.patterns();
            put_five(res, 0, d.used as u64, d.screened as u64, x, y, z);
            0
        }
        Err(r) => r.number(),
    }
}
