// Entry points for firmware that holds epochs as bytes: carrier records read and written, and the displacement between two slices of them.
ghost use Rattle.lists.specs.Memory.{lent};
ghost use Rattle.wire.specs.Lent.{records_before, lent_records, RecordsRead, RecordsWritten};
ghost use Rattle.wire_tdcp.specs.Displacement as spec;

use numeric::refusal::Refusal;
use numeric::vec3::Vec3;
use tdcp::displacement::Settings;
use wire::columns::{Columns, columns_fit, fill, put_records};
use wire_tdcp::displacement::displacement_records;

// The displacement between two slices of carrier records, with the numbers of line S in its order.
// Returns 0 and writes how many pairs were used and screened out and the displacement in metres to the first 40 bytes of result. On refusal, returns its number and
// changes nothing.
#[unsafe(no_mangle)]
pub extern "C" fn zaqnuti_displacement_records(
    previous: &[u8],
    current: &[u8],
    dt: f64,
    x: f64,
    y: f64,
    z: f64,
    screen: f64,
    sigma_a: f64,
    sigma_b: f64,
    huber: f64,
    mask: f64,
    rounds: u32,
    res: &mut [u8],
) -> u8
    ensures { spec.RecordAnswers
        (spec.handed previous.now current.now dt (spec.vector_of x y z) (spec.line_settings screen sigma_a sigma_b huber mask rounds))
        result res.old res.new }
{
    let receiver = Vec3 { x, y, z };
    let settings = Settings {
        screen,
        sigma_a,
        sigma_b,
        huber,
        mask,
        rounds,
        agreement: 0.0,
    };
    displacement_records(previous, current, dt, receiver, settings, res)
}

// Returns 0 and writes the first count records of the columns to bytes. On refusal, returns 2 and changes nothing.
#[unsafe(no_mangle)]
pub extern "C" fn zaqnuti_write_records(
    constellation: &[u8],
    svid: &[u16],
    band: &[u32],
    state: &[i32],
    floats: &[u64],
    count: usize,
    bytes: &mut [u8],
) -> u8
    ensures { RecordsWritten (records_before constellation svid band state floats) count result (lent bytes) }
{
    let columns = Columns {
        constellation,
        svid,
        band,
        state,
        floats,
        count,
    };
    if !columns_fit(columns) {
        return Refusal::TooMany.number();
    }
    if 59 * count > bytes.len() {
        return Refusal::TooMany.number();
    }
    put_records(columns, bytes);
    0
}

// Returns 0 and writes the records of bytes to the columns and their number to count. On refusal, returns its number and changes nothing: 21 where the length of
// bytes is not a multiple of 59, then 2 where there are more than 64 records or a column is too short.
#[unsafe(no_mangle)]
pub extern "C" fn zaqnuti_read_records(
    bytes: &[u8],
    constellation: &mut [u8],
    svid: &mut [u16],
    band: &mut [u32],
    state: &mut [i32],
    floats: &mut [u64],
    count: &mut usize,
) -> u8
    ensures { RecordsRead bytes result (lent_records (lent constellation) (lent svid) (lent band) (lent state) (lent floats)) (lent count) }
{
    if bytes.len() % 59 != 0 {
        return Refusal::BrokenRecords.number();
    }
    let n = bytes.len() / 59;
    let columns = Columns {
        constellation,
        svid,
        band,
        state,
        floats,
        count: n,
    };
    if !columns_fit(columns) {
        return Refusal::TooMany.number();
    }
    fill(bytes, n, constellation, svid, band, state, floats);
    *count = n;
    0
}
