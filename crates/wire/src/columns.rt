// Carrier records in a caller's columns.
ghost use Rattle.std.specs.Prelude.{◌≡◌, true, ◌*◌, ◌≤◌, length};
ghost use Rattle.lists.specs.Memory.{held, lent};
ghost use Rattle.wire.specs.Record.{records_in};
ghost use Rattle.wire.specs.Columns as spec;
ghost use Rattle.wire.specs.Lent.{columns_of, lent_records};
ghost use Rattle.wire.specs.Steps.{columns_now, HoldsRecord, Filled, Emitted};

use crate::number::{number_at, signed};
use crate::record::{CarrierRecord, pattern_in, put_record};

// Records in columns that a caller lends, of which the first `count` count: six patterns for each, and one number in each other column.
#[derive(Clone, Copy)]
pub struct Columns<'a> {
    pub constellation: &'a [u8],
    pub svid: &'a [u16],
    pub band: &'a [u32],
    pub state: &'a [i32],
    pub floats: &'a [u64],
    pub count: usize,
}

// Checks that there are at most 64 records and that the columns hold them.
pub fn columns_fit(columns: Columns) -> bool
    ensures { result ≡ spec.columns_fit (columns_of columns.entry) columns.entry.count }
{
    let n = columns.count;
    if n > 64 {
        return false;
    }
    (n <= columns.constellation.len())
        & (n <= columns.svid.len())
        & (n <= columns.band.len())
        & (n <= columns.state.len())
        & (6 * n <= columns.floats.len())
}

// Writes the first n records of s into the columns, field by field: a record as a struct goes through memory, where loads wait for its stores.
pub fn fill(
    s: &[u8],
    n: usize,
    constellation: &mut [u8],
    svid: &mut [u16],
    band: &mut [u32],
    state: &mut [i32],
    floats: &mut [u64],
)
    requires n_value { spec.columns_fit (columns_now (held constellation) (held svid) (held band) (held state) (held floats)) n ≡ true }
    requires n_in_bounds { 59 * n ≤ length s.now }
    ensures { Filled (records_in s.now n) (lent_records (lent constellation) (lent svid) (lent band) (lent state) (lent floats)) }
{
    for i in 0..n {
        let from = 59 * i;
        let at = 6 * i;
        let first = number_at(s, from, 1);
        let second = number_at(s, from + 1, 2);
        let third = number_at(s, from + 3, 4);
        let adr = pattern_in(s, from + 7);
        let bits = signed(number_at(s, from + 15, 4));
        let x = pattern_in(s, from + 19);
        let y = pattern_in(s, from + 27);
        let z = pattern_in(s, from + 35);
        let elevation = pattern_in(s, from + 43);
        let rate = pattern_in(s, from + 51);
        constellation[i] = first as u8;
        svid[i] = second as u16;
        band[i] = third as u32;
        state[i] = bits;
        floats[at] = adr;
        floats[at + 1] = x;
        floats[at + 2] = y;
        floats[at + 3] = z;
        floats[at + 4] = elevation;
        floats[at + 5] = rate;
    }
}

// Returns the record at place i of the columns.
fn column_record(columns: Columns, i: usize) -> CarrierRecord
    requires { HoldsRecord (columns_of columns) i }
    ensures { result ≡ spec.column_record (columns_of columns.entry) i }
{
    let at = 6 * i;
    let state = columns.state[i];
    CarrierRecord {
        constellation: columns.constellation[i],
        svid: columns.svid[i],
        band: columns.band[i],
        adr: columns.floats[at],
        state,
        x: columns.floats[at + 1],
        y: columns.floats[at + 2],
        z: columns.floats[at + 3],
        elevation: columns.floats[at + 4],
        rate: columns.floats[at + 5],
    }
}

// Writes the counted records of the columns into out.
pub fn put_records(columns: Columns, out: &mut [u8])
    requires n_value { spec.columns_fit (columns_of columns) columns.count ≡ true }
    requires n_in_bounds { 59 * columns.count ≤ length out.old }
    ensures { Emitted (spec.column_records (columns_of columns.entry) columns.entry.count) (lent out) }
{
    for i in 0..columns.count {
        let r = column_record(columns, i);
        put_record(out, 59 * i, r);
    }
}
