// One carrier record of 59 bytes.
ghost use Rattle.std.specs.Prelude.{◌≡◌, ◌+◌, ◌≤◌, length, drop};
ghost use Rattle.std.proofs.lemmas.List.Edits.{sets};
ghost use Rattle.wire.specs.Number.{five_bytes, number_at};
ghost use Rattle.wire.specs.Record as spec;

use crate::number::{number_at, put_number, signed, unsigned};

// A carrier record, with each float as its 64 bits.
#[derive(Clone, Copy)]
pub struct CarrierRecord {
    pub constellation: u8,
    pub svid: u16,
    pub band: u32,
    pub adr: u64,
    pub state: i32,
    pub x: u64,
    pub y: u64,
    pub z: u64,
    pub elevation: u64,
    pub rate: u64,
}

// The 64 bits of a float, a NaN's sign and payload with them.
pub(crate) fn pattern_in(s: &[u8], at: usize) -> u64
    requires { at + 8 ≤ length s.now }
    ensures { result ≡ number_at s.now at 8 }
{
    number_at(s, at, 8)
}

// Returns the record of the 59 bytes from place `at` on.
pub fn record_of(s: &[u8], at: usize) -> CarrierRecord
    requires { at + 59 ≤ length s.now }
    ensures { result ≡ spec.record_of (drop at s.now) }
{
    let constellation = number_at(s, at, 1);
    let svid = number_at(s, at + 1, 2);
    let band = number_at(s, at + 3, 4);
    let adr = pattern_in(s, at + 7);
    let state = signed(number_at(s, at + 15, 4));
    let x = pattern_in(s, at + 19);
    let y = pattern_in(s, at + 27);
    let z = pattern_in(s, at + 35);
    let elevation = pattern_in(s, at + 43);
    let rate = pattern_in(s, at + 51);
    CarrierRecord {
        constellation: constellation as u8,
        svid: svid as u16,
        band: band as u32,
        adr: adr,
        state: state,
        x: x,
        y: y,
        z: z,
        elevation: elevation,
        rate: rate,
    }
}

// Writes the first 19 bytes of a record, its state by its 32 bits, from place `at` on.
fn put_front(
    out: &mut [u8],
    at: usize,
    constellation: u8,
    svid: u16,
    band: u32,
    adr: u64,
    state: u64,
)
    requires { at + 19 ≤ length out.old }
    ensures { out.new ≡ sets out.old at (spec.front_bytes constellation svid band adr state) }
{
    put_number(out, at, 1, constellation as u64);
    put_number(out, at + 1, 2, svid as u64);
    put_number(out, at + 3, 4, band as u64);
    put_number(out, at + 7, 8, adr);
    put_number(out, at + 15, 4, state);
}

// Writes five numbers of 8 bytes each from place `at` on.
pub fn put_five(out: &mut [u8], at: usize, a: u64, b: u64, c: u64, d: u64, e: u64)
    requires { at + 40 ≤ length out.old }
    ensures { out.new ≡ sets out.old at (five_bytes a b c d e) }
{
    put_number(out, at, 8, a);
    put_number(out, at + 8, 8, b);
    put_number(out, at + 16, 8, c);
    put_number(out, at + 24, 8, d);
    put_number(out, at + 32, 8, e);
}

// Writes the 59 bytes of a record from place `at` on.
pub(crate) fn put_record(out: &mut [u8], at: usize, r: CarrierRecord)
    requires { at + 59 ≤ length out.old }
    ensures { out.new ≡ sets out.old at (spec.bytes_of r) }
{
    let state = unsigned(r.state);
    put_front(out, at, r.constellation, r.svid, r.band, r.adr, state);
    put_five(out, at + 19, r.x, r.y, r.z, r.elevation, r.rate);
}
