// One line of the form.
ghost use Rattle.std.specs.Prelude.{◌≡◌, ◌≤◌, length};
ghost use Rattle.line_form.specs.Line.{letter, is_vector, vector_in, carrier_form, carrier, settings_form, is_settings, given_in, line_of};
ghost use Rattle.line_form.specs.Steps.{formed, Parted};

use crate::field::{float_of, number_of, state_of};
use crate::split::{field_at, fields_of};
use numeric::vec3::Vec3;
use records::record::Carrier;
use tdcp::displacement::Settings;

// The values of the first line.
#[derive(Clone, Copy)]
pub(crate) struct Given {
    pub dt: f64,
    pub receiver: Vec3,
    pub settings: Settings,
}

// A line after the first.
#[derive(Clone, Copy)]
pub(crate) enum Line {
    Previous(Carrier),
    Current(Carrier),
    Broken,
}

// Returns the byte of a field of one byte, and 0 for any other field.
fn letter_of(s: &[u8]) -> u8
    ensures { result ≡ letter s.now }
{
    if s.len() == 1 { s[0] } else { 0 }
}

// Reads three floats, from field k on.
#[tactic(auto, unfolding(crate::specs::Line::is_vector, crate::specs::Line::vector_in))]
fn place_of(line: &[u8], from: [usize; 12], k: usize) -> Option<Vec3>
    requires parted { Parted line.now from }
    requires k_bound { k ≤ 8 }
    ensures { result ≡ formed (is_vector line.now k) (vector_in line.now k) }
{
    let x = float_of(field_at(line, from, k))?;
    let y = float_of(field_at(line, from, k + 1))?;
    let z = float_of(field_at(line, from, k + 2))?;
    Some(Vec3 { x, y, z })
}

// Reads the ten fields of a carrier.
#[tactic(auto, unfolding(crate::specs::Line::carrier_form, crate::specs::Line::carrier))]
fn carrier_of(line: &[u8], from: [usize; 12]) -> Option<Carrier>
    requires { Parted line.now from }
    ensures { result ≡ formed (carrier_form line.now) (carrier line.now) }
{
    let constellation = number_of(field_at(line, from, 1), 256)?;
    let svid = number_of(field_at(line, from, 2), 65536)?;
    let band = number_of(field_at(line, from, 3), 4294967296)?;
    let adr = float_of(field_at(line, from, 4))?;
    let state = state_of(field_at(line, from, 5))?;
    let satellite = place_of(line, from, 6)?;
    let elevation = float_of(field_at(line, from, 9))?;
    let rate = float_of(field_at(line, from, 10))?;
    Some(Carrier {
        constellation: constellation as u8,
        svid: svid as u16,
        band: band as u32,
        adr,
        state,
        satellite,
        elevation,
        rate,
    })
}

#[tactic(auto, unfolding(crate::specs::Line::line_of))]
pub(crate) fn line_of(line: &[u8]) -> Line
    requires { length line.now ≤ 32768 }
    ensures { result ≡ line_of line.now }
{
    let Some(from) = fields_of(line) else {
        return Line::Broken;
    };
    let Some(carrier) = carrier_of(line, from) else {
        return Line::Broken;
    };
    match letter_of(field_at(line, from, 0)) {
        b'P' => Line::Previous(carrier),
        b'C' => Line::Current(carrier),
        _ => Line::Broken,
    }
}

// Reads the ten fields of the first line.
#[tactic(auto, unfolding(crate::specs::Line::settings_form, crate::specs::Line::given_in))]
fn given_of(line: &[u8], from: [usize; 12]) -> Option<Given>
    requires { Parted line.now from }
    ensures { result ≡ formed (settings_form line.now) (given_in line.now) }
{
    let dt = float_of(field_at(line, from, 1))?;
    let receiver = place_of(line, from, 2)?;
    let screen = float_of(field_at(line, from, 5))?;
    let sigma_a = float_of(field_at(line, from, 6))?;
    let sigma_b = float_of(field_at(line, from, 7))?;
    let huber = float_of(field_at(line, from, 8))?;
    let mask = float_of(field_at(line, from, 9))?;
    let rounds = number_of(field_at(line, from, 10), 4294967296)?;
    let settings = Settings {
        screen,
        sigma_a,
        sigma_b,
        huber,
        mask,
        rounds: rounds as u32,
        agreement: 0.0,
    };
    Some(Given {
        dt,
        receiver,
        settings,
    })
}

// Reads the first line.
#[tactic(auto, unfolding(crate::specs::Line::is_settings))]
pub(crate) fn first_of(line: &[u8]) -> Option<Given>
    requires { length line.now ≤ 32768 }
    ensures { result ≡ formed (is_settings line.now) (given_in line.now) }
{
    let from = fields_of(line)?;
    if letter_of(field_at(line, from, 0)) != b'S' {
        return None;
    }
    given_of(line, from)
}
