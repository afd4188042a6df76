// The answer as a line.
ghost use Rattle.std.specs.Prelude.{◌≡◌, [], ◌∷◌, ◌++◌, ◌+◌, ◌≤◌, ◌<◌, length};
ghost use Rattle.line_form.specs.Print.{glyph, digits_text, digit_count, decimal_text, hex_text, answer_text};
ghost use Rattle.line_form.specs.Steps.{Numbers, Printable, vector_text, overwritten, PutBytes};

use numeric::refusal::Refusal;
use numeric::vec3::Vec3;
use tdcp::displacement::Delta;

fn glyph_of(d: u64) -> u8
    requires { d < 16 }
    ensures { result ≡ glyph d }
{
    if d < 10 {
        b'0' + d as u8
    } else {
        b'A' - 10 + d as u8
    }
}

// Writes the last k digits of n.
fn spell(out: &mut [u8], at: usize, k: usize, base: u64, n: u64)
    requires base_nonzero { 0 < base }
    requires base_bound { base ≤ 16 }
    requires k_in_bounds { at + k ≤ length out.old }
    ensures { out.new ≡ overwritten out.old at (digits_text base k n) }
{
    let mut i = k;
    let mut rest = n;
    while i > 0 {
        i -= 1;
        out[at + i] = glyph_of(rest % base);
        rest /= base;
    }
}

// Returns the number of decimal digits of n.
fn places_of(n: u64) -> usize
    ensures value { result ≡ digit_count 20 n }
    ensures upper_bound { result ≤ 21 }
{
    let mut j: usize = 0;
    let mut rest = n;
    while rest >= 10 {
        rest /= 10;
        j += 1;
    }
    j + 1
}

// Writes a number in decimal and one more byte, and returns the next place.
fn put_decimal(out: &mut [u8], at: usize, n: u64, end: u8) -> usize
    requires { at + 22 ≤ length out.old }
    ensures put_bytes { PutBytes out.old out.new at (decimal_text n ++ (end ∷ [])) result }
    ensures upper_bound { result ≤ at + 22 }
{
    let k = places_of(n);
    spell(out, at, k, 10, n);
    out[at + k] = end;
    at + k + 1
}

// Writes 64 bits in hexadecimal and one more byte, and returns the next place.
fn put_hex(out: &mut [u8], at: usize, p: u64, end: u8) -> usize
    requires { at + 17 ≤ length out.old }
    ensures put_bytes { PutBytes out.old out.new at (hex_text p ++ (end ∷ [])) result }
    ensures upper_bound { result ≤ at + 17 }
{
    spell(out, at, 16, 16, p);
    out[at + 16] = end;
    at + 17
}

// Writes a letter and a comma at the start, and returns the next place.
fn put_letter(out: &mut [u8], b: u8) -> usize
    requires { 2 ≤ length out.old }
    ensures put_bytes { PutBytes out.old out.new 0 (b ∷ 44 ∷ []) result }
    ensures upper_bound { result ≤ 2 }
{
    out[0] = b;
    out[1] = b',';
    2
}

// Writes the last three fields of the line, and returns its length.
fn put_vector(out: &mut [u8], at: usize, v: Vec3) -> usize
    requires at_in_bounds { at + 51 ≤ length out.old }
    requires numbers { Numbers v }
    ensures { PutBytes out.old out.new at (vector_text v) result }
{
    let a = put_hex(out, at, f64::to_bits(v.x), b',');
    let b = put_hex(out, a, f64::to_bits(v.y), b',');
    put_hex(out, b, f64::to_bits(v.z), b'\n')
}

// Writes the whole line, and returns its length.
pub(crate) fn print_to(out: &mut [u8], d: Result<Delta, Refusal>) -> usize
    requires in_bounds { 128 ≤ length out.old }
    requires printable { Printable d }
    ensures { PutBytes out.old out.new 0 (answer_text d) result }
{
    match d {
        Err(r) => {
            let number = r.number();
            let a = put_letter(out, b'R');
            put_decimal(out, a, number as u64, b'\n')
        }
        Ok(m) => {
            let v = m.delta;
            let a = put_letter(out, b'A');
            let b = put_decimal(out, a, m.used as u64, b',');
            let c = put_decimal(out, b, m.screened as u64, b',');
            put_vector(out, c, v)
        }
    }
}
