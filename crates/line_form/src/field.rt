// The fields of a line: numbers in decimal, and floats as sixteen hexadecimal digits.
ghost use Rattle.std.specs.Prelude.{◌≡◌, true, ◌≤◌, ◌<◌, ◌^◌, pos, neg_ℤ};
ghost use Rattle.line_form.specs.Field.{plain, is_hex_digit, hex_value, is_state, state, is_float, pattern_in, float_in};
ghost use Rattle.line_form.specs.Steps.{formed, ReadsNumber};

use numeric::order::float;

// Checks that a field is not empty and has no leading zero.
fn is_plain(s: &[u8]) -> bool
    ensures { result ≡ plain s.now }
{
    match s {
        [] => false,
        [_] => true,
        [first, ..] => *first != b'0',
    }
}

// Reads a decimal number below the limit.
pub(crate) fn number_of(s: &[u8], limit: u64) -> Option<u64>
    requires limit_nonzero { 0 < limit }
    requires limit_bound { limit ≤ 2 ^ 32 }
    ensures { ReadsNumber limit s.now result }
{
    if !is_plain(s) {
        return None;
    }
    let mut n: u64 = 0;
    for &b in s {
        if !b.is_ascii_digit() {
            return None;
        }
        n = n * 10 + ((b - b'0') as u64);
        if n >= limit {
            return None;
        }
    }
    Some(n)
}

// Returns -n.
fn negated(n: u64) -> i32
    requires { n ≤ 2 ^ 31 }
    ensures { result ≡ neg_ℤ (pos n) }
{
    (-(n as i64)) as i32
}

// Reads a signed number of 32 bits.
#[tactic(auto, unfolding(crate::specs::Field::is_state, crate::specs::Field::state))]
pub(crate) fn state_of(s: &[u8]) -> Option<i32>
    ensures { result ≡ formed (is_state s.now) (state s.now) }
{
    if s.len() == 0 {
        return None;
    }
    if s[0] == b'-' {
        let n = number_of(&s[1..], 2147483649)?;
        if n == 0 {
            return None;
        }
        return Some(negated(n));
    }
    let n = number_of(s, 2147483648)?;
    Some(n as i32)
}

fn is_hex_digit(b: u8) -> bool
    ensures { result ≡ is_hex_digit b }
{
    ((b'0' <= b) & (b <= b'9')) | ((b'A' <= b) & (b <= b'F'))
}

fn hex_value(b: u8) -> u64
    requires { is_hex_digit b ≡ true }
    ensures { result ≡ hex_value b }
{
    if b <= b'9' {
        (b - b'0') as u64
    } else {
        (b - b'A' + 10) as u64
    }
}

// Reads sixteen hexadecimal digits.
pub(crate) fn pattern_of(s: &[u8]) -> Option<u64>
    ensures { result ≡ formed (is_float s.now) (pattern_in s.now) }
{
    if s.len() != 16 {
        return None;
    }
    let mut n: u64 = 0;
    for &b in s {
        if !is_hex_digit(b) {
            return None;
        }
        n = n * 16 + hex_value(b);
    }
    Some(n)
}

// Reads a float by its pattern.
pub(crate) fn float_of(s: &[u8]) -> Option<f64>
    ensures { result ≡ formed (is_float s.now) (float_in s.now) }
{
    let p = pattern_of(s)?;
    Some(float(p))
}
