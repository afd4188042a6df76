// Numbers as bytes, the least significant byte first.
ghost use Rattle.std.specs.Prelude.{◌≡◌, ◌+◌, ◌≤◌, ◌<◌, ◌^◌, length};
ghost use Rattle.std.proofs.lemmas.List.Edits.{sets};
ghost use Rattle.records.specs.Record.{unsigned};
ghost use Rattle.wire.specs.Number as spec;

// Returns the number of the w bytes from place `at` on, starting with the most significant byte, which is the last.
pub(crate) fn number_at(s: &[u8], at: usize, w: usize) -> u64
    requires { (w ≤ 8) × (at + w ≤ length s.now) }
    ensures { (result ≡ spec.number_at s.now at w) × (result < 256 ^ w) }
{
    let mut n: u64 = 0;
    for i in 0..w {
        let k = w - 1 - i;
        n = n * 256 + s[at + k] as u64;
    }
    n
}

// Writes the w bytes of n from place `at` on.
pub(crate) fn put_number(out: &mut [u8], at: usize, w: usize, n: u64)
    requires { at + w ≤ length out.old }
    ensures { out.new ≡ sets out.old at (spec.bytes_in w n) }
{
    let mut rest = n;
    for i in 0..w {
        out[at + i] = (rest % 256) as u8;
        rest /= 256;
    }
}

// Returns 32 bits as a signed number.
pub(crate) fn signed(n: u64) -> i32
    requires { n < 2 ^ 32 }
    ensures { result ≡ spec.signed n }
{
    (n as u32).cast_signed()
}

// Returns the 32 bits of a signed number.
pub(crate) fn unsigned(z: i32) -> u64
    ensures { result ≡ unsigned z }
{
    z.cast_unsigned() as u64
}
