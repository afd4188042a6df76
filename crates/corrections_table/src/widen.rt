// An old table's column of bands, of 8 bits each, as the column of 32 bits that a table has now.
ghost use Rattle.std.specs.Prelude.{◌≡◌, ◌≤◌, length};
ghost use Rattle.corrections_table.specs.Widen.{widened, widen_of, bands_after};

use numeric::refusal::Refusal;

// Writes the first n bands.
fn widen_all(narrow: &[u8], n: usize, wide: &mut [u32])
    requires { (n ≤ length narrow.now) × (n ≤ length wide.old) }
    ensures { wide.new ≡ widened n narrow.now wide.old }
{
    for i in 0..n {
        wide[i] = narrow[i] as u32;
    }
}

// Writes the first n bands of narrow to the front of wide. On refusal, returns it and changes nothing.
pub fn widen_bands(narrow: &[u8], n: usize, wide: &mut [u32]) -> Result<(), Refusal>
    ensures { let old = narrow.now in
        (result ≡ widen_of n old wide.old) × (wide.new ≡ bands_after result n old wide.old) }
{
    if (2048 < n) | (narrow.len() < n) | (wide.len() < n) {
        return Err(Refusal::TooMany);
    }
    widen_all(narrow, n, wide);
    Ok(())
}
