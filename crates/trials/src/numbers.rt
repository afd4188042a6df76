// The marked trials of the root and the factor.
ghost use Rattle.std.specs.Prelude.{◌≡◌, true, false};
ghost use Rattle.trials.specs.Marked as marked;

use cholesky::factor::factor;
use numeric::order::{float, pattern};
use root::sqrt::sqrt;

// Root of 4 is 2.
pub fn root_of_four() -> bool
    ensures { result ≡ true }
{
    sqrt(4.0) == 2.0
}

// Root of 2 has bits 3FF6A09E667F3BCD.
pub fn root_of_two() -> bool
    ensures { result ≡ true }
{
    pattern(sqrt(2.0)) == 0x3FF6_A09E_667F_3BCD
}

// Root of 2^-1074 is 2^-537.
pub fn root_of_least() -> bool
    ensures { result ≡ true }
{
    pattern(sqrt(float(1))) == 0x1E60_0000_0000_0000
}

fn identity() -> [[f64; 9]; 9]
    ensures { result ≡ marked.identity }
{
    [
        [1.0, 0.0, 0.0, 0.0, 0.0, 0.0, 0.0, 0.0, 0.0],
        [0.0, 1.0, 0.0, 0.0, 0.0, 0.0, 0.0, 0.0, 0.0],
        [0.0, 0.0, 1.0, 0.0, 0.0, 0.0, 0.0, 0.0, 0.0],
        [0.0, 0.0, 0.0, 1.0, 0.0, 0.0, 0.0, 0.0, 0.0],
        [0.0, 0.0, 0.0, 0.0, 1.0, 0.0, 0.0, 0.0, 0.0],
        [0.0, 0.0, 0.0, 0.0, 0.0, 1.0, 0.0, 0.0, 0.0],
        [0.0, 0.0, 0.0, 0.0, 0.0, 0.0, 1.0, 0.0, 0.0],
        [0.0, 0.0, 0.0, 0.0, 0.0, 0.0, 0.0, 1.0, 0.0],
        [0.0, 0.0, 0.0, 0.0, 0.0, 0.0, 0.0, 0.0, 1.0],
    ]
}

// Checks whether the patterns of some cell differ between the two matrices. Equal matrices never differ.
fn differ(a: [[f64; 9]; 9], b: [[f64; 9]; 9]) -> bool
    ensures { a ≡ b → result ≡ false }
{
    let mut found = false;
    for i in 0..9 {
        for j in 0..9 {
            let x = a[i][j];
            let y = b[i][j];
            found = found | (pattern(x) != pattern(y));
        }
    }
    found
}

// Checks that the identity factors to itself.
pub fn identity_factors() -> bool
    ensures { result ≡ true }
{
    let a = identity();
    let mut l = [[0.0; 9]; 9];
    let answer = factor(a, &mut l);
    match answer {
        Ok(()) => !differ(a, l),
        Err(_) => false,
    }
}

// Checks that a zero first pivot is refused by 10 and that the lent rows are unchanged.
pub fn zero_pivot_refused() -> bool
    ensures { result ≡ true }
{
    let mut a = identity();
    a[0][0] = 0.0;
    let before = identity();
    let mut l = before;
    let answer = factor(a, &mut l);
    match answer {
        Ok(()) => false,
        Err(r) => (r.number() == 10) & !differ(before, l),
    }
}
