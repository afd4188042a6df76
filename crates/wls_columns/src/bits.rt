// The patterns of a factor and of a column, for memory that a caller lends as doubles.
ghost use Rattle.std.specs.Prelude.{◌≡◌, map, ◌<◌};
ghost use Rattle.numeric.specs.Order.{pattern_of};
ghost use Rattle.cholesky.specs.Factor.{row, factor_of};
ghost use Rattle.cholesky.specs.Answer.{factoring_of};
ghost use Rattle.wls_columns.specs.Bits.{patterns_after};
ghost use Rattle.wls_columns.specs.Steps.{FiniteSquare};

use cholesky::factor::factor_used;
use numeric::order::pattern;
use numeric::refusal::Refusal;

// Returns the patterns of nine floats: of a NaN 7FF8000000000000. Without a loop the array stays in registers.
pub fn patterns(x: [f64; 9]) -> [u64; 9]
    ensures { result ≡ map pattern_of x }
{
    let a = pattern(x[0]);
    let b = pattern(x[1]);
    let c = pattern(x[2]);
    let d = pattern(x[3]);
    let e = pattern(x[4]);
    let f = pattern(x[5]);
    let g = pattern(x[6]);
    let h = pattern(x[7]);
    let k = pattern(x[8]);
    [a, b, c, d, e, f, g, h, k]
}

// Returns the bits of row i of a matrix whose cells are finite: there is no NaN to test for.
fn row_bits(i: usize, m: &[[f64; 9]; 9]) -> [u64; 9]
    requires { (i < 9) × FiniteSquare m.now }
    ensures { result ≡ map pattern_of (row m.now i) }
{
    let a = f64::to_bits(m[i][0]);
    let b = f64::to_bits(m[i][1]);
    let c = f64::to_bits(m[i][2]);
    let d = f64::to_bits(m[i][3]);
    let e = f64::to_bits(m[i][4]);
    let f = f64::to_bits(m[i][5]);
    let g = f64::to_bits(m[i][6]);
    let h = f64::to_bits(m[i][7]);
    let k = f64::to_bits(m[i][8]);
    [a, b, c, d, e, f, g, h, k]
}

// Writes the patterns of the factor of a to l, or refuses and leaves l unchanged. Only the lower triangle of a is read. An accepted factor is finite.
pub fn factor_patterns(a: &[[f64; 9]; 9], l: &mut [[u64; 9]; 9]) -> Result<(), Refusal>
    ensures { let f = factor_of a.now in (result ≡ factoring_of f) × (l.new ≡ patterns_after f l.old) }
{
    let mut m = [[0.0; 9]; 9];
    if factor_used(9, a, &mut m) {
        *l = [
            row_bits(0, &m),
            row_bits(1, &m),
            row_bits(2, &m),
            row_bits(3, &m),
            row_bits(4, &m),
            row_bits(5, &m),
            row_bits(6, &m),
            row_bits(7, &m),
            row_bits(8, &m),
        ];
        Ok(())
    } else {
        Err(Refusal::FitFailed)
    }
}
