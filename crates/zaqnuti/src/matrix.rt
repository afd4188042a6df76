// Entry points of the Cholesky factor and its solve.
ghost use Rattle.numeric.specs.Refusal.{answer_number};
ghost use Rattle.std.specs.Prelude.{◌≡◌, map};
ghost use Rattle.numeric.specs.Order.{pattern_of};
ghost use Rattle.cholesky.specs.Factor.{factor_of, solution_of};
ghost use Rattle.cholesky.specs.Answer.{factoring_of};
ghost use Rattle.wls_columns.specs.Bits.{patterns_after};

use cholesky::factor::solve_into;
use numeric::refusal::answer_number;
use wls_columns::bits::{factor_patterns, patterns};

// Returns 0 and writes the patterns of the factor of a to `l`. On refusal, returns 10 and changes nothing.
#[unsafe(no_mangle)]
pub extern "C" fn zaqnuti_factor(a: &[[f64; 9]; 9], l: &mut [[u64; 9]; 9]) -> u8
    ensures { let f = factor_of a.now in (result ≡ answer_number (factoring_of f)) × (l.new ≡ patterns_after f l.old) }
{
    answer_number(factor_patterns(a, l))
}

// Writes the patterns of the solution of l lᵀ x = b to x: of a NaN 7FF8000000000000.
#[unsafe(no_mangle)]
pub extern "C" fn zaqnuti_solve(l: &[[f64; 9]; 9], b: &[f64; 9], x: &mut [u64; 9])
    ensures { x.new ≡ map pattern_of (solution_of l.now b.now) }
{
    let mut y = *b;
    solve_into(l, &mut y);
    *x = patterns(y);
}
