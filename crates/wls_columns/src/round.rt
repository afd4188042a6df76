// One round of a caller's columns.
ghost use Rattle.std.specs.Prelude.{◌≡◌};
ghost use Rattle.wls_columns.specs.Step.{column_step_of, StepAnswers};
ghost use Rattle.wls_columns.specs.Steps.{lent_row_columns};

use crate::bits::patterns;
use crate::columns::LentRows;
use numeric::refusal::{Refusal, put};
use robust::round::step;

// Runs one round over the first `count` rows and returns its step, or the refusal.
pub fn columns_step(
    rows: LentRows,
    count: usize,
    unknowns: usize,
    huber: f64,
) -> Result<[f64; 9], Refusal>
    ensures { result ≡ column_step_of (lent_row_columns rows.entry) count unknowns huber }
{
    if !rows.fit(count) {
        return Err(Refusal::TooMany);
    }
    let mut dx = [0.0; 9];
    step(rows.rows(count), unknowns, huber, &mut dx)?;
    Ok(dx)
}

// Returns 0 and writes the patterns of the step to dx. On refusal, returns its number and changes nothing.
pub fn step_into(answer: Result<[f64; 9], Refusal>, dx: &mut [u64; 9]) -> u8
    ensures { StepAnswers answer result dx.old dx.new }
{
    put(answer.map(patterns), dx)
}
