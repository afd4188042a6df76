// The marked trials of the corrections.
ghost use Rattle.std.specs.Prelude.{◌≡◌, true};
ghost use Rattle.exact.specs.Float.{whole};
ghost use Rattle.corrections_query.specs.Query.{query_in, Answers};
ghost use Rattle.trials.specs.Marked.{two_samples};

use corrections_directory::entry::Table;
use corrections_queries::queries::{OneAnswer, one_query};
use numeric::order::pattern;

// The correction at 15 s of samples (10 s, 1 m), (20 s, 3 m).
fn half_way(gap: f64) -> OneAnswer
    ensures { Answers (query_in 1 2 2 two_samples gap 1 5 1 (whole 15)) result.number 0 result.metres }
{
    let block_constellation = [1u8; 2];
    let block_svid = [5u16; 2];
    let block_band = [1u32; 2];
    let block_first = [0usize; 2];
    let block_samples = [2usize; 2];
    let table_time = [10.0, 20.0];
    let table_metres = [1.0, 3.0];
    let table = Table {
        block_constellation: &block_constellation,
        block_svid: &block_svid,
        block_band: &block_band,
        block_first: &block_first,
        block_samples: &block_samples,
        blocks: 1,
        table_time: &table_time,
        table_metres: &table_metres,
        table_count: 2,
    };
    one_query(table, gap, 1, 5, 1, 15.0, 0)
}

// Gap limit 90: 2 m.
pub fn bridged() -> bool
    ensures { result ≡ true }
{
    let answer = half_way(90.0);
    (answer.number == 0) & (answer.metres == pattern(2.0))
}

// Gap limit 5: 12.
pub fn gap_too_long() -> bool
    ensures { result ≡ true }
{
    let answer = half_way(5.0);
    answer.number == 12
}
