// Many queries of one table, which is tested once.
ghost use Rattle.numeric.specs.Refusal.{answer_number};
ghost use Rattle.std.specs.Prelude.{◌≡◌};
ghost use Rattle.lists.specs.Memory.{lent};
ghost use Rattle.corrections_directory.specs.Table.{float_table};
ghost use Rattle.corrections_query.specs.Query.{lent_query, pattern_after, Answers, GivesFinite};
ghost use Rattle.corrections_queries.specs.Queries.{Replied, asked, places_short};

use corrections_directory::entry::Table;
use corrections_query::query::{answer_of, tested};
use numeric::order::pattern;
use numeric::refusal::{Refusal, put};
use signal::signal::signal_of;

// The answer to one query on lent memory: its number, and the pattern of its correction or the old one.
#[derive(Clone, Copy)]
pub struct OneAnswer {
    pub number: u8,
    pub metres: u64,
}

// Tests whether a lent column is shorter than the count of places.
fn is_short(
    count: usize,
    constellation: &[u8],
    svid: &[u16],
    band: &[u32],
    time: &[f64],
    numbers: &[u8],
    metres: &[u64],
) -> bool
    ensures { result ≡ places_short (asked constellation svid band time count) numbers.now metres.now }
{
    (constellation.len() < count)
        | (svid.len() < count)
        | (band.len() < count)
        | (time.len() < count)
        | (numbers.len() < count)
        | (metres.len() < count)
}

// Answers the first count places of constellation, svid, band and time: at each place its number and, where it is given, its correction; or returns the refusal,
// with numbers and metres unchanged.
pub fn queries(
    table: Table<f64>,
    max_gap: f64,
    constellation: &[u8],
    svid: &[u16],
    band: &[u32],
    time: &[f64],
    count: usize,
    numbers: &mut [u8],
    metres: &mut [u64],
) -> Result<(), Refusal>
    ensures { Replied
        (float_table table.entry) max_gap
        (asked constellation svid band time count) result (lent numbers) (lent metres) }
{
    if is_short(count, constellation, svid, band, time, numbers, metres) {
        return Err(Refusal::TooMany);
    }
    tested(table, max_gap)?;
    for i in 0..count {
        let signal = signal_of(constellation[i], svid[i], band[i]);
        let answer = answer_of(table, max_gap, signal, time[i]);
        numbers[i] = put(answer.map(pattern), &mut metres[i]);
    }
    Ok(())
}

// Answers one query as one place of many, so that the search has one caller and is merged into its loop.
pub fn one_query(
    table: Table<f64>,
    max_gap: f64,
    constellation: u8,
    svid: u16,
    band: u32,
    time: f64,
    old: u64,
) -> OneAnswer
    ensures { Answers (lent_query
        (float_table table.entry) max_gap
        constellation svid band time) result.number old result.metres }
{
    let constellations = [constellation; 1];
    let svids = [svid; 1];
    let bands = [band; 1];
    let times = [time; 1];
    let mut numbers = [0u8; 1];
    let mut metres = [old; 1];
    let answer = queries(
        table,
        max_gap,
        &constellations,
        &svids,
        &bands,
        &times,
        1,
        &mut numbers,
        &mut metres,
    );
    match answer {
        Err(why) => OneAnswer {
            number: why.number(),
            metres: old,
        },
        Ok(()) => OneAnswer {
            number: numbers[0],
            metres: metres[0],
        },
    }
}
