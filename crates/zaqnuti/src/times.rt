// Entry points of times in whole nanoseconds.
ghost use Rattle.time.specs.Time.{time_of, nanos_since, seconds_since};
ghost use Rattle.lists.specs.Memory.{lent};
ghost use Rattle.zaqnuti.specs.Times.{time_at, TimeAnswers, NanosAnswers, SecondsAnswers};

use numeric::order::pattern;
use numeric::refusal::put;
use time::time::GpsTime;

// Returns 0 and writes the nanoseconds since the start of week 0 to nanos, or returns 13 and leaves nanos unchanged.
#[unsafe(no_mangle)]
pub extern "C" fn zaqnuti_time(week: u32, tow: f64, nanos: &mut u64) -> u8
    ensures { TimeAnswers (time_of week tow) result (lent nanos) }
{
    put(GpsTime::new(week, tow).map(|t| t.nanos), nanos)
}

// Returns 0 and writes the nanoseconds from the time `earlier` to `later` to nanos, or returns 13 and leaves nanos unchanged.
#[unsafe(no_mangle)]
pub extern "C" fn zaqnuti_nanos_since(later: u64, earlier: u64, nanos: &mut i64) -> u8
    ensures { NanosAnswers (nanos_since (time_at later) (time_at earlier)) result (lent nanos) }
{
    let a = GpsTime { nanos: later };
    let b = GpsTime { nanos: earlier };
    put(a.nanos_since(b), nanos)
}

// Returns 0 and writes the seconds from the time `earlier` to `later` to seconds, or returns 13 and leaves seconds unchanged.
#[unsafe(no_mangle)]
pub extern "C" fn zaqnuti_seconds_since(later: u64, earlier: u64, seconds: &mut u64) -> u8
    ensures { SecondsAnswers (seconds_since (time_at later) (time_at earlier)) result (lent seconds) }
{
    let a = GpsTime { nanos: later };
    let b = GpsTime { nanos: earlier };
    put(a.seconds_since(b).map(pattern), seconds)
}
