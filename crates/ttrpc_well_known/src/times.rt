//! Moments and spans of time, from and to those of std, which are never negative: a moment before 1970 is out of range.
ghost use Rattle.std.specs.Prelude.{◌≡◌, ◌+◌, ◌*◌, ◌<◌, ◌≤◌, ◌^◌, ℕ, IfOk, IfErr, IsErr};
ghost use Rattle.std.specs.Duration.{as_nanos};
ghost use Rattle.std.specs.Time.{system_time_nanos};
ghost use Rattle.ttrpc_well_known.specs.Times.{AreNanos, IsMoment, IsSpan, billion, last_second, longest_span};

use crate::messages::{Duration, Timestamp};
use std::time::{self, SystemTime};

/// A time that the other type can't represent.
#[derive(Debug, Clone, Copy, PartialEq, Eq)]
pub struct OutOfRange {}

/// The last second of the year 9999, from the beginning of 1970.
const LAST_SECOND: u64 = 253_402_300_799;

/// The seconds of some 10,000 years.
const LONGEST_SPAN: u64 = 315_576_000_000;

impl Timestamp {
    /// Returns the moment as a `Timestamp`. A moment after the year 9999 is out of range.
    pub fn from_system_time(time: SystemTime) -> Result<Timestamp, OutOfRange>
        ensures ok { IfOk result (λ t. IsMoment t (system_time_nanos time)) }
        ensures err { IfErr result (λ _. (last_second + 1) * billion ≤ system_time_nanos time) }
    {
        match time.duration_since(SystemTime::UNIX_EPOCH) {
            Ok(span) => {
                let (seconds, nanos) = parts(span, LAST_SECOND)?;
                Ok(Timestamp { seconds, nanos })
            }
            Err(_) => Err(OutOfRange {}),
        }
    }

    /// Returns the moment as std's. A moment before 1970 or after the year 9999 is out of range, and so are nanoseconds of a second
    /// or more.
    pub fn to_system_time(&self) -> Result<SystemTime, OutOfRange>
        ensures ok { IfOk result (λ time. IsMoment self.now (system_time_nanos time)) }
        ensures err { IfErr result (λ _. (count : ℕ) → ¬ (IsMoment self.now count)) }
    {
        let span = whole(self.seconds, self.nanos, LAST_SECOND)?;
        match SystemTime::UNIX_EPOCH.checked_add(span) {
            Some(time) => Ok(time),
            None => Err(OutOfRange {}),
        }
    }
}

impl Duration {
    /// Returns the span as a `Duration`. A span of 315,576,000,001 seconds, some 10,000 years, or more is out of range.
    pub fn from_std(span: time::Duration) -> Result<Duration, OutOfRange>
        ensures ok { IfOk result (λ d. IsSpan d (as_nanos span)) }
        ensures err { IfErr result (λ _. (longest_span + 1) * billion ≤ as_nanos span) }
    {
        let (seconds, nanos) = parts(span, LONGEST_SPAN)?;
        Ok(Duration { seconds, nanos })
    }

    /// Returns the span as std's. A negative span and a longer one are out of range, and so are nanoseconds of a second or more.
    pub fn to_std(&self) -> Result<time::Duration, OutOfRange>
        ensures ok { IfOk result (λ span. IsSpan self.now (as_nanos span)) }
        ensures err { IfErr result (λ _. (count : ℕ) → ¬ (IsSpan self.now count)) }
    {
        whole(self.seconds, self.nanos, LONGEST_SPAN)
    }
}

/// Returns the seconds and nanoseconds of a span, if it has at most `last` seconds.
fn parts(span: time::Duration, last: u64) -> Result<(i64, i32), OutOfRange>
    requires { last < 2 ^ 63 }
    ensures ok { IfOk result (λ p. AreNanos p.0 p.1 last (as_nanos span)) }
    ensures err { IfErr result (λ _. (last + 1) * billion ≤ as_nanos span) }
{
    let seconds = span.as_secs();
    if seconds > last {
        return Err(OutOfRange {});
    }
    Ok((seconds as i64, span.subsec_nanos() as i32))
}

/// Returns the span of this many seconds and nanoseconds. Returns an error if the seconds are negative or more than
/// `last`, or if the nanoseconds are negative or a second or more.
fn whole(seconds: i64, nanos: i32, last: u64) -> Result<time::Duration, OutOfRange>
    ensures ok { IfOk result (λ span. AreNanos seconds nanos last (as_nanos span)) }
    ensures err { IfErr result (λ _. (count : ℕ) → ¬ (AreNanos seconds nanos last count)) }
{
    if seconds < 0 || nanos < 0 || nanos >= 1_000_000_000 || seconds as u64 > last {
        return Err(OutOfRange {});
    }
    Ok(time::Duration::new(seconds as u64, nanos as u32))
}
