//! The figures of a measurement.
ghost use Rattle.std.specs.Prelude.{◌≡◌, ◌+◌, ◌-◌, ◌*◌, ◌/◌, ◌<◌, ◌≤◌, length, max, slice_index, IfSome, IfNone};

use std::fmt;

/// The figures of calls. Times are in nanoseconds.
#[derive(Clone, Copy, Debug)]
pub struct Figures {
    pub calls: usize,
    pub elapsed: u64,
    pub median: u64,
    pub ninety_ninth: u64,
}

/// Returns the rate a second of `count` items that took `elapsed` nanoseconds.
pub fn rate(count: usize, elapsed: u64) -> u128
    ensures { result ≡ (count * 1000000000) / max elapsed 1 }
{
    let nanoseconds = (count as u128).saturating_mul(1_000_000_000);
    nanoseconds / u128::from(elapsed.max(1))
}

impl fmt::Display for Figures {
    fn fmt<W: fmt::Write>(&self, f: &mut fmt::Formatter<W>) -> fmt::Result {
        let a_second = rate(self.calls, self.elapsed);
        let (median, ninety_ninth) = (self.median / 1000, self.ninety_ninth / 1000);
        write!(
            f,
            "{a_second} calls/s, median {median} us, 99th percentile {ninety_ninth} us"
        )
    }
}

/// The times of the answers to calls that were written at once, in nanoseconds from the first write on.
#[derive(Clone, Copy, Debug)]
pub struct Moments {
    pub first: u64,
    /// The times after a tenth of the answers, half of them and nine tenths.
    pub tenth: u64,
    pub half: u64,
    pub ninety: u64,
    pub last: u64,
}

impl fmt::Display for Moments {
    fn fmt<W: fmt::Write>(&self, f: &mut fmt::Formatter<W>) -> fmt::Result {
        let (first, tenth, half) = (self.first / 1000, self.tenth / 1000, self.half / 1000);
        let (ninety, last) = (self.ninety / 1000, self.last / 1000);
        write!(
            f,
            "answers came after: first {first} us, 10% {tenth} us, 50% {half} us, 90% {ninety} us, last {last} us"
        )
    }
}

/// The number of items a second over streams of each kind.
#[derive(Clone, Copy, Debug)]
pub struct Rates {
    pub chat: u128,
    pub sum: u128,
    pub count: u128,
}

impl fmt::Display for Rates {
    fn fmt<W: fmt::Write>(&self, f: &mut fmt::Formatter<W>) -> fmt::Result {
        let Rates { chat, sum, count } = *self;
        write!(f, "items/s: chat {chat}, sum {sum}, count {count}")
    }
}

/// The result of a measurement.
#[derive(Clone, Copy, Debug)]
pub enum Measurement {
    Figures(Figures),
    Moments(Moments),
    Rates(Rates),
    /// This number of clients rested.
    Rested(usize),
}

impl fmt::Display for Measurement {
    fn fmt<W: fmt::Write>(&self, f: &mut fmt::Formatter<W>) -> fmt::Result {
        match self {
            Measurement::Figures(figures) => figures.fmt(f),
            Measurement::Moments(moments) => moments.fmt(f),
            Measurement::Rates(rates) => rates.fmt(f),
            Measurement::Rested(clients) => write!(f, "{clients} clients rested"),
        }
    }
}

/// Returns the given percentile of the times, which are in rising order. Returns `None` if there are none.
pub fn percentile(times: &[u64], percent: usize) -> Option<u64>
    ensures some { IfSome result
        (λ time. time ≡ slice_index times.now ((length times.now * percent + 99) / 100 - 1)) }
    ensures none { 0 < percent → percent ≤ 100 → IfNone result (length times.now ≡ 0) }
{
    let rank = (times.len() as u128 * percent as u128).div_ceil(100);
    let rank = usize::try_from(rank).ok()?;
    times.get(rank.checked_sub(1)?).copied()
}
