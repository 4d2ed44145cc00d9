//! One measurement, from its words to its output.
ghost use Rattle.std.specs.Prelude.{◌≡◌, if◌then◌else◌, is_ok};

use crate::burst::burst;
use crate::calling::{EchoCaller, Echoes, times_of};
use crate::figures::{Figures, Measurement, Rates, percentile, rate};
use crate::load::{Target, load_of};
use crate::raw::{connect_raw, start_raw};
use std::alloc::Global;
use std::io::{self, Write};
use std::net::{Net, TcpListener, TcpStream};
use std::rt::Files;
use std::sync::Arc;
use std::sync::atomic::{AtomicU64, Ordering};
use std::thread;
use std::thread::{Builder, JoinHandle};
use std::time::Duration;
use ttrpc_load_polled::{Load, Looped, Ran, Work, rest, rest_at, run_polled, share};
use ttrpc_proto::{Error, Result};
use ttrpc_sync::{Runtime, moment};
use ttrpc_sync_client::Client;

const USAGE: &str =
    "usage: ttrpc-load ADDR CALLS CALLERS BYTES | raw CALLS CALLERS BYTES | burst ADDR CALLS BYTES
       ttrpc-load async ADDR CALLS CALLERS BYTES | stream ADDR ITEMS STREAMS BYTES | rest [ADDR] CLIENTS";

/// The output of `--help` after the usage.
const HELP: &str = "
Calls Echo of demo.Echo, and tells in a line how it went.

  ADDR CALLS CALLERS BYTES   so many calls of the server at the address, unix://PATH or tcp://IP:PORT, by so many callers
                             of one client, each with a payload of so many bytes
  raw CALLS CALLERS BYTES    the same of a bare echo of this process, with a connection for each caller: the system's limit
  burst ADDR CALLS BYTES     all requests in one write over one connection, and when their answers came
  async ADDR CALLS CALLERS BYTES
                             as the first, by a client whose calls are polled on one event loop, at a TCP address
  stream ADDR ITEMS STREAMS BYTES
                             so many items by so many streams of such a client, on Chat, Sum and Count one after the other,
                             and how many items a second went over each
  rest [ADDR] CLIENTS        so many such clients at rest, each connected there, or over readers and writers in memory, until
                             it is killed

Told are calls a second, and of the times of single calls the median and the 99th percentile, in microseconds. Where
TTRPC_TCP_NODELAY_ENABLED is 1 or true, small writes by TCP go out at once.";

/// The parts of the system that a measurement uses.
pub trait Measured: Runtime + Looped + Files + Net<Listener = TcpListener, Stream = TcpStream> {}

impl<R: Runtime + Looped + Files + Net<Listener = TcpListener, Stream = TcpStream>> Measured
    for R {}

/// A caller in its own thread, which returns the times of its calls.
type Caller = JoinHandle<Result<Vec<u64>>>;

/// Runs the measurement that the words give, and writes its figures in a line of `output`. If `shows` is set, `errors`
/// is a terminal, and a line on it shows the progress. Returns the status: 0, or 1 at a failure, or 2 if the words are
/// wrong.
pub fn run<R: Measured + 'static, W: Write, X: Write>(
    rt: &R,
    words: &[String],
    nodelay: bool,
    shows: bool,
    output: &mut W,
    errors: &mut X,
) -> u8 {
    if matches!(words, [word] if word.as_str() == "--help") {
        return status_of(writeln!(output, "{USAGE}\n{HELP}"));
    }
    let Some((target, load)) = load_of(words) else {
        let _ = writeln!(errors, "{USAGE}");
        return 2;
    };
    match measure(rt, target, load, nodelay, shows, errors) {
        Ok(told) => status_of(writeln!(output, "{told}")),
        Err(error) => {
            let _ = writeln!(errors, "ttrpc-load: {error}");
            1
        }
    }
}

/// Returns the status after the output: 0 if it was written, and otherwise 1.
fn status_of(written: io::Result<()>) -> u8
    ensures { result ≡ (if is_ok written then 0 else 1) }
{
    match written {
        Ok(()) => 0,
        Err(_) => 1,
    }
}

fn measure<R: Measured + 'static, X: Write>(
    rt: &R,
    target: Target<'_>,
    load: Load,
    nodelay: bool,
    shows: bool,
    errors: &mut X,
) -> Result<Measurement> {
    let done = Arc::new(rt.alloc(), AtomicU64::new(0))?;
    let start = moment(rt)?;
    let callers = match target {
        Target::Raw => raw_callers(rt, load, nodelay, &done)?,
        Target::Server(address) => client_callers(rt, address, load, nodelay, &done)?,
        Target::Burst(address) => return Ok(Measurement::Moments(burst(
            rt, address, load, nodelay,
        )?)),
        Target::Polled(address) => return polled_calls(rt, address, load, nodelay),
        Target::Streams(address) => return stream_rates(rt, address, load, nodelay),
        Target::Rest(address) => return rest_all(rt, address, load.calls, nodelay),
    };
    if shows {
        show(rt, load, &*done, errors)?;
    }
    let times = all_times(rt, callers)?;
    let elapsed = moment(rt)?.saturating_sub(start);
    Ok(Measurement::Figures(figures_of(load, elapsed, times)))
}

/// Holds `count` clients at rest. It doesn't end by itself.
fn rest_all<R: Looped>(
    rt: &R,
    address: Option<&str>,
    count: usize,
    nodelay: bool,
) -> Result<Measurement> {
    match address {
        Some(address) => rest_at(rt, address, count, nodelay)?,
        None => rest(rt, count)?,
    }
    Ok(Measurement::Rested(count))
}

/// Measures calls that are polled.
fn polled_calls<R: Looped>(
    rt: &R,
    address: &str,
    load: Load,
    nodelay: bool,
) -> Result<Measurement> {
    let Ran { elapsed, times } = run_polled(rt, address, Work::Calls, load, nodelay)?;
    Ok(Measurement::Figures(figures_of(load, elapsed, times)))
}

/// Measures each kind of stream, one after the other.
fn stream_rates<R: Looped>(
    rt: &R,
    address: &str,
    load: Load,
    nodelay: bool,
) -> Result<Measurement> {
    Ok(Measurement::Rates(Rates {
        chat: rate_of(rt, address, Work::Chat, load, nodelay)?,
        sum: rate_of(rt, address, Work::Sum, load, nodelay)?,
        count: rate_of(rt, address, Work::Count, load, nodelay)?,
    }))
}

fn rate_of<R: Looped>(
    rt: &R,
    address: &str,
    work: Work,
    load: Load,
    nodelay: bool,
) -> Result<u128> {
    let ran = run_polled(rt, address, work, load, nodelay)?;
    Ok(rate(ran.times.len(), ran.elapsed))
}

/// Starts callers that share one client.
fn client_callers<R: Measured + 'static>(
    rt: &R,
    address: &str,
    load: Load,
    nodelay: bool,
    done: &Arc<AtomicU64, Global>,
) -> Result<Vec<Caller>> {
    let client = Client::connect(rt.clone()?, address, nodelay)?;
    let mut callers = Vec::new(rt.alloc());
    for caller in 0..load.callers {
        let echo = EchoCaller {
            client: client.try_clone()?,
        };
        callers.push(start_caller(rt, echo, load, caller, done)?)?;
    }
    Ok(callers)
}

/// Starts callers, each with its own connection to a bare echo.
fn raw_callers<R: Measured + 'static>(
    rt: &R,
    load: Load,
    nodelay: bool,
    done: &Arc<AtomicU64, Global>,
) -> Result<Vec<Caller>> {
    let address = start_raw(rt, nodelay)?;
    let mut callers = Vec::new(rt.alloc());
    for caller in 0..load.callers {
        let echo = connect_raw(rt, rt.alloc(), address.as_str(), nodelay)?;
        callers.push(start_caller(rt, echo, load, caller, done)?)?;
    }
    Ok(callers)
}

fn start_caller<R: Measured + 'static, E: Echoes<R> + Send + Drop + 'static>(
    rt: &R,
    echo: E,
    load: Load,
    caller: usize,
    done: &Arc<AtomicU64, Global>,
) -> Result<Caller> {
    let (mine, done) = (rt.clone()?, Arc::try_clone(done)?);
    let count = share(load, caller);
    let calls = move || times_of(&mine, &echo, count, load.bytes, &done);
    match Builder::new().spawn(rt, calls) {
        Ok(thread) => Ok(thread),
        Err(error) => Err(Error::Nix(error.kind())),
    }
}

/// Waits for all callers, and returns the times of all calls.
fn all_times<R: Measured>(rt: &R, callers: Vec<Caller>) -> Result<Vec<u64>> {
    let mut all = Vec::new(rt.alloc());
    for caller in callers {
        let times = caller.join(rt)?;
        all.extend_from_slice(times.as_slice())?;
    }
    Ok(all)
}

fn figures_of(load: Load, elapsed: u64, times: Vec<u64>) -> Figures
    ensures { (result.calls ≡ load.calls) × (result.elapsed ≡ elapsed) }
{
    let mut times = times;
    times.sort_unstable();
    Figures {
        calls: load.calls,
        elapsed,
        median: percentile(times.as_slice(), 50).unwrap_or(0),
        ninety_ninth: percentile(times.as_slice(), 99).unwrap_or(0),
    }
}

/// Shows the number of calls that are done, five times a second. Ends when all calls are done, or when none was done
/// for a while.
fn show<R: Measured, X: Write>(rt: &R, load: Load, done: &AtomicU64, errors: &mut X) -> Result<()> {
    let mut before = 0;
    let mut quiet: u32 = 0;
    for _ in rt.forever() {
        let count = done.load(Ordering::Relaxed);
        quiet = if count == before {
            quiet.saturating_add(1)
        } else {
            0
        };
        before = count;
        let _ = write!(errors, "\r{count} of {} calls", load.calls);
        let _ = errors.flush();
        if count >= load.calls as u64 || quiet >= 50 {
            break;
        }
        thread::sleep(rt, Duration::from_millis(200));
    }
    let _ = writeln!(errors);
    Ok(())
}
