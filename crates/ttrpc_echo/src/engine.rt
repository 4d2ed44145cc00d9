//! The engine of `answer`: reads frames from a reader, and writes the answers of a server with one method, which
//! echoes.
ghost use Rattle.std.specs.Prelude.{◌≡◌, ◌≢◌, ◌<◌, ◌≤◌, ℕ, List, Option, [], None, length, take, drop, IfOk, IfErr, OnOk, OnErr, MatchResult};
ghost use Rattle.ttrpc_proto.specs.declared.error.Error.TheVariants.{NoMemory};
ghost use Rattle.ttrpc_proto.specs.Framing.Frames.{Holds, nothing};
ghost use Rattle.ttrpc_connection.specs.Failure.{IsTold, error_of};
ghost use Rattle.ttrpc_connection.specs.declared.failure.Failure.TheVariants.{DisconnectedInside};
ghost use Rattle.ttrpc_echo.specs.Echo.{echo_of};
ghost use Rattle.ttrpc_echo.specs.Answered.{AnsweredAll, Fails, IsOfStream};
ghost use Rattle.ttrpc_echo.specs.Serving.{IsFresh, IsReady, IsStop, Echoes, MayAnswer, PassesOn, PassesPart, Serves, WritesOut};
ghost use Rattle.ttrpc_proto.specs.Framing.Queue.{unsent};
ghost use Rattle.std.specs.Io.KnownBytes.{Appends, Keeps, ReadConsumes};
ghost use Rattle.std.specs.Io.{ReadsAtMost};

use std::alloc::Global;
use std::io::{self, ErrorKind, Read, Write};
use ttrpc_proto::{Error, Passing, Request, Response, Status, read_again, write_again};
use ttrpc_secure::{Plain, plain_context};
use ttrpc_server::{Registry, Rules, ServerCore};
use ttrpc_wire::Text;
use ttrpc_wire::codec::message::WireMessage;
use ttrpc_wire::values::slices::behind;

/// The number of bytes that are read, or written, at once.
const PIECE: usize = 65536;

/// The core of a server without transforms.
type EchoCore = ServerCore<Plain, Plain>;

/// Reads frames to the end of the input and writes their answers. A request of `Echo` of `demo.Echo` is answered with
/// an OK status and the request's payload. Any other frame is answered as the server's table says. The answers to a
/// piece are written before the next piece is read.
///
/// At an `Err` a beginning of the answers was written. The error is `NoMemory`, the error of the reader or the writer
/// as `Socket`, or that job ids are used up. If the input ended inside a frame, all answers were written, and the error
/// reports that.
pub fn answer<R: Read, W: Write>(alloc: Global, reader: &mut R, writer: &mut W) -> Result<(), Error>
    ensures ok { OnOk result (AnsweredAll (R.remaining reader.old) (R.remaining reader.new)
        (W.contents writer.old) (W.contents writer.new) []) }
    ensures err { IfErr result (Fails (R.remaining reader.old) (R.remaining reader.new)
        (W.contents writer.old) (W.contents writer.new)) }
{
    let mut core = echo_core(alloc)?;
    answer_all(alloc, &mut core, reader, writer)
}

/// Does the same as `answer`, with a new core that is lent.
fn answer_all<R: Read, W: Write>(
    alloc: Global,
    core: &mut EchoCore,
    reader: &mut R,
    writer: &mut W,
) -> Result<(), Error>
    requires { IsFresh core.old }
    ensures ok { OnOk result (AnsweredAll (R.remaining reader.old) (R.remaining reader.new)
        (W.contents writer.old) (W.contents writer.new) []) }
    ensures err { IfErr result (Fails (R.remaining reader.old) (R.remaining reader.new)
        (W.contents writer.old) (W.contents writer.new)) }
{
    let (mut buffer, mut loan) = ([0u8; PIECE], [0u8; PIECE]);
    for _ in 0..u64::MAX {
        let n = read_piece(alloc, reader, &mut buffer)?;
        if n == 0 {
            return finish(alloc, core);
        }
        pass_on(alloc, core, &buffer[..n], writer, &mut loan)?;
    }
    Err(broken(alloc, &io::Error::from(ErrorKind::Other)))
}

/// Serves a piece and writes all of its answers. If the queue is short of room for the rest, the rest is served after
/// the waiting bytes were written.
fn pass_on<W: Write>(
    alloc: Global,
    core: &mut EchoCore,
    piece: &[u8],
    writer: &mut W,
    loan: &mut [u8; PIECE],
) -> Result<(), Error>
    // Nothing waits to be written, before and after.
    requires ready { IsReady core.old }
    requires empty { unsent core.old.connection.outbox.queue ≡ [] }
    ensures ok { OnOk result
        (PassesOn core.old (W.contents writer.old) piece.now core.new (W.contents writer.new)) }
    ensures ready { OnOk result
        (IsReady core.new × (unsent core.new.connection.outbox.queue ≡ [])) }
    ensures err { (before : List ℕ) → Holds core.old.connection.decoder before
        → IfErr result
        (λ e. PassesPart core.old (W.contents writer.old) piece.now e (W.contents writer.new)) }
{
    let mut rest = piece;
    while !rest.is_empty() {
        let n = serve(alloc, core, rest)?;
        write_out(alloc, core, writer, loan)?;
        rest = behind(rest, n);
    }
    Ok(())
}

/// Ends the input. Returns an error if it ended inside a frame.
fn finish(alloc: Global, core: &mut EchoCore) -> Result<(), Error>
    requires alive { core.old.connection.failure ≡ None }
    ensures ok { OnOk result (core.old.connection.decoder ≡ nothing) }
    ensures err { IfErr result
        (λ e. (core.old.connection.decoder ≢ nothing) × IsTold (error_of DisconnectedInside) e) }
{
    if core.at_boundary() {
        return Ok(());
    }
    core.end_of_input();
    match core.failure(alloc) {
        None => Ok(()),
        Some(error) => Err(error),
    }
}

/// Returns a core with the one service `demo.Echo` and its one method `Echo`.
fn echo_core(alloc: Global) -> Result<EchoCore, Error>
    ensures { MatchResult result IsFresh (λ e. e ≡ NoMemory) }
{
    let mut registry = Registry::new(alloc);
    registry.add_method(
        alloc,
        Text::from_str(alloc, "demo.Echo")?,
        Text::from_str(alloc, "Echo")?,
    )?;
    let core = ServerCore::new(alloc, Rules::Sync, registry, plain_context(alloc))?;
    Ok(core)
}

/// Returns the echo of a request: an OK status that is present and empty, and the request's payload. Takes no memory.
pub fn echo(alloc: Global, request: Request) -> Response
    ensures { result ≡ echo_of request }
{
    Response {
        status: Some(Status::new(alloc)),
        payload: request.payload,
    }
}

/// Answers the job that waits, if there is one.
fn echo_next(alloc: Global, core: &mut EchoCore) -> Result<(), Error>
    // The connection hasn't failed, and has sync rules. There is no job, or there is room for the longest answer.
    requires alive { core.old.connection.failure ≡ None }
    requires rules { core.old.state.rules ≡ Rules.Sync }
    requires room { MayAnswer core.old }
    // The job that waits, if there is one, was echoed, or memory was refused.
    ensures ok { OnOk result (Echoes core.old core.new) }
    ensures err { IfErr result (λ e. e ≡ NoMemory) }
{
    match core.take_job() {
        None => Ok(()),
        Some(job) => {
            let id = job.id;
            core.answer(alloc, id, &Ok(echo(alloc, job.request)))
        }
    }
}

/// Feeds a front of the piece, up to the end of the first frame that becomes whole, and echoes its request. Returns the
/// front's length. The front is empty if the queue is short of room for an answer.
fn serve_front(alloc: Global, core: &mut EchoCore, piece: &[u8]) -> Result<usize, Error>
    // The core is ready: it takes frames, has no jobs and hasn't failed.
    requires { IsReady core.old }
    // The front is part of the piece. It isn't empty if no bytes are unsent and the piece isn't empty.
    ensures count { IfOk result (λ n. n ≤ length piece.now) }
    ensures some { unsent core.old.connection.outbox.queue ≡ []
        → IfOk result (λ n. 0 < length piece.now → 0 < n) }
    // The front was served, and the core is ready again. An error is a reason why a piece isn't served to its end.
    ensures serves { IfOk result
        (λ n. Serves core.old (take n piece.now) core.new × IsReady core.new) }
    ensures err { IfErr result (IsStop core.old piece.now) }
{
    let n = core.feed_front(alloc, piece, 0)?;
    echo_next(alloc, core)?;
    Ok(n)
}

/// Serves a front of a piece, frame by frame, so that answers are queued in the order of frames. Returns the front's
/// length: the piece's length, unless the queue is short of room for an answer.
fn serve(alloc: Global, core: &mut EchoCore, piece: &[u8]) -> Result<usize, Error>
    // The core is ready: it takes frames, has no jobs and hasn't failed.
    requires { IsReady core.old }
    // The front is part of the piece. It isn't empty if no bytes are unsent and the piece isn't empty.
    ensures count { IfOk result (λ n. n ≤ length piece.now) }
    ensures some { unsent core.old.connection.outbox.queue ≡ []
        → IfOk result (λ n. 0 < length piece.now → 0 < n) }
    // The front was served, and the core is ready again. An error is a reason why a piece isn't served to its end.
    ensures serves { IfOk result
        (λ n. Serves core.old (take n piece.now) core.new × IsReady core.new) }
    ensures err { IfErr result (IsStop core.old piece.now) }
{
    let mut rest = piece;
    while !rest.is_empty() {
        let n = serve_front(alloc, core, rest)?;
        if n == 0 {
            return Ok(piece.len() - rest.len());
        }
        rest = behind(rest, n);
    }
    Ok(piece.len())
}

/// Writes all unsent bytes through the buffer, reports each written count to the core, and flushes the writer.
fn write_out<W: Write>(
    alloc: Global,
    core: &mut EchoCore,
    writer: &mut W,
    buffer: &mut [u8; PIECE],
) -> Result<(), Error>
    // The engine can go on, before and after.
    requires { IsReady core.old }
    ensures ready { IsReady core.new }
    // The bytes that the writer took have left the queue. At an `Ok` the queue is empty.
    ensures wrote { WritesOut core.old (W.contents writer.old) core.new (W.contents writer.new) }
    ensures all { OnOk result (unsent core.new.connection.outbox.queue ≡ []) }
    ensures err { IfErr result IsOfStream }
{
    for _ in 0..u64::MAX {
        let lent = core.lend(buffer);
        if lent == 0 {
            return flush(alloc, writer);
        }
        let taken = write_piece(alloc, writer, &buffer[..lent])?;
        core.wrote(taken);
    }
    Err(broken(alloc, &io::Error::from(ErrorKind::Other)))
}

#[tactic(auto, using(crate::proofs::Known::appends_nothing))]
/// Writes a front of a piece, and returns how many bytes the writer took: at least one. It tries again after an
/// interruption.
fn write_piece<W: Write>(alloc: Global, writer: &mut W, piece: &[u8]) -> Result<usize, Error>
    ensures count { IfOk result (λ n. n ≤ length piece.now) }
    ensures bytes { MatchResult result
        (λ n. Appends (W.contents writer.old) (W.contents writer.new) (take n piece.now))
        (λ _. Keeps (W.contents writer.old) (W.contents writer.new)) }
    ensures err { IfErr result IsOfStream }
{
    match write_again(writer, piece, Passing::Interrupted) {
        Ok(0) => Err(broken(alloc, &io::Error::from(ErrorKind::WriteZero))),
        Ok(n) => Ok(n),
        Err(error) => Err(broken(alloc, &error)),
    }
}

/// Flushes the writer.
pub fn flush<W: Write>(alloc: Global, writer: &mut W) -> Result<(), Error>
    ensures bytes { Keeps (W.contents writer.old) (W.contents writer.new) }
    ensures err { IfErr result IsOfStream }
{
    match writer.flush() {
        Ok(()) => Ok(()),
        Err(error) => Err(broken(alloc, &error)),
    }
}

/// Reads a piece, and returns its length: 0 at the end. It tries again after an interruption.
fn read_piece<R: Read>(alloc: Global, reader: &mut R, buffer: &mut [u8]) -> Result<usize, Error>
    ensures bound { ReadsAtMost result buffer.new }
    ensures bytes { ReadConsumes
        (R.remaining reader.old) (R.remaining reader.new) result buffer.new }
    ensures err { IfErr result IsOfStream }
{
    match read_again(reader, buffer, Passing::Interrupted) {
        Ok(n) => Ok(n),
        Err(error) => Err(broken(alloc, &error)),
    }
}

/// Returns the error of a reader or a writer that failed, with that error's text. Returns `NoMemory` if memory for the
/// text was refused.
pub fn broken(alloc: Global, error: &io::Error) -> Error
    ensures { IsOfStream result }
{
    match error.to_string(alloc) {
        Ok(text) => Error::Socket(Text::from_string(text)),
        Err(_) => Error::NoMemory,
    }
}
