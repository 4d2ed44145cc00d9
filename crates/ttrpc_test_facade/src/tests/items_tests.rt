//! Items by their paths below the facade: values that print, count and compare, calls of items below the ends, and a
//! server with a watch that is waited for.
use std::alloc::{AllocError, Global};
use std::collections::BTreeMap;
use std::fmt::Debug;
use std::fs;
use std::net::{Net, TcpListener, TcpStream};
use std::os::unix::net::UnixListener;
use std::rt::Files;
use std::sync::Arc;
use std::sync::atomic::{AtomicU64, Ordering};
use std::test::Fail;
use ttrpc::context::{Context, with_timeout};
use ttrpc::frame::{Outgoing, Queued};
use ttrpc::proto::{Blob, Codec, GenMessage, MessageHeader, Sequence, Text, TryClone};
use ttrpc::security_extension::{HookOutput, Plain, hook_result, plain_context};
use ttrpc::sync::{Host, NoHook, Runtime, Stopper, Watch};
use ttrpc::transport::PipeListener;
use ttrpc::wire::{int32_to_varint, int64_to_varint, varint_to_int32, varint_to_int64};
use ttrpc::{
    Client, Error, HookError, MethodHandler, Request, Result, Server, TtrpcContext, client_request,
    request_handler,
};

type Tested = std::result::Result<(), Fail>;

/// True if something holds, or the reason why a test ended.
type Holds = std::result::Result<bool, Fail>;

/// Returns whether a value prints this.
fn is_printed<T: Debug>(alloc: Global, value: &T, expected: &str) -> Holds {
    Ok(format!(in alloc; "{value:?}")?.as_str() == expected)
}

#[test]
fn a_context_prints_what_it_has(rt: HostRuntime) -> Tested {
    let context = with_timeout(rt.alloc(), 5).try_clone()?;
    assert!(rt;
        is_printed(
            rt.alloc(),
            &context,
            "Context { metadata: {}, timeout_nano: 5 }"
        )?
    );
    Ok(())
}

#[test]
fn a_connection_prints_what_is_known_of_it(rt: HostRuntime) -> Tested {
    let is_io = matches!(HookError::from(AllocError), HookError::Io(_));
    let connection = plain_context(rt.alloc());
    let expected = "ConnectionContext { connection_data: {}, .. }";
    assert!(rt; is_io && is_printed(rt.alloc(), &connection, expected)?);
    Ok(())
}

/// Returns whether bytes count, compare and give their items.
fn are_bytes(alloc: Global) -> std::result::Result<bool, Fail> {
    let blob = Blob::decode(alloc, b"\x01\x02")?;
    let is_counted = blob.len() == 2 && !blob.is_empty();
    Ok(is_counted && blob.is_equal(b"\x01\x02") && blob.iter().copied().max() == Some(2))
}

/// Returns whether numbers do the same.
fn are_numbers(alloc: Global) -> std::result::Result<bool, Fail> {
    let numbers = Sequence::from_vec(Vec::from_slice(alloc, &[3u64, 4])?);
    let is_counted = numbers.len() == 2 && !numbers.is_empty();
    Ok(is_counted && numbers.is_equal(&[3, 4]) && numbers.iter().copied().max() == Some(4))
}

/// Returns whether a text counts, compares and gives its characters.
fn is_text(alloc: Global) -> std::result::Result<bool, Fail> {
    let text = Text::from_str(alloc, "ab")?;
    let is_counted = text.len() == 2 && !text.is_empty();
    Ok(is_counted && text.is_equal("ab") && text.iter().max() == Some('b'))
}

#[test]
fn values_count_and_compare(rt: HostRuntime) -> Tested {
    let alloc = rt.alloc();
    assert!(rt; are_bytes(alloc)? && are_numbers(alloc)? && is_text(alloc)?);
    Ok(())
}

/// Returns whether -1 is written in ten bytes, as the encoding guide says, and read again.
fn are_signed() -> bool {
    let (small, large) = (int32_to_varint(-1), int64_to_varint(-1));
    let is_same = small == u64::MAX && large == u64::MAX;
    is_same && varint_to_int32(small) == -1 && varint_to_int64(large) == -1
}

/// Returns whether a hook that answers at 30 seconds is late, and one that answers before isn't.
fn hooks_have_their_time(alloc: Global) -> bool {
    let late: std::result::Result<HookOutput<Plain, Plain>, HookError> = hook_result(
        0,
        30_000_000_000,
        Ok(HookOutput::of_halves(alloc, Plain {}, Plain {})),
    );
    let timely: std::result::Result<HookOutput<Plain, Plain>, HookError> = hook_result(
        0,
        29_999_999_999,
        Ok(HookOutput::of_halves(alloc, Plain {}, Plain {})),
    );
    matches!(late, Err(HookError::Timeout)) && timely.is_ok()
}

/// A frame of one byte.
const FRAME: &[u8] = b"\0\0\0\x01\0\0\0\x03\x02\0\x2a";

/// Returns whether a frame that is queued is lent whole.
fn is_lent(alloc: Global) -> std::result::Result<bool, Fail> {
    let mut queue = Outgoing::new(alloc)?;
    let frame = Queued {
        message: GenMessage {
            header: MessageHeader::new_response(3, 1),
            payload: Blob::from_slice(alloc, b"\x2a")?,
        },
        ticket: None,
        is_unary_request: false,
        owner: 3,
    };
    queue.place(frame, 0)?;
    let mut buffer = [0u8; 16];
    let count = queue.lend(&mut buffer);
    Ok(count == FRAME.len() && buffer.starts_with(FRAME))
}

#[test]
fn parts_are_called_by_their_paths(rt: HostRuntime) -> Tested {
    let alloc = rt.alloc();
    assert!(rt; are_signed() && hooks_have_their_time(alloc) && is_lent(alloc)?);
    Ok(())
}

/// A watch that counts the handlers that failed.
#[derive(Drop)]
struct Failures {
    count: Arc<AtomicU64, Global>,
}

impl Watch for Failures {
    fn handler_failed(&self, _error: &Error) {
        self.count.fetch_add(1, Ordering::SeqCst);
    }
}

/// A service of raw bytes.
#[derive(Clone, Copy)]
struct Items {}

impl Items {
    /// Returns the text of the context.
    fn print<R: Host>(&self, ctx: &TtrpcContext<R, Plain, Plain>, _asked: Blob) -> Result<Blob> {
        let printed = format!(in ctx.rt().alloc(); "{ctx:?}")?;
        Ok(Blob::from_vec(printed.into_bytes()))
    }
}

/// A handler that prints, or stops its server and fails.
#[derive(Drop)]
struct Prints<R: Host> {
    service: Items,
    stopper: Option<Stopper<R>>,
}

impl<R: Host> MethodHandler<R, Plain, Plain> for Prints<R> {
    fn handler(&self, ctx: TtrpcContext<R, Plain, Plain>, req: Request) -> Result<()> {
        if let Some(stopper) = &self.stopper {
            stopper.stop();
            return Err(Error::LocalClosed);
        }
        request_handler!(self, ctx, req, ttrpc::proto::Blob, print);
        Ok(())
    }
}

/// The parts of the system that the test uses.
trait Machine: Runtime + Files + Net<Listener = TcpListener, Stream = TcpStream> {}

impl<R: Runtime + Files + Net<Listener = TcpListener, Stream = TcpStream>> Machine for R {}

const PATH: &str = "items.sock";

/// A server at a listener that it was given, with a watch that counts.
type Watched<R> = Server<R, Prints<R>, NoHook, Failures>;

/// Returns such a server, without handlers.
fn watched<R: Machine>(
    rt: &R,
    count: &Arc<AtomicU64, Global>,
) -> std::result::Result<Watched<R>, Fail> {
    let listener = PipeListener::from_unix(UnixListener::bind(rt, PATH)?)?;
    let failures = Failures {
        count: Arc::try_clone(count)?,
    };
    Ok(
        Server::new(rt.clone()?)?
            .set_watch(failures)?
            .add_listener(listener)?,
    )
}

/// Adds a handler. If it has a stopper, it stops its server.
fn add<R: Host>(
    handlers: &mut BTreeMap<String, Prints<R>>,
    alloc: Global,
    path: &str,
    stopper: Option<Stopper<R>>,
) -> Tested {
    let handler = Prints {
        service: Items {},
        stopper,
    };
    handlers.insert(String::from_str(alloc, path)?, handler)?;
    Ok(())
}

/// Returns the handlers: one that prints, and one that stops its server.
fn handlers<R: Host>(
    alloc: Global,
    stopper: Stopper<R>,
) -> std::result::Result<BTreeMap<String, Prints<R>>, Fail> {
    let mut handlers = BTreeMap::new(alloc);
    add(&mut handlers, alloc, "/test.Items/Print", None)?;
    add(&mut handlers, alloc, "/test.Items/Stop", Some(stopper))?;
    Ok(handlers)
}

/// A client of the service.
#[derive(Drop)]
struct ItemsClient<R: Host> {
    client: Client<R, Plain, Plain>,
}

impl<R: Host> ItemsClient<R> {
    fn print(&self, ctx: Context, req: &Blob) -> Result<Blob> {
        let mut res = Blob::new(self.client.alloc());
        client_request!(self, ctx, req, "test.Items", "Print", res);
        Ok(res)
    }

    fn stop(&self, ctx: Context, req: &Blob) -> Result<Blob> {
        let mut res = Blob::new(self.client.alloc());
        client_request!(self, ctx, req, "test.Items", "Stop", res);
        Ok(res)
    }
}

const PRINTED: &str =
    "TtrpcContext { mh: MessageHeader { length: 19, stream_id: 1, type_: 1, flags: 0 }, metadata: {}, timeout_nano: 0, .. }";

/// Returns whether the first call prints the context of its handler, and the second ends the connection.
fn items_are_called<R: Host>(client: &ItemsClient<R>, alloc: Global) -> Holds {
    let printed = client.print(Context::new(alloc), &Blob::new(alloc))?;
    let stopped = client.stop(Context::new(alloc), &Blob::new(alloc));
    Ok(printed.is_equal(PRINTED.as_bytes()) && stopped.is_err())
}

/// Starts the server.
fn started<R: Machine + 'static>(
    rt: &R,
    count: &Arc<AtomicU64, Global>,
) -> std::result::Result<Watched<R>, Fail> {
    let server = watched(rt, count)?;
    let stopper = server.stopper()?;
    let mut server = server.register_service(handlers(rt.alloc(), stopper)?)?;
    server.start()?;
    Ok(server)
}

fn call<R: Machine + 'static>(rt: &R) -> Holds {
    let client = ItemsClient {
        client: Client::connect(rt.clone()?, "unix://items.sock", true)?,
    };
    items_are_called(&client, rt.alloc())
}

#[test]
fn a_server_is_watched_and_waited_for(rt: HostRuntime) -> Tested {
    let _ = fs::remove_file(&rt, PATH);
    let count = Arc::new(rt.alloc(), AtomicU64::new(0))?;
    let server = started(&rt, &count)?;
    let is_called = call(&rt)?;
    server.wait();
    server.shutdown();
    assert!(rt; is_called && count.load(Ordering::SeqCst) == 1);
    fs::remove_file(&rt, PATH)?;
    Ok(())
}
