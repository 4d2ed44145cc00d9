//! The recorded frames with either core alone, without a reader, a writer or a handler.
use std::alloc::Global;
use std::test::Fail;
use ttrpc_bench::checks::check_named_row;
use ttrpc_bench_polled::acts::{Act, Outcome, is_so, request};
use ttrpc_bench_polled::lines::Line;
use ttrpc_bench_polled::recorded::{
    Conversation, Said, client_beside_go, client_beside_rust, served_to_go, served_to_go_bare,
    served_to_rust,
};
use ttrpc_bench_polled::registry::recorded_registry;
use ttrpc_client::{CallId, ClientCore, ClientKind, StreamId};
use ttrpc_proto::{Error, Response, Result as RpcResult};
use ttrpc_secure::{ConnectionContext, Plain};
use ttrpc_server::{JobId, Rules, ServerCore};
use ttrpc_wire::Codec;

/// The job that a recorded server handled, and whether it is a stream's.
type Handled = Option<(JobId, bool)>;

/// Returns the core of a server with the registry of the recorded servers.
fn server(alloc: Global, bare: bool) -> RpcResult<ServerCore<Plain, Plain>> {
    let mut registry = recorded_registry(alloc)?;
    registry.set_bare_openings(bare);
    let context = ConnectionContext::of_halves(alloc, Plain {}, Plain {});
    ServerCore::new(alloc, Rules::Async, registry, context)
}

/// Decodes the response in a payload.
fn response_in(alloc: Global, payload: &[u8]) -> RpcResult<Response> {
    match Response::decode(alloc, payload) {
        Ok(response) => Ok(response),
        Err(_) => Err(Error::Eof),
    }
}

/// Does with the job what its recorded handler did before the server sent this frame: it sends an item, ends, or
/// answers.
fn handle(
    alloc: Global,
    core: &mut ServerCore<Plain, Plain>,
    handled: Handled,
    frame: &[u8],
) -> RpcResult<()> {
    let Some((id, is_stream)) = handled else {
        return Ok(());
    };
    match frame {
        [_, _, _, _, _, _, _, _, 3, 0, item @ ..] => {
            core.send(alloc, id, item)?;
            Ok(())
        }
        [_, _, _, _, _, _, _, _, 3, ..] => core.end_stream(alloc, id, &Ok(None)),
        [_, _, _, _, _, _, _, _, _, _, payload @ ..] if is_stream => {
            let response = response_in(alloc, payload)?;
            core.end_stream(alloc, id, &Ok(Some(response)))
        }
        [_, _, _, _, _, _, _, _, _, _, payload @ ..] => {
            let response = response_in(alloc, payload)?;
            core.answer(alloc, id, &Ok(response))
        }
        _ => Ok(()),
    }
}

/// Returns whether the core of a server lends exactly these bytes. They are reported as written.
fn server_says(core: &mut ServerCore<Plain, Plain>, buffer: &mut [u8], frame: &[u8]) -> bool {
    let count = core.lend(buffer);
    let lent = core.lent();
    core.wrote(lent);
    buffer.get(..count) == Some(frame) && core.lendable() == 0
}

/// Feeds a frame, and takes the resulting job. Returns whether all of the frame was taken.
fn hear(
    alloc: Global,
    core: &mut ServerCore<Plain, Plain>,
    handled: &mut Handled,
    frame: &[u8],
) -> RpcResult<bool> {
    let count = core.feed(alloc, frame, 0)?;
    if let Some(job) = core.take_job() {
        *handled = Some((job.id, job.stream));
    }
    Ok(count == frame.len())
}

/// Gives the core the next line of a conversation. Returns whether the core does what the line expects.
fn answer_line(
    alloc: Global,
    core: &mut ServerCore<Plain, Plain>,
    handled: &mut Handled,
    line: Line<'_>,
) -> RpcResult<bool> {
    match line {
        Line::Up(frame) => hear(alloc, core, handled, frame),
        Line::Down(frame) => {
            if core.lendable() == 0 {
                handle(alloc, core, *handled, frame)?;
            }
            let mut buffer = [0u8; 64];
            Ok(server_says(core, &mut buffer, frame))
        }
        Line::UpEnds => {
            core.end_of_input();
            Ok(core.has_failed())
        }
        Line::DownEnds => Ok(core.lendable() == 0),
    }
}

/// Fails unless a server's core does what these lines expect.
fn serve(alloc: Global, bare: bool, said: Said) -> Result<(), Fail> {
    let (name, lines) = said;
    let mut core = server(alloc, bare)?;
    let mut handled = None;
    for (at, line) in lines.iter().enumerate() {
        check_named_row(
            name,
            at,
            answer_line(alloc, &mut core, &mut handled, *line)?,
        )?;
    }
    Ok(())
}

#[test]
fn a_core_serves_recorded_clients(rt: HostRuntime) -> Result<(), Fail> {
    for number in 0..100 {
        if let Some(said) = served_to_rust(number) {
            serve(rt.alloc(), false, said)?;
            serve(rt.alloc(), true, said)?;
        }
        if let Some(said) = served_to_go(number) {
            serve(rt.alloc(), false, said)?;
        }
        if let Some(said) = served_to_go_bare(number) {
            serve(rt.alloc(), true, said)?;
        }
    }
    Ok(())
}

/// A client's core, its last call or stream, and the remaining lines.
#[derive(Drop)]
struct Caller {
    core: ClientCore<Plain, Plain>,
    call: CallId,
    stream: StreamId,
    lines: &'static [Line<'static>],
    at: usize,
}

impl Caller {
    fn new(alloc: Global, lines: &'static [Line<'static>]) -> RpcResult<Caller> {
        let context = ConnectionContext::of_halves(alloc, Plain {}, Plain {});
        Ok(Caller {
            core: ClientCore::new(alloc, ClientKind::Async, context)?,
            call: 0,
            stream: 0,
            lines,
            at: 0,
        })
    }

    /// Returns the next line.
    fn line(&self) -> Option<Line<'static>> {
        match self.lines.get(self.at) {
            Some(line) => Some(*line),
            None => None,
        }
    }

    fn pass(&mut self) {
        self.at = self.at.saturating_add(1);
    }

    /// Does the act. Returns whether the result is the expected one, or `None` if there is no result yet.
    fn act(&mut self, alloc: Global, act: Act) -> RpcResult<Option<bool>> {
        match act {
            Act::Calls(name, payload, limit) => self.make_call(alloc, name, payload, limit)?,
            Act::Opens(name, payload, sends, receives) => {
                self.open_stream(alloc, name, payload, sends, receives)?;
            }
            Act::Sends(_, item, _) => {
                self.core.send(alloc, self.stream, item)?;
            }
            Act::Closes(_, _) => {
                self.core.close_send(alloc, self.stream)?;
            }
            Act::Ends(_, expected) => return Ok(self.end(alloc, expected)),
            Act::Receives(_, expected) => return Ok(self.receive(alloc, expected)),
            _ => {}
        }
        Ok(Some(true))
    }

    fn make_call(
        &mut self,
        alloc: Global,
        name: &str,
        payload: &[u8],
        limit: i64,
    ) -> RpcResult<()> {
        let request = request(alloc, name, payload, limit)?;
        self.call = self.core.request(alloc, &request, 0)?;
        Ok(())
    }

    fn open_stream(
        &mut self,
        alloc: Global,
        name: &str,
        payload: &[u8],
        sends: bool,
        receives: bool,
    ) -> RpcResult<()> {
        let request = request(alloc, name, payload, 0)?;
        self.stream = self.core.new_stream(alloc, &request, sends, receives)?;
        Ok(())
    }

    fn receive(&mut self, alloc: Global, expected: Outcome) -> Option<bool> {
        let given = self.core.recv(alloc, self.stream)?;
        Some(is_so(alloc, given, expected))
    }

    fn end(&mut self, alloc: Global, expected: Outcome) -> Option<bool> {
        let given = match self.core.take_outcome(alloc, self.call)? {
            Ok(response) => Ok(response.payload),
            Err(error) => Err(error),
        };
        Some(is_so(alloc, given, expected))
    }

    /// Does the act, and feeds the server's next lines until the act has a result. Returns whether it is the expected
    /// one.
    fn acts(&mut self, alloc: Global, act: Act) -> RpcResult<bool> {
        for _ in 0..=self.lines.len() {
            if let Some(is_so) = self.act(alloc, act)? {
                return Ok(is_so);
            }
            if !self.hears(alloc)? {
                return Ok(false);
            }
        }
        Ok(false)
    }

    /// Returns whether the bytes that the core has to write are the client's next lines. The server's lines before them
    /// are fed.
    fn says(&mut self, alloc: Global) -> RpcResult<bool> {
        let mut buffer = [0u8; 64];
        for _ in 0..=self.lines.len() {
            if self.core.lendable() == 0 {
                return Ok(true);
            }
            let count = self.core.lend(&mut buffer);
            let lent = self.core.lent();
            self.core.wrote(lent);
            for _ in 0..self.lines.len() {
                if !self.hears(alloc)? {
                    break;
                }
            }
            match self.line() {
                Some(Line::Up(frame)) if buffer.get(..count) == Some(frame) => self.pass(),
                _ => return Ok(false),
            }
        }
        Ok(self.core.lendable() == 0)
    }

    /// Feeds the server's next line. Returns whether there is one.
    fn hears(&mut self, alloc: Global) -> RpcResult<bool> {
        match self.line() {
            Some(Line::Down(frame)) => {
                self.pass();
                Ok(self.core.feed(alloc, frame)? == frame.len())
            }
            Some(Line::DownEnds) => {
                self.pass();
                self.core.end_of_input();
                Ok(true)
            }
            _ => Ok(false),
        }
    }
}

/// Fails unless a client's core understands a conversation as expected.
fn understand(alloc: Global, conversation: Conversation) -> Result<(), Fail> {
    let (name, acts, lines) = conversation;
    let mut caller = Caller::new(alloc, lines)?;
    for (at, act) in acts.iter().enumerate() {
        check_named_row(name, at, caller.acts(alloc, *act)? && caller.says(alloc)?)?;
    }
    Ok(())
}

#[test]
fn a_core_understands_recorded_servers(rt: HostRuntime) -> Result<(), Fail> {
    for number in 0..100 {
        if let Some(conversation) = client_beside_go(number) {
            understand(rt.alloc(), conversation)?;
        }
        if let Some(conversation) = client_beside_rust(number) {
            understand(rt.alloc(), conversation)?;
        }
    }
    Ok(())
}
