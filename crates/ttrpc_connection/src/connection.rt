//! One end of a connection. A call without an `alloc` argument takes no memory.
ghost use Rattle.std.specs.Prelude.{ℕ, List, ◌≡◌, ◌≢◌, ◌<◌, ◌≤◌, ◌↔◌, [], true, length, take, is_some, IfOk, IfErr, OnOk, IfSome, IfNone, None};
ghost use Rattle.ttrpc_proto.specs.declared.error.Error.{Error as TheError};
ghost use Rattle.ttrpc_proto.specs.Framing.Frames.{Holds, nothing};
ghost use Rattle.ttrpc_proto.specs.Framing.Queue.{unsent};
ghost use Rattle.ttrpc_secure.specs.Hooks.Facts.{facts_of};
ghost use Rattle.ttrpc_connection.specs.Failure.{TellsSent};
ghost use Rattle.ttrpc_connection.specs.Feeds.{IsFailed, is_open, new_connection, ways};
ghost use Rattle.ttrpc_connection.specs.Inside.{FrontActs, StopsAt};
ghost use Rattle.ttrpc_connection.specs.OneEnd.{Ends, Lends, TakesFrontOrDrains, TakesOrDrains, failing, lendable, lending, reporting};
ghost use Rattle.ttrpc_connection.specs.Outbox.{is_sent};

use crate::arrived::open;
use crate::failure::Failure;
use crate::outbox::Outbox;
use crate::reacts::Reacts;
use std::alloc::Global;
use ttrpc_proto::{Error, FrameDecoder};
use ttrpc_secure::{
    ConnectionContext, ConnectionData, ConnectionFacts, InboundTransform, OutboundTransform,
};
use ttrpc_wire::values::slices::behind;

/// One end of a connection, over its two halves.
#[derive(Drop)]
pub struct Connection<O, I> {
    decoder: FrameDecoder,
    /// The frames that go out.
    pub outbox: Outbox<O>,
    inbound: I,
    failure: Option<Failure>,
    /// The facts known about the connection.
    known: ConnectionFacts,
}

impl<O: OutboundTransform + Drop, I: InboundTransform + Drop> Connection<O, I> {
    /// Returns a connection with the halves of this context, and with the memory for the frames that are to wait. Returns `NoMemory` if
    /// that memory was refused.
    pub fn new(alloc: Global, context: ConnectionContext<O, I>) -> Result<Self, Error>
        ensures ok { IfOk result (λ connection. connection ≡ new_connection
            (facts_of context.connection_data.entries) context.outbound context.inbound) }
        ensures only_memory { IfErr result (λ e. e ≡ TheError.NoMemory) }
    {
        Ok(Connection {
            decoder: FrameDecoder::new(alloc),
            outbox: Outbox::new(alloc, context.outbound)?,
            inbound: context.inbound,
            failure: None,
            known: ConnectionFacts::new(context.connection_data),
        })
    }

    /// Returns the facts known about the connection, as its context had them.
    pub fn connection_data(&self) -> &ConnectionData
        ensures { facts_of result.now.entries ≡ self.now.known }
    {
        self.known.data()
    }

    /// Takes a piece of input, and returns the number of bytes taken. The connection takes all bytes, or those up to the end of a frame
    /// after which fewer bytes are free than the core asks for. Each frame that is whole with the piece acts, in order, at this moment. The
    /// connection fails if memory is refused or the core returns a failure. Then and from then on the call returns that failure. If the
    /// core takes no more, or too few bytes are free, the call returns 0 and changes nothing.
    pub fn feed<R: Reacts<O>>(
        &mut self,
        alloc: Global,
        core: &mut R,
        piece: &[u8],
        now: u64,
    ) -> Result<usize, Error>
        ensures { TakesOrDrains (ways O.OutboundTransform I.InboundTransform R.Reacts) core.old
            self.old piece.now now result core.new self.new }
    {
        self.check_alive(alloc)?;
        let mut rest = piece;
        while !rest.is_empty() && self.is_open_to(core) {
            let n = self.feed_front(alloc, core, rest, now)?;
            rest = behind(rest, n);
        }
        Ok(piece.len() - rest.len())
    }

    /// Takes the first bytes of the piece, and returns how many. The number is at least 1 if the piece isn't empty, and no byte after the
    /// end of the first whole frame is taken. The frame acts. Otherwise the call does the same as `feed`.
    pub fn feed_front<R: Reacts<O>>(
        &mut self,
        alloc: Global,
        core: &mut R,
        piece: &[u8],
        now: u64,
    ) -> Result<usize, Error>
        ensures { TakesFrontOrDrains (ways O.OutboundTransform I.InboundTransform R.Reacts) core.old
            self.old piece.now now result core.new self.new }
    {
        self.check_alive(alloc)?;
        if !self.is_open_to(core) {
            return Ok(0);
        }
        match self.take_front(alloc, core, piece, now) {
            Ok(n) => Ok(n),
            Err(failure) => {
                let error = failure.error(alloc);
                self.failure = Some(failure);
                Err(error)
            }
        }
    }

    /// Returns whether the core takes input, and at least as many bytes are free as the core asks for.
    fn is_open_to<R: Reacts<O>>(&self, core: &R) -> bool
        ensures { result ≡ is_open (ways O.OutboundTransform I.InboundTransform R.Reacts)
            core.now self.now.outbox }
    {
        core.takes() && R::ROOM <= self.outbox.free()
    }

    /// Returns whether the input so far ends with a whole frame, or is empty.
    pub fn at_boundary(&self) -> bool
        ensures nothing { (result ≡ true) ↔ (self.now.decoder ≡ nothing) }
        ensures held { (rest : List ℕ) × Holds self.now.decoder rest }
    {
        self.decoder.at_boundary()
    }

    /// Reports that the input ended. The connection fails, if it hasn't failed.
    pub fn end_of_input(&mut self)
        ensures { Ends self.old self.new }
    {
        let failure = if self.decoder.at_boundary() {
            Failure::Disconnected
        } else {
            Failure::DisconnectedInside
        };
        self.fail(failure);
    }

    /// Fails the connection, if it hasn't failed.
    pub fn fail(&mut self, failure: Failure)
        ensures { self.new ≡ failing self.old failure }
    {
        if self.failure.is_none() {
            self.failure = Some(failure);
        }
    }

    /// Returns whether the connection has failed.
    pub fn has_failed(&self) -> bool
        ensures { result ≡ is_some self.now.failure }
    {
        self.failure.is_some()
    }

    /// Returns the error of the failure, if the connection has failed, or `NoMemory` if memory for its text was refused.
    pub fn failure(&self, alloc: Global) -> Option<Error>
        ensures none { IfNone result (self.now.failure ≡ None) }
        ensures told { IfSome result (IsFailed self.now.failure) }
    {
        match &self.failure {
            None => None,
            Some(failure) => Some(failure.error(alloc)),
        }
    }

    /// Returns the failure of the connection, if it has failed.
    pub fn why(&self) -> &Option<Failure>
        ensures { result.now ≡ self.now.failure }
    {
        &self.failure
    }

    /// Returns the failure as an `Err`, if the connection has failed.
    pub fn check_alive(&self, alloc: Global) -> Result<(), Error>
        ensures ok { OnOk result (self.now.failure ≡ None) }
        ensures err { IfErr result (IsFailed self.now.failure) }
    {
        match &self.failure {
            None => Ok(()),
            Some(failure) => Err(failure.error(alloc)),
        }
    }

    /// Returns `Ok` after the frame of this ticket was reported whole, and until then the failure, if the connection has failed.
    pub fn sent(&self, alloc: Global, ticket: u64) -> Option<Result<(), Error>>
        ensures { TellsSent (is_sent self.now.outbox.queue ticket) self.now.failure result }
    {
        if self.outbox.is_sent(ticket) {
            return Some(Ok(()));
        }
        match &self.failure {
            None => None,
            Some(failure) => Some(Err(failure.error(alloc))),
        }
    }

    /// Copies the first bytes of the rest of the first unfinished frame, as many as fit, and returns how many. Returns 0 only if none fit,
    /// nothing is left to be written, or the connection has failed.
    pub fn lend(&mut self, buffer: &mut [u8]) -> usize
        ensures lends { Lends self.old buffer.old result buffer.new }
        ensures lent { self.new ≡ lending self.old result }
    {
        if self.failure.is_some() {
            return self.outbox.lend(&mut []);
        }
        self.outbox.lend(buffer)
    }

    /// Reports this many of the lent bytes as written.
    pub fn wrote(&mut self, n: usize)
        requires { n ≤ self.old.outbox.queue.lent }
        ensures { self.new ≡ reporting self.old n }
    {
        self.outbox.wrote(n)
    }

    /// Returns how many bytes a `lend` copies if all fit.
    pub fn lendable(&self) -> usize
        ensures { result ≡ lendable self.now }
    {
        if self.failure.is_some() {
            return 0;
        }
        self.outbox.open_len()
    }

    /// Returns whether anything is left to be written. After a failure the rest is never lent.
    pub fn has_unsent(&self) -> bool
        ensures { (result ≡ true) ↔ (unsent self.now.outbox.queue ≢ []) }
    {
        self.outbox.has_unsent()
    }

    /// Returns how many bytes the last `lend` since the last report gave.
    pub fn lent(&self) -> usize
        ensures { result ≡ self.now.outbox.queue.lent }
    {
        self.outbox.lent()
    }

    /// Takes the first bytes of the piece. A frame that is whole with them acts. An `Err` is the reason why the connection is to fail, and
    /// nothing but the decoder and the inbound half has changed.
    fn take_front<R: Reacts<O>>(
        &mut self,
        alloc: Global,
        core: &mut R,
        piece: &[u8],
        now: u64,
    ) -> Result<usize, Failure>
        requires { is_open (ways O.OutboundTransform I.InboundTransform R.Reacts)
            core.old self.old.outbox ≡ true }
        // The first bytes were taken, and the frame that is whole with them acted.
        ensures count { IfOk result (λ n. (n ≤ length piece.now) × (0 < length piece.now → 0 < n)) }
        ensures ok { IfOk result (λ n.
            FrontActs (ways O.OutboundTransform I.InboundTransform R.Reacts) core.old self.old
            (take n piece.now) now core.new self.new) }
        // Or the connection is to fail, for this reason.
        ensures err { IfErr result (λ failure.
            StopsAt (ways O.OutboundTransform I.InboundTransform R.Reacts) core.old self.old
            piece.now now failure core.new self.new) }
        // The failure and the known facts are as before.
        ensures failure { self.new.failure ≡ self.old.failure }
        ensures known { self.new.known ≡ self.old.known }
    {
        let Ok((n, incoming)) = self.decoder.feed(alloc, piece) else {
            return Err(Failure::NoMemory);
        };
        if let Some(incoming) = incoming {
            let arrived = open(alloc, &mut self.inbound, incoming, now)?;
            core.react(alloc, &mut self.outbox, arrived)?;
        }
        Ok(n)
    }
}
