//! The context of a connection.
ghost use Rattle.std.specs.Prelude.{◌≡◌, ◌≤◌, ℕ, List, [], codes, length, true, false, IfOk, IfErr, OnOk, OnErr};
ghost use Rattle.ttrpc_proto.specs.Framing.Queue.{with_frame, with_payload};
ghost use Rattle.ttrpc_proto.specs.declared.framing.header.TheConstants.{MESSAGE_LENGTH_MAX};
ghost use Rattle.ttrpc_secure.specs.Halves.{MayFail};
ghost use Rattle.ttrpc_secure.specs.Sends.{SendsUnder, associated, safe_limit};
ghost use Rattle.ttrpc_secure.specs.Context.Calls.{FailsToOpen, FailsToSeal, FailsToSend, Seals, TellsUnsent, carrying, no_message, ownerless_frame};
ghost use Rattle.ttrpc_secure.specs.Context.Texts.{advice_text};

use crate::context::errors::{or_no_memory, unopened_error, unsafe_payload_error, unsealed_error};
use crate::hooks::{ConnectionData, HookOutput};
use crate::sending::{SendError, associated_bytes, limit_of, seal, send_copy};
use crate::{InboundTransform, OutboundTransform, Plain, TransformError};
use std::alloc::Global;
use std::collections::BTreeMap;
use std::fmt;
use ttrpc_proto::framing::header::oversize::{check_oversize, oversize_error};
use ttrpc_proto::{Blob, Error, GenMessage, MessageHeader, Outgoing, Queued, Result};

/// The data that are known of a connection, and the two halves that its payloads go through.
#[derive(Drop)]
pub struct ConnectionContext<O, I> {
    /// The data that are known of the connection.
    pub connection_data: ConnectionData,
    /// The half that seals.
    pub outbound: O,
    /// The half that opens.
    pub inbound: I,
}

/// Prints the data that are known of the connection, and neither half: a half may hold a key.
impl<O, I> fmt::Debug for ConnectionContext<O, I> {
    fn fmt<W: fmt::Write>(&self, f: &mut fmt::Formatter<W>) -> fmt::Result {
        f.debug_struct("ConnectionContext")
            .field("connection_data", &self.connection_data)
            .finish_non_exhaustive()
    }
}

/// Returns the context of a connection that has no hook: nothing is known of it, and its payloads stay as they are.
/// Takes no memory.
pub fn plain_context(alloc: Global) -> ConnectionContext<Plain, Plain>
    ensures { result.connection_data.entries ≡ [] }
{
    ConnectionContext::of_halves(alloc, Plain {}, Plain {})
}

impl<O: OutboundTransform, I: InboundTransform> ConnectionContext<O, I> {
    /// Returns the context with a hook's output. Takes no memory.
    pub fn new(output: HookOutput<O, I>) -> Self
        ensures { result
            ≡ record { connection_data = output.connection_data; outbound = output.outbound; inbound = output.inbound } }
    {
        ConnectionContext {
            connection_data: output.connection_data,
            outbound: output.outbound,
            inbound: output.inbound,
        }
    }

    /// Returns the context of these halves, for a connection about which nothing is known. Takes no memory.
    pub fn of_halves(alloc: Global, outbound: O, inbound: I) -> Self
        ensures halves { result ≡ record result { outbound = outbound; inbound = inbound } }
        ensures nothing_known { result.connection_data.entries ≡ [] }
    {
        ConnectionContext {
            connection_data: BTreeMap::new(alloc),
            outbound,
            inbound,
        }
    }

    /// Returns the length of the longest payload that is sure to fit into a message after sealing. Takes no memory.
    pub fn max_raw_payload_len(&self) -> usize
        ensures { result ≡ safe_limit O.OutboundTransform self.now.outbound }
    {
        limit_of(&self.outbound)
    }

    /// Opens the data under these associated bytes with the inbound half. An error changes nothing.
    pub fn transform_inbound(
        &mut self,
        alloc: Global,
        data: &[u8],
        aad: &[u8],
    ) -> std::result::Result<Vec<u8>, TransformError>
        ensures ok { IfOk result
            (λ opened. I.opens self.old.inbound «data».now aad.now opened.items self.new.inbound) }
        ensures refused { IfErr result (MayFail I.refuses self.old.inbound «data».now aad.now) }
        ensures rest { self.new ≡ record self.old { inbound = self.new.inbound } }
        ensures err { OnErr result (self.new ≡ self.old) }
    {
        self.inbound.transform_inbound(alloc, data, aad)
    }

    /// Seals the data under these associated bytes with the outbound half. An error changes nothing.
    pub fn transform_outbound(
        &mut self,
        alloc: Global,
        data: &[u8],
        aad: &[u8],
    ) -> std::result::Result<Vec<u8>, TransformError>
        ensures ok { IfOk result (λ sealed. O.seals self.old.outbound «data».now aad.now
            sealed.items self.new.outbound) }
        ensures refused { IfErr result (MayFail O.refuses self.old.outbound «data».now aad.now) }
        ensures rest { self.new ≡ record self.old { outbound = self.new.outbound } }
        ensures err { OnErr result (self.new ≡ self.old) }
    {
        self.outbound.transform_outbound(alloc, data, aad)
    }

    /// Opens data that came under these associated bytes, and refuses a result that is longer than a message may be.
    /// This refusal is a status if `rpc_error` is true, and the half has changed. If the half doesn't open the data,
    /// the error changes nothing.
    pub fn inbound_buf(
        &mut self,
        alloc: Global,
        data: &[u8],
        aad: &[u8],
        rpc_error: bool,
    ) -> Result<Vec<u8>>
        ensures ok { IfOk result
            (λ opened. I.opens self.old.inbound «data».now aad.now opened.items self.new.inbound) }
        ensures fits { IfOk result (λ opened. length opened.items ≤ MESSAGE_LENGTH_MAX) }
        ensures refused { IfErr result (FailsToOpen I.InboundTransform rpc_error self.old.inbound
            «data».now aad.now self.new.inbound) }
        ensures rest { self.new ≡ record self.old { inbound = self.new.inbound } }
    {
        match self.inbound.transform_inbound(alloc, data, aad) {
            Ok(opened) => {
                check_oversize(alloc, opened.len(), rpc_error)?;
                Ok(opened)
            }
            Err(TransformError::Refused(why)) => Err(or_no_memory(unopened_error(alloc, &why))),
            Err(TransformError::NoMemory) => Err(Error::NoMemory),
        }
    }

    /// Opens a message's payload under the associated bytes of its header, as `inbound_buf` does. An error leaves the
    /// message unchanged.
    pub fn inbound(&mut self, alloc: Global, msg: &mut GenMessage, rpc_error: bool) -> Result<()>
        ensures ok { OnOk result ((opened : List ℕ) × I.opens self.old.inbound msg.old.payload
            (associated msg.old.header) opened self.new.inbound
            × (length opened ≤ MESSAGE_LENGTH_MAX) × (msg.new ≡ carrying msg.old opened)) }
        ensures refused { IfErr result (FailsToOpen I.InboundTransform rpc_error self.old.inbound
            msg.old.payload (associated msg.old.header) self.new.inbound) }
        ensures rest { self.new ≡ record self.old { inbound = self.new.inbound } }
        ensures err { OnErr result (msg.new ≡ msg.old) }
    {
        let aad = associated_bytes(&msg.header);
        let opened = self.inbound_buf(alloc, msg.payload.as_slice(), &aad, rpc_error)?;
        carry(msg, opened);
        Ok(())
    }

    /// Seals data under these associated bytes, and refuses data above the safe limit. If sealing adds nothing, this
    /// refusal is the error for a message that is too long, which is a status if `rpc_error` is true. An error changes
    /// nothing.
    pub fn outbound_buf(
        &mut self,
        alloc: Global,
        data: &[u8],
        aad: &[u8],
        rpc_error: bool,
    ) -> Result<Vec<u8>>
        ensures ok { IfOk result (λ sealed. Seals O.OutboundTransform self.old.outbound «data».now
            aad.now sealed.items self.new.outbound) }
        ensures refused { IfErr result
            (FailsToSeal O.OutboundTransform rpc_error [] self.old.outbound «data».now aad.now) }
        ensures rest { self.new ≡ record self.old { outbound = self.new.outbound } }
        ensures err { OnErr result (self.new ≡ self.old) }
    {
        match seal(alloc, &mut self.outbound, data, aad) {
            Ok(sealed) => Ok(sealed),
            Err(unsent) => Err(unsent_error(
                alloc,
                &self.outbound,
                unsent,
                data.len(),
                rpc_error,
                "",
            )),
        }
    }

    /// Seals a message's payload under the associated bytes of its header, as `outbound_buf` does. But the text about
    /// the safe limit ends with advice. An error changes nothing.
    pub fn outbound(&mut self, alloc: Global, msg: &mut GenMessage, rpc_error: bool) -> Result<()>
        ensures ok { OnOk result ((sealed : List ℕ) × Seals O.OutboundTransform self.old.outbound
            msg.old.payload (associated msg.old.header) sealed self.new.outbound
            × (msg.new ≡ carrying msg.old sealed)) }
        ensures refused { IfErr result (FailsToSeal O.OutboundTransform rpc_error advice_text
            self.old.outbound msg.old.payload (associated msg.old.header)) }
        ensures rest { self.new ≡ record self.old { outbound = self.new.outbound } }
        ensures err { OnErr result ((self.new ≡ self.old) × (msg.new ≡ msg.old)) }
    {
        let aad = associated_bytes(&msg.header);
        let data = msg.payload.as_slice();
        match seal(alloc, &mut self.outbound, data, &aad) {
            Ok(sealed) => {
                carry(msg, sealed);
                Ok(())
            }
            Err(unsent) => {
                let length = data.len();
                Err(unsent_error(alloc, &self.outbound, unsent, length, rpc_error, ADVICE))
            }
        }
    }

    /// Seals a message's payload as `outbound` does, queues it, and leaves an empty message in its place. Room in the
    /// queue is found before the half is called, and the error is `NoRoom` if there is none. An error changes nothing.
    pub fn transform_send(
        &mut self,
        alloc: Global,
        msg: &mut GenMessage,
        outgoing: &mut Outgoing,
    ) -> Result<()>
        // The payload was sealed and queued, and the message is empty.
        ensures ok { OnOk result
            (SendsUnder O.OutboundTransform self.old.outbound outgoing.old (ownerless_frame msg.old.header)
            msg.old.payload (associated msg.old.header) self.new.outbound outgoing.new) }
        ensures gone { OnOk result (msg.new ≡ no_message) }
        // Or an error was returned, and nothing changed.
        ensures refused { IfErr result (FailsToSend O.OutboundTransform false advice_text
            self.old.outbound outgoing.old msg.old.payload (associated msg.old.header)) }
        ensures rest { self.new ≡ record self.old { outbound = self.new.outbound } }
        ensures err { OnErr result
            ((self.new ≡ self.old) × (msg.new ≡ msg.old) × (outgoing.new ≡ outgoing.old)) }
    {
        let aad = associated_bytes(&msg.header);
        let frame = ownerless_frame(alloc, msg.header);
        let data = msg.payload.as_slice();
        match send_copy(alloc, &mut self.outbound, outgoing, frame, data, &aad) {
            Ok(()) => {
                *msg = GenMessage::new(alloc);
                Ok(())
            }
            Err(unsent) => {
                let length = data.len();
                Err(unsent_error(alloc, &self.outbound, unsent, length, false, ADVICE))
            }
        }
    }

    /// Seals data under these associated bytes, and queues them under the header with their length. Data above the safe
    /// limit are refused as by `outbound_buf` with `rpc_error`. Room in the queue is found before the half is called,
    /// and the error is `NoRoom` if there is none. An error changes nothing.
    pub fn send_response_sync(
        &mut self,
        alloc: Global,
        data: &[u8],
        aad: &[u8],
        outgoing: &mut Outgoing,
        header: MessageHeader,
    ) -> Result<()>
        ensures ok { OnOk result (SendsUnder O.OutboundTransform self.old.outbound outgoing.old
            (ownerless_frame header) «data».now aad.now self.new.outbound outgoing.new) }
        ensures refused { IfErr result (FailsToSend O.OutboundTransform true [] self.old.outbound
            outgoing.old «data».now aad.now) }
        ensures rest { self.new ≡ record self.old { outbound = self.new.outbound } }
        ensures err { OnErr result ((self.new ≡ self.old) × (outgoing.new ≡ outgoing.old)) }
    {
        let frame = ownerless_frame(alloc, header);
        match send_copy(alloc, &mut self.outbound, outgoing, frame, data, aad) {
            Ok(()) => Ok(()),
            Err(unsent) => Err(unsent_error(alloc, &self.outbound, unsent, data.len(), true, "")),
        }
    }
}

/// The advice to a caller that can send less.
const ADVICE: &str = "; reduce payload size";

/// Replaces a message's payload, and sets the length in its header. The payload is no longer than a message may be.
/// Takes no memory.
fn carry(msg: &mut GenMessage, payload: Vec<u8>)
    requires { length payload.items ≤ MESSAGE_LENGTH_MAX }
    ensures { msg.new ≡ carrying msg.old payload.items }
{
    msg.header.length = payload.len() as u32;
    msg.payload = Blob::from_vec(payload);
}

/// Returns a frame with this header and no payload. The frame has no ticket, and isn't a unary request's. Takes no
/// memory.
fn ownerless_frame(alloc: Global, header: MessageHeader) -> Queued
    ensures { result ≡ ownerless_frame header }
{
    Queued {
        message: GenMessage {
            header,
            payload: Blob::new(alloc),
        },
        ticket: None,
        is_unary_request: false,
        owner: 0,
    }
}

/// Returns the error for data of this length that weren't sent, for this reason.
fn unsent_error<O: OutboundTransform>(
    alloc: Global,
    half: &O,
    unsent: SendError,
    length: usize,
    rpc_error: bool,
    advice: &str,
) -> Error
    ensures { TellsUnsent O.OutboundTransform rpc_error advice.now half.now length unsent result }
{
    match unsent {
        SendError::TooLong if half.max_overhead() == 0 => {
            or_no_memory(oversize_error(alloc, length, rpc_error))
        }
        SendError::TooLong => unsafe_payload_error(alloc, length, limit_of(half), advice),
        SendError::NoRoom => Error::NoRoom,
        SendError::Failed(TransformError::Refused(why)) => unsealed_error(alloc, &why),
        SendError::Failed(TransformError::NoMemory) => Error::NoMemory,
    }
}
