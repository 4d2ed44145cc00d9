//! The calls of both cores for the streams of their connection.
ghost use Rattle.std.specs.Prelude.{◌≡◌, IfErr, IfOk, OnErr};

use crate::Ticket;
use std::alloc::Global;
use ttrpc_proto::{Error, Result};
use ttrpc_wire::Blob;

/// The calls on streams that both cores have, so that code and proofs over them are written once. Each method is the core's call named in
/// its comment, and the ghost members are the relations of these calls.
pub trait StreamCore {
    ghost use Rattle.std.specs.Prelude.{ℕ, List, Option, Result};
    ghost use Rattle.ttrpc_proto.specs.declared.error.Error.{Error};

    /// The id of a stream.
    type Id: Ord + Copy + Drop;

    // An item was sent on a stream, and has this ticket.
    ghost sends: { Self → Self.Id → List ℕ → ℕ → Self → Type 0 };

    // An item may be refused with this error.
    ghost refuses: { Self → Self.Id → List ℕ → Error → Type 0 };

    // The stream's sending side was closed by a frame with this ticket.
    ghost closes: { Self → Self.Id → ℕ → Self → Type 0 };

    // Such a close may be refused with this error.
    ghost refuses_close: { Self → Self.Id → Error → Type 0 };

    // The sender of a stream was dropped.
    ghost stops_sending: { Self → Self.Id → Self → Type 0 };

    // This item or error was received from a stream, or nothing came yet.
    ghost receives: { Self → Self.Id → Option (Result (List ℕ) Error) → Self → Type 0 };

    // The ticket has this result, or none yet.
    ghost tells_sent: { Self → ℕ → Option (Result (Unit {0}) Error) → Type 0 };

    // The receiver of a stream was dropped.
    ghost stops_receiving: { Self → Self.Id → Self → Type 0 };

    /// Sends an item, as `send` does. A refusal changes nothing.
    fn send_item(&mut self, alloc: Global, id: Self::Id, item: &[u8]) -> Result<Ticket>
        ensures ok { IfOk result (λ ticket. sends self.old id item.now ticket self.new) }
        ensures refused { IfErr result (refuses self.old id item.now) }
        ensures err { OnErr result (self.new ≡ self.old) };

    /// Closes the sending side, as `close_send` does, which only a client has. A refusal changes nothing.
    fn close_items(&mut self, alloc: Global, id: Self::Id) -> Result<Ticket>
        ensures ok { IfOk result (λ ticket. closes self.old id ticket self.new) }
        ensures refused { IfErr result (refuses_close self.old id) }
        ensures err { OnErr result (self.new ≡ self.old) };

    /// Drops the sender, as `drop_sender` does, which only a client has. Takes no memory.
    fn stop_sending(&mut self, id: Self::Id)
        ensures { stops_sending self.old id self.new };

    /// Takes the next item, or returns why there is none, as `recv` does.
    fn recv_item(&mut self, alloc: Global, id: Self::Id) -> Option<Result<Blob>>
        ensures { receives self.old id result self.new };

    /// Returns whether the frame of a ticket was sent, as `sent` does.
    fn item_sent(&self, alloc: Global, ticket: Ticket) -> Option<Result<()>>
        ensures { tells_sent self.now ticket result };

    /// Drops the receiver, as `drop_receiver` does. Takes no memory.
    fn stop_receiving(&mut self, id: Self::Id)
        ensures { stops_receiving self.old id self.new };
}
