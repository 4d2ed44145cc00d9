//! Frames from a stream of bytes, which may come in any pieces.
ghost use Rattle.std.specs.Prelude.{ℕ, List, flat_map, ◌≡◌, ◌≤◌, ◌<◌, ◌+◌, ◌-◌, ◌*◌, ◌++◌, ◌↔◌, true, take, length, min, max, vec_capacity, Some, IfOk, OnOk, IfErr, OnErr};
ghost use Rattle.ttrpc_proto.specs.declared.framing.frame.Incoming.{Incoming as AnIncoming};
ghost use Rattle.ttrpc_proto.specs.Framing.Header.{header_of};
ghost use Rattle.ttrpc_proto.specs.Framing.Frames.{Frames, IsRest, Held, Holds, Fed, FedAll, Grows, given, nothing, wanted};
ghost use Rattle.ttrpc_proto.specs.Framing.Streaming.{IsFound};

use crate::framing::gen_message::GenMessage;
use crate::framing::header::{
    DEFAULT_PAGE_SIZE, MESSAGE_HEADER_LENGTH, MESSAGE_LENGTH_MAX, MessageHeader,
};
use crate::framing::reading::Found;
use crate::{Error, Result};
use std::alloc::{AllocError, Global};
use std::marker::Model;
use std::mem;
use ttrpc_wire::Blob;

/// A frame that has come whole.
#[derive(Debug, Drop, PartialEq, Eq)]
pub enum Incoming {
    /// A frame, with its payload.
    Frame(GenMessage),
    /// The header of a frame with a payload that is longer than a message may be. The payload is gone.
    Oversize(MessageHeader),
}

/// A decoder, which holds the part of a frame that has come, until the frame is whole. Only `feed` takes memory.
#[derive(Debug, Drop)]
pub struct FrameDecoder {
    /// The first bytes of the header.
    head: [u8; 10],
    /// The number of the header's bytes that have come.
    filled: usize,
    /// The bytes of the payload that have come.
    body: Vec<u8>,
    /// The number of bytes that have come of a payload that is too long to be kept.
    counted: usize,
}

impl Model for FrameDecoder {
    ghost use Rattle.std.specs.Prelude.{take, ◌++◌};
    ghost use Rattle.ttrpc_proto.specs.Framing.Frames.{Held};
    ghost use Rattle.ttrpc_proto.specs.Framing.Decoder.{IsDecoder};

    ghost Value = { Held };

    ghost view = { λ d.
        record { bytes = take d.filled d.head ++ d.body.items; counted = d.counted } };

    ghost invariant = { λ d. IsDecoder d.head d.filled d.body.items d.counted };
}

impl FrameDecoder {
    /// Returns a decoder that holds nothing.
    pub fn new(alloc: Global) -> FrameDecoder
        ensures { result ≡ nothing }
    {
        FrameDecoder {
            head: [0; 10],
            filled: 0,
            body: Vec::new(alloc),
            counted: 0,
        }
    }

    /// Returns true if nothing of a frame has come.
    pub fn at_boundary(&self) -> bool
        ensures nothing { (result ≡ true) ↔ (self.now ≡ nothing) }

        // The bytes that are held are never a whole frame.
        ensures held { (rest : List ℕ) × Holds self.now rest }
    {
        self.filled == 0
    }

    #[tactic(auto, using(crate::proofs::Cuts::wanted_early, crate::proofs::Cuts::wanted_late, crate::proofs::Cuts::some_wanted))]
    /// Returns the number of bytes that are wanted next, at least one: the rest of the header, and then the rest of the
    /// payload.
    pub fn wanted(&self) -> usize
        ensures wanted { result ≡ wanted self.now }
        ensures some { 0 < result }
    {
        if self.filled < MESSAGE_HEADER_LENGTH {
            return MESSAGE_HEADER_LENGTH - self.filled;
        }
        let header = MessageHeader::from(&self.head);
        header.length as usize - self.body.len() - self.counted
    }

    #[tactic(auto, using(crate::proofs::Cuts::cut_early, crate::proofs::Cuts::cut_long, crate::proofs::Cuts::cut_late))]
    /// Returns the part of a frame that has come, for an input that has ended.
    pub fn cut(&self) -> Found
        ensures { (rest : List ℕ) → Holds self.now rest → IsFound result rest }
    {
        if self.filled < MESSAGE_HEADER_LENGTH {
            return Found::HeaderCut(self.filled);
        }
        let header = MessageHeader::from(&self.head);
        if header.length as usize <= MESSAGE_LENGTH_MAX {
            return Found::BodyCut(header, self.body.len());
        }
        Found::OversizeCut(header)
    }

    /// Takes bytes from the front of the piece, and returns their number and the frame that the last of them made
    /// whole, if there is one. Takes at least one byte unless the piece is empty. An error is `NoMemory`, changes
    /// nothing, and comes only if bytes of a kept payload are to be held.
    pub fn feed(&mut self, alloc: Global, piece: &[u8]) -> Result<(usize, Option<Incoming>)>
        // Bytes were taken from the front of the piece, and at most one frame is whole with them.
        ensures takes { IfOk result
            (λ r. (r.0 ≤ length piece.now) × (0 < length piece.now → 0 < r.0)) }
        ensures all { IfOk result
            (λ r. length piece.now ≤ wanted self.old → r.0 ≡ length piece.now) }
        ensures frames { IfOk result (λ r. Fed self.old (take r.0 piece.now) (given r.1) self.new) }
        ensures at_its_end { IfOk result
            (λ r. (i : AnIncoming) → r.1 ≡ Some i → self.new ≡ nothing) }
        // The decoder never holds more than a header and a message of the greatest length.
        ensures bound { length self.new.bytes ≤ MESSAGE_HEADER_LENGTH + MESSAGE_LENGTH_MAX }
        // An error reports refused memory for a payload that is kept, and changes nothing.
        ensures no_memory { IfErr result (λ e. e ≡ Error.NoMemory) }
        ensures grows { OnErr result (Grows self.old piece.now) }
        ensures err { OnErr result (self.new ≡ self.old) }
    {
        if self.filled < MESSAGE_HEADER_LENGTH {
            return Ok(self.take_head(alloc, piece));
        }
        let header = MessageHeader::from(&self.head);
        if header.length as usize > MESSAGE_LENGTH_MAX {
            Ok(self.count_body(header, piece))
        } else {
            self.take_body(alloc, header, piece)
        }
    }

    /// Takes bytes of the header.
    fn take_head(&mut self, alloc: Global, piece: &[u8]) -> (usize, Option<Incoming>)
        // The header isn't whole yet.
        requires { length self.old.bytes < MESSAGE_HEADER_LENGTH }
        // The result is as `feed` returns it.
        ensures takes { (result.0 ≤ length piece.now) × (0 < length piece.now → 0 < result.0) }
        ensures all { length piece.now ≤ wanted self.old → result.0 ≡ length piece.now }
        ensures frames { Fed self.old (take result.0 piece.now) (given result.1) self.new }
        ensures at_its_end { (i : AnIncoming) → result.1 ≡ Some i → self.new ≡ nothing }
        ensures bound { length self.new.bytes ≤ MESSAGE_HEADER_LENGTH + MESSAGE_LENGTH_MAX }
    {
        let count = fill(&mut self.head, self.filled, piece);
        self.filled += count;
        if self.filled < MESSAGE_HEADER_LENGTH {
            return (count, None);
        }
        let header = MessageHeader::from(&self.head);
        if header.length != 0 {
            return (count, None);
        }
        self.filled = 0;
        let payload = Blob::new(alloc);
        (count, Some(Incoming::Frame(GenMessage { header, payload })))
    }

    /// Counts bytes of a payload that is too long.
    fn count_body(&mut self, header: MessageHeader, piece: &[u8]) -> (usize, Option<Incoming>)
        // The header is whole, and states more than a message may have.
        requires whole { MESSAGE_HEADER_LENGTH ≤ length self.old.bytes }
        requires header { header ≡ header_of self.old.bytes }
        requires long { MESSAGE_LENGTH_MAX < header.length }
        // The result is as `feed` returns it.
        ensures takes { (result.0 ≤ length piece.now) × (0 < length piece.now → 0 < result.0) }
        ensures all { length piece.now ≤ wanted self.old → result.0 ≡ length piece.now }
        ensures frames { Fed self.old (take result.0 piece.now) (given result.1) self.new }
        ensures at_its_end { (i : AnIncoming) → result.1 ≡ Some i → self.new ≡ nothing }
        ensures bound { length self.new.bytes ≤ MESSAGE_HEADER_LENGTH + MESSAGE_LENGTH_MAX }
    {
        let missing = header.length as usize - self.counted;
        if piece.len() < missing {
            self.counted += piece.len();
            return (piece.len(), None);
        }
        self.counted = 0;
        self.filled = 0;
        (missing, Some(Incoming::Oversize(header)))
    }

    /// Takes bytes of a payload that is kept.
    fn take_body(
        &mut self,
        alloc: Global,
        header: MessageHeader,
        piece: &[u8],
    ) -> Result<(usize, Option<Incoming>)>
        // The header is whole, and states no more than a message may have.
        requires whole { MESSAGE_HEADER_LENGTH ≤ length self.old.bytes }
        requires header { header ≡ header_of self.old.bytes }
        requires short { header.length ≤ MESSAGE_LENGTH_MAX }
        // The result is as `feed` returns it.
        ensures takes { IfOk result
            (λ r. (r.0 ≤ length piece.now) × (0 < length piece.now → 0 < r.0)) }
        ensures all { IfOk result
            (λ r. length piece.now ≤ wanted self.old → r.0 ≡ length piece.now) }
        ensures frames { IfOk result (λ r. Fed self.old (take r.0 piece.now) (given r.1) self.new) }
        ensures at_its_end { IfOk result
            (λ r. (i : AnIncoming) → r.1 ≡ Some i → self.new ≡ nothing) }
        ensures bound { length self.new.bytes ≤ MESSAGE_HEADER_LENGTH + MESSAGE_LENGTH_MAX }
        // An error reports refused memory, comes only if bytes came, and changes nothing.
        ensures no_memory { IfErr result (λ e. e ≡ Error.NoMemory) }
        ensures grows { OnErr result (0 < length piece.now) }
        ensures err { OnErr result (self.new ≡ self.old) }
    {
        let stated = header.length as usize;
        let missing = stated - self.body.len();
        let count = missing.min(piece.len());
        append(&mut self.body, &piece[..count], stated)?;
        if count < missing {
            return Ok((count, None));
        }
        self.filled = 0;
        let payload = Blob::from_vec(mem::replace(&mut self.body, Vec::new(alloc)));
        Ok((count, Some(Incoming::Frame(GenMessage { header, payload }))))
    }
}

/// Copies the first bytes of the piece into the header, after the bytes that it has, and returns their number.
fn fill(head: &mut [u8; 10], filled: usize, piece: &[u8]) -> usize
    requires { filled ≤ MESSAGE_HEADER_LENGTH }
    ensures count { result ≡ min (length piece.now) (MESSAGE_HEADER_LENGTH - filled) }
    ensures front { take (filled + result) head.new
        ≡ take filled head.old ++ take result piece.now }
    ensures size { length head.new ≡ MESSAGE_HEADER_LENGTH }
{
    let count = piece.len().min(MESSAGE_HEADER_LENGTH - filled);
    head[filled..filled + count].copy_from_slice(&piece[..count]);
    count
}

/// Appends bytes of a payload that will have the stated length. An error changes nothing.
fn append(body: &mut Vec<u8>, bytes: &[u8], stated: usize) -> std::result::Result<(), AllocError>
    requires { length body.old.items + length bytes.now ≤ stated }
    ensures ok { OnOk result (body.new.items ≡ body.old.items ++ bytes.now) }
    ensures err { OnErr result ((body.new.items ≡ body.old.items) × (0 < length bytes.now)) }
{
    if bytes.is_empty() {
        return Ok(());
    }
    make_room(body, body.len() + bytes.len(), stated)?;
    body.extend_from_slice(bytes)
}

/// Reserves room for the needed bytes. A vector that has to grow gets twice the needed room, at least a page, and at
/// most the stated length. So each byte is moved a bounded number of times, and a stated length alone takes no memory.
fn make_room(
    body: &mut Vec<u8>,
    needed: usize,
    stated: usize,
) -> std::result::Result<(), AllocError>
    requires { (length body.old.items ≤ needed) × (needed ≤ stated) }
    ensures items { body.new.items ≡ body.old.items }
    ensures ok { OnOk result (needed ≤ vec_capacity body.new) }
    ensures capacity { vec_capacity body.new
        ≤ max (vec_capacity body.old) (min stated (max DEFAULT_PAGE_SIZE (2 * needed))) }
{
    if needed <= body.capacity() {
        return Ok(());
    }
    let room = needed.saturating_mul(2).max(DEFAULT_PAGE_SIZE).min(stated);
    body.reserve_exact(room - body.len())
}

/// States that bytes are exactly one list of frames and a rest after them.
pub fn bytes_are_frames()
    ensures some { (bytes : List ℕ)
        → (frames : List AnIncoming) × (rest : List ℕ) × Frames bytes frames rest × IsRest rest }
    ensures one { (bytes : List ℕ) (is js : List AnIncoming) (r s : List ℕ)
        → Frames bytes is r → IsRest r → Frames bytes js s → IsRest s → (is ≡ js) × (r ≡ s) }
{}

/// States that a decoder's frames for pieces, and the bytes that it holds, are the frames and the rest of the joined
/// pieces. So the cuts between the pieces don't matter.
pub fn pieces_are_joined()
    ensures frames { (pieces : List (List ℕ)) (frames : List AnIncoming) (new : Held)
        → FedAll nothing pieces frames new
        → (rest : List ℕ) × Frames (flat_map (λ p. p) pieces) frames rest × Holds new rest }
    ensures cuts { (ps qs : List (List ℕ)) (fs gs : List AnIncoming) (a b : Held)
        → FedAll nothing ps fs a → FedAll nothing qs gs b
        → flat_map (λ p. p) ps ≡ flat_map (λ p. p) qs → (fs ≡ gs) × (a ≡ b) }
{}
