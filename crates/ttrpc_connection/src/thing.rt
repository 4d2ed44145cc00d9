//! The things that come in for a receiver, and those that a frame or a request brings.
ghost use Rattle.std.specs.Prelude.{◌≡◌, IfOk};
ghost use Rattle.ttrpc_connection.specs.Things.{data_thing, has_flag, is_bare, opening_thing, request_thing};

use std::alloc::{AllocError, Global};
use ttrpc_proto::{Error, FLAG_NO_DATA, FLAG_REMOTE_CLOSED, FLAG_REMOTE_OPEN};
use ttrpc_wire::{Blob, Text};

/// An entry of a mailbox: a thing that comes in for a receiver.
#[derive(Debug, Drop, PartialEq)]
pub enum MailboxEntry {
    /// An item, and more may follow.
    Item(Blob),
    /// The last item.
    Last(Blob),
    /// The end: no more items come.
    End,
    /// The other side ended the stream in a way that is an error, which the receiver gets once.
    Closing(Error),
    /// The stream broke with this error, which the receiver gets once.
    Breaking(Error),
}

/// Returns whether no data follow a frame of these flags.
pub fn closes(flags: u8) -> bool
    ensures { result ≡ has_flag FLAG_REMOTE_CLOSED flags }
{
    flags & FLAG_REMOTE_CLOSED != 0
}

/// Returns the thing that a data frame brings for a stream that takes items. Only the text of an error takes memory.
pub fn of_data(
    alloc: Global,
    stream_id: u32,
    flags: u8,
    payload: Blob,
) -> Result<MailboxEntry, AllocError>
    ensures { IfOk result (λ thing. thing ≡ data_thing stream_id flags payload) }
{
    if !closes(flags) {
        return Ok(MailboxEntry::Item(payload));
    }
    if flags & FLAG_NO_DATA == 0 {
        return Ok(MailboxEntry::Last(payload));
    }
    if payload.len() == 0 {
        return Ok(MailboxEntry::End);
    }
    let text = format!(in alloc; "stream {stream_id}: close message cannot include data")?;
    Ok(MailboxEntry::Closing(Error::Others(Text::from_string(text))))
}

/// Returns the thing that a stream's request brings by itself, if any: its payload, unless its flags state that it has none. Takes no
/// memory.
pub fn of_request(flags: u8, payload: Blob) -> Option<MailboxEntry>
    ensures { result ≡ request_thing flags payload }
{
    let brings_item = flags & FLAG_NO_DATA == 0;
    match (closes(flags), brings_item) {
        (false, true) => Some(MailboxEntry::Item(payload)),
        (true, true) => Some(MailboxEntry::Last(payload)),
        (true, false) => Some(MailboxEntry::End),
        (false, false) => None,
    }
}

/// Returns the thing that a stream's request brings, if any. If `bare` is true, a request brings nothing if it states that items follow,
/// has an empty payload, and has neither the flag for no data nor the one that closes. Takes no memory.
pub fn of_opening(bare: bool, flags: u8, payload: Blob) -> Option<MailboxEntry>
    ensures { result ≡ opening_thing bare flags payload }
{
    if bare && is_bare(flags, &payload) {
        return None;
    }
    of_request(flags, payload)
}

/// Returns whether a request states that items follow, has an empty payload, and has neither the flag for no data nor the one that closes.
fn is_bare(flags: u8, payload: &Blob) -> bool
    ensures { result ≡ is_bare flags payload.now }
{
    payload.len() == 0
        && flags & FLAG_REMOTE_OPEN != 0
        && flags & FLAG_NO_DATA == 0
        && !closes(flags)
}
