//! The items of a stream.
ghost use Rattle.std.specs.Prelude.{◌≡◌, codes, IfErr, IfOk, Some};
ghost use Rattle.ttrpc_message.specs.Calls.{IsUnwritten, TellsItem, TellsItemOrEnd};

use crate::codec_error_of;
use std::alloc::Global;
use std::fmt::Display;
use ttrpc_proto::{Error, Result};
use ttrpc_wire::{Blob, Codec};

/// Encodes an item that is to be sent. The error is `NoMemory`, or, if the item is too long to be written, `Others` of `Encode message
/// failed. ` and the text that the codec's error prints.
pub fn encode_item<M: Codec>(alloc: Global, item: &M) -> Result<Vec<u8>>
where
    M::E: Display + Drop,
    ensures ok { IfOk result (λ bytes. bytes.items ≡ M.written item.now) }
    ensures again { IfOk result (λ bytes. M.meaning bytes.items ≡ Some item.now) }
    ensures err { IfErr result (IsUnwritten (codes "Encode message failed. ") M.E.is_no_memory
        M.E.output (M.written item.now)) }
{
    match item.encode(alloc) {
        Ok(bytes) => Ok(bytes),
        Err(error) => Err(codec_error_of(alloc, "Encode message failed. ", error)),
    }
}

/// Decodes an item that a stream gave, or passes on the stream's error. If the bytes mean no item, the error is `Others` of `Decode message
/// failed. ` and the text that the codec's error prints. The error is `NoMemory` if memory was refused.
pub fn decode_item<M: Codec>(alloc: Global, given: Result<Blob>) -> Result<M>
where
    M::E: Display + Drop,
    ensures { TellsItem M.meaning M.E.is_no_memory M.E.output given result }
{
    match given {
        Err(error) => Err(error),
        Ok(bytes) => match M::decode(alloc, bytes.as_slice()) {
            Ok(item) => Ok(item),
            Err(error) => Err(codec_error_of(alloc, "Decode message failed. ", error)),
        },
    }
}

/// Decodes an item as `decode_item` does, and returns `None` at the end of the stream, `Eof`.
pub fn decode_item_or_end<M: Codec>(alloc: Global, given: Result<Blob>) -> Result<Option<M>>
where
    M::E: Display + Drop,
    ensures { TellsItemOrEnd M.meaning M.E.is_no_memory M.E.output given result }
{
    match given {
        Err(Error::Eof) => Ok(None),
        given => match decode_item(alloc, given) {
            Ok(item) => Ok(Some(item)),
            Err(error) => Err(error),
        },
    }
}
