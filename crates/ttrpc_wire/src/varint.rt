//! Reading a varint. No call takes memory.
ghost use Rattle.std.specs.Prelude.{◌≡◌, ◌+◌, ◌*◌, ◌<◌, ◌∷◌, [], IfSome, IfNone};
ghost use Rattle.ttrpc_wire.specs.Reading.{Reads, varint_at, varint_upto};

use crate::values::CodecError;

/// Reads the varint at the front, and returns its number and the bytes after it.
#[inline]
#[tactic(auto, unfolding(crate::specs::Reading::varint_at, crate::specs::Reading::varint_upto))]
pub(crate) fn varint_of(bytes: &[u8]) -> Result<(u64, &[u8]), CodecError>
    ensures { Reads (λ x. (x.0, x.1.now)) result (varint_at bytes.now) }
{
    match bytes {
        [byte, rest @ ..] if *byte < 128 => Ok((*byte as u64, rest)),
        _ => long_varint(bytes),
    }
}

/// Returns the first byte and the bytes after it, or `None` if there are no bytes.
#[inline]
fn first(bytes: &[u8]) -> Option<(u8, &[u8])>
    ensures some { IfSome result (λ x. bytes.now ≡ x.0 ∷ x.1.now) }
    ensures none { IfNone result (bytes.now ≡ []) }
{
    match bytes {
        [] => None,
        [byte, rest @ ..] => Some((*byte, rest)),
    }
}

/// Does the same as `varint_of`, by a loop. Nine bytes have 63 bits, so the tenth has one more.
fn long_varint(bytes: &[u8]) -> Result<(u64, &[u8]), CodecError>
    ensures { Reads (λ x. (x.0, x.1.now)) result (varint_at bytes.now) }
{
    let mut rest = bytes;
    let mut value: u64 = 0;
    let mut scale: u64 = 1;
    for i in 0..9u8 {
        let Some((byte, after)) = first(rest) else {
            return Err(CodecError::Truncated);
        };
        rest = after;
        let byte = byte as u64;
        if byte < 128 {
            return Ok((value + byte * scale, rest));
        }
        value += (byte - 128) * scale;
        scale *= 128;
    }
    let Some((byte, after)) = first(rest) else {
        return Err(CodecError::Truncated);
    };
    if byte > 1 {
        return Err(CodecError::BadVarint);
    }
    Ok((value + byte as u64 * scale, after))
}
