//! The common parts of packets of halves that mask: a head with the algorithm's number, the half's own part and the
//! data's length, and then the data with a key on them.
ghost use Rattle.std.specs.Prelude.{◌≤◌, ◌+◌, length, IfOk};

use std::alloc::Global;
use ttrpc_secure::TransformError;
use ttrpc_wire::Text;

/// The number that each head begins with, as two bytes.
pub const ALGORITHM: u16 = 1;

/// The key on each pair of bytes, if a half adds nothing to it.
pub const KEY: u16 = 0xa5a5;

/// Returns a packet of data under a key: this start, the data's length as four bytes, and the data. A byte is added to
/// the data if their length is odd.
pub fn packet_of(
    alloc: Global,
    start: &[u8],
    data: &[u8],
    key: u16,
) -> Result<Vec<u8>, TransformError>
    ensures { IfOk result
        (λ packet. length packet.items ≤ length start.now + length «data».now + 5) }
{
    let Ok(length) = u32::try_from(data.len()) else {
        return Err(refusal(alloc, "xor: data too long")?);
    };
    let mut masked = Vec::from_slice(alloc, data)?;
    if length % 2 == 1 {
        masked.push(0)?;
    }
    mask(masked.as_mut_slice(), key);
    let mut packet = Vec::from_slice(alloc, start)?;
    packet.extend_from_slice(&length.to_be_bytes())?;
    packet.extend_from_slice(masked.as_slice())?;
    Ok(packet)
}

/// Returns the data of a packet under a key: the bytes after its head, but at most the number that its head states.
pub fn data_of(
    alloc: Global,
    masked: &[u8],
    length: u32,
    key: u16,
) -> Result<Vec<u8>, TransformError> {
    if masked.len() % 2 == 1 {
        return Err(refusal(alloc, "xor: encrypted data has odd length")?);
    }
    let mut data = Vec::from_slice(alloc, masked)?;
    mask(data.as_mut_slice(), key);
    data.truncate(length as usize);
    Ok(data)
}

/// Refuses a packet if its head begins with another number.
pub fn check_algorithm(alloc: Global, algorithm: u16) -> Result<(), TransformError> {
    if algorithm != ALGORITHM {
        let why = format!(in alloc; "xor: unknown algo 0x{algorithm:04X}")?;
        return Err(TransformError::Refused(Text::from_string(why)));
    }
    Ok(())
}

/// Returns the refusal of a packet that is shorter than its head.
pub fn too_short(
    alloc: Global,
    count: usize,
    head: usize,
) -> Result<TransformError, TransformError> {
    let why = format!(in alloc; "xor: packet too short ({count} < {head})")?;
    Ok(TransformError::Refused(Text::from_string(why)))
}

fn refusal(alloc: Global, why: &str) -> Result<TransformError, TransformError> {
    Ok(TransformError::Refused(Text::from_str(alloc, why)?))
}

/// Puts the key on each pair of bytes, or takes it off.
fn mask(bytes: &mut [u8], key: u16) {
    let key = key.to_be_bytes();
    for (place, byte) in bytes.iter_mut().enumerate() {
        *byte ^= key[place % 2];
    }
}
