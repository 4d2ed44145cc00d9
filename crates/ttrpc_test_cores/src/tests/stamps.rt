//! The frames of a script between halves that stamp: each has its stamp after its payload.
use std::alloc::{AllocError, Global};
use ttrpc_wire::values::slices::{behind, front};

/// The stamps of the next frame that comes, and of the next that leaves.
#[derive(Drop)]
pub struct Stamps {
    pub comes: u8,
    pub leaves: u8,
}

/// Returns these frames, each with a stamp, which starts at `next`. Bytes that are no whole frame stay as they are.
pub fn stamped(alloc: Global, frames: &[u8], next: &mut u8) -> Result<Vec<u8>, AllocError> {
    let mut stamped = Vec::new(alloc);
    let mut rest = frames;
    for _ in 0..frames.len() {
        let length = length_of(rest);
        let whole = 10_usize.saturating_add(length as usize);
        if rest.len() < whole {
            break;
        }
        stamped.extend_from_slice(&length.wrapping_add(1).to_be_bytes())?;
        stamped.extend_from_slice(behind(front(rest, whole), 4))?;
        stamped.push(*next)?;
        *next = next.wrapping_add(1);
        rest = behind(rest, whole);
    }
    stamped.extend_from_slice(rest)?;
    Ok(stamped)
}

/// Returns the bytes between two places of these frames. Each frame that ends after the first place and no later than
/// the second has its stamp, which starts at `next`.
pub fn stamped_part(
    alloc: Global,
    frames: &[u8],
    from: usize,
    to: usize,
    next: &mut u8,
) -> Result<Vec<u8>, AllocError> {
    let (before, ended) = (ended_at(frames, from), ended_at(frames, to));
    let mut first = next.wrapping_sub(before);
    let bytes = stamped(alloc, frames, &mut first)?;
    *next = next.wrapping_add(ended.wrapping_sub(before));
    let to = to.saturating_add(usize::from(ended));
    let from = from.saturating_add(usize::from(before));
    let mut part = Vec::new(alloc);
    part.extend_from_slice(behind(front(bytes.as_slice(), to), from))?;
    Ok(part)
}

/// Returns how many of these frames end at this place or before it.
fn ended_at(frames: &[u8], place: usize) -> u8 {
    let mut ended: u8 = 0;
    let mut rest = front(frames, place);
    for _ in 0..frames.len() {
        let whole = 10_usize.saturating_add(length_of(rest) as usize);
        if rest.len() < whole {
            break;
        }
        ended = ended.wrapping_add(1);
        rest = behind(rest, whole);
    }
    ended
}

/// Returns the length that the first four bytes state.
fn length_of(frames: &[u8]) -> u32 {
    let mut length: u32 = 0;
    for byte in front(frames, 4) {
        length = length.wrapping_mul(256).wrapping_add(u32::from(*byte));
    }
    length
}
