//! Bytes in one ring. Their start stays at its place as long as it can. Only `with_capacity` takes memory.
ghost use Rattle.std.specs.Prelude.{◌≡◌, ◌-◌, ◌+◌, ◌≤◌, ◌++◌, ℕ, List, [], length, take, drop, min, IfOk};
ghost use Rattle.circular_buffer.specs.Buffer.{buffer};

use circular_buffer::HeapCircularBuffer;
use std::alloc::{AllocError, Global};
use std::marker::Model;

/// The least number of passed bytes before the rest is moved back to the ring's start.
const PASSED_MIN: usize = 131_072;

/// The greatest number of bytes that are moved back to the ring's start.
const PUT_BACK_MAX: usize = 16_384;

/// Bytes in order, which are appended at the end and taken from the front. Bytes that were taken stay in the ring until
/// they are in the way, so that the same memory is used again.
#[derive(Debug, Drop)]
pub struct ByteRing {
    ring: HeapCircularBuffer<u8>,
    // The number of the ring's first bytes that were taken.
    passed: usize,
}

impl Model for ByteRing {
    ghost use Rattle.std.specs.Prelude.{ℕ, ◌≤◌, length, drop};
    ghost use Rattle.circular_buffer.specs.Buffer.{Buffer, buffer};

    ghost Value = { Buffer ℕ };

    ghost view = { λ a. buffer (drop a.passed a.ring.items) a.ring.capacity };

    ghost invariant = { λ a. a.passed ≤ length a.ring.items };
}

impl ByteRing {
    /// Returns no bytes, in a ring with room for this many.
    pub fn with_capacity(alloc: Global, capacity: usize) -> Result<ByteRing, AllocError>
        ensures { IfOk result (λ b. b ≡ buffer [] capacity) }
    {
        Ok(ByteRing {
            ring: HeapCircularBuffer::with_capacity(alloc, capacity)?,
            passed: 0,
        })
    }

    /// Returns the number of bytes.
    pub fn len(&self) -> usize
        ensures len { result ≡ length self.now.items }
        ensures within { result ≤ self.now.capacity }
    {
        self.ring.len() - self.passed
    }

    /// Returns the number of bytes that the ring has room for.
    pub fn free(&self) -> usize
        ensures free { result ≡ self.now.capacity - length self.now.items }
        ensures within { length self.now.items ≤ self.now.capacity }
    {
        self.ring.capacity() - self.len()
    }

    /// Appends these bytes. Takes the passed bytes out first if they are in the way.
    pub fn put(&mut self, bytes: &[u8])
        requires { length self.old.items + length bytes.now ≤ self.old.capacity }
        ensures { self.new ≡ buffer (self.old.items ++ bytes.now) self.old.capacity }
    {
        let len = self.ring.len();
        if self.ring.capacity() - len < bytes.len() {
            self.ring.truncate_front(len - self.passed);
            self.passed = 0;
        }
        let _all = self.ring.fill_from_slice(bytes);
    }

    /// Appends this many bytes that nobody reads.
    pub fn put_unread(&mut self, count: usize)
        requires { length self.old.items + count ≤ self.old.capacity }
        ensures { (unread : List ℕ) × (length unread ≡ count)
            × (self.new ≡ buffer (self.old.items ++ unread) self.old.capacity) }
    {
        let mut left = count;
        while left > 0 {
            let unread = [0u8; 256];
            let piece = left.min(unread.len());
            self.put(&unread[..piece]);
            left -= piece;
        }
    }

    /// Copies the first bytes, as many as the slice holds.
    pub fn copy_to(&self, to: &mut [u8])
        requires { length to.old ≤ length self.now.items }
        ensures { to.new ≡ take (length to.old) self.now.items }
    {
        let (front, back) = self.as_slices();
        copy_both(front, back, to);
    }

    /// Returns all bytes, in two slices.
    pub fn as_slices(&self) -> (&[u8], &[u8])
        ensures { result.0.now ++ result.1.now ≡ self.now.items }
    {
        let (front, back) = self.ring.as_slices();
        slices_after(front, back, self.passed)
    }

    /// Takes the first `n` bytes. If no bytes are left, or few are left far from the ring's start, the ring begins at
    /// its start again.
    pub fn pass(&mut self, n: usize)
        requires { n ≤ length self.old.items }
        ensures { self.new ≡ buffer (drop n self.old.items) self.old.capacity }
    {
        let left = self.len() - n;
        if left == 0 {
            self.ring.clear();
            self.passed = 0;
            return;
        }
        self.passed = self.ring.len() - left;
        if self.passed >= PASSED_MIN && left <= PUT_BACK_MAX {
            self.put_back();
        }
    }

    // Moves the bytes back to the ring's start. This is a function of its own so that its stack is touched only here.
    fn put_back(&mut self)
        requires { length self.old.items ≤ PUT_BACK_MAX }
        ensures { self.new ≡ self.old }
    {
        let mut kept = [0u8; PUT_BACK_MAX];
        let n = self.copy_all(&mut kept);
        self.ring.clear();
        self.passed = 0;
        self.put(&kept[..n]);
    }

    // Copies all bytes to the front of a slice, and returns their number.
    fn copy_all(&self, to: &mut [u8]) -> usize
        requires { length self.now.items ≤ length to.old }
        ensures count { result ≡ length self.now.items }
        ensures within { result ≤ self.now.capacity }
        ensures copied { take result to.new ≡ self.now.items }
    {
        let n = self.len();
        self.copy_to(&mut to[..n]);
        n
    }

    /// Keeps only the first `n` bytes.
    pub fn cut(&mut self, n: usize)
        requires { n ≤ length self.old.items }
        ensures { self.new ≡ buffer (take n self.old.items) self.old.capacity }
    {
        let away = self.len() - n;
        self.ring.truncate_back(self.ring.len() - away);
    }
}

// Copies the first bytes, as many as fit, and returns their number.
fn copy_front(from: &[u8], to: &mut [u8]) -> usize
    ensures count { result ≡ min (length to.old) (length from.now) }
    ensures copied { to.new ≡ take result from.now ++ drop result to.old }
{
    let count = from.len().min(to.len());
    to[..count].copy_from_slice(&from[..count]);
    count
}

// Returns two slices without their first `n` bytes.
fn slices_after<'a>(front: &'a [u8], back: &'a [u8], n: usize) -> (&'a [u8], &'a [u8])
    requires { n ≤ length front.now + length back.now }
    ensures { result.0.now ++ result.1.now ≡ drop n (front.now ++ back.now) }
{
    let in_front = n.min(front.len());
    (&front[in_front..], &back[n - in_front..])
}

// Copies the first bytes of two slices, as many as this slice holds.
fn copy_both(front: &[u8], back: &[u8], to: &mut [u8])
    requires { length to.old ≤ length front.now + length back.now }
    ensures { to.new ≡ take (length to.old) (front.now ++ back.now) }
{
    let in_front = copy_front(front, to);
    let _in_back = copy_front(back, &mut to[in_front..]);
}
