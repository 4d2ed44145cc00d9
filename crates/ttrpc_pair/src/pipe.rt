//! The pipe that holds the bytes in flight to one side.
ghost use Rattle.std.specs.Prelude.{◌≡◌, ◌+◌, ◌++◌, ◌<◌, ◌≤◌, [], length, take, drop, if◌then◌else◌, true, false, OnOk, OnErr};
ghost use Rattle.ttrpc_pair.specs.Pipes.{is_over};

use std::alloc::{AllocError, Global};
use std::marker::Model;

/// The bytes that one side has written and the other hasn't taken yet. A pipe that was cut loses all bytes that are
/// written later.
#[derive(Debug, Drop)]
pub struct Pipe {
    bytes: Vec<u8>,
    cut: bool,
}

impl Model for Pipe {
    ghost use Rattle.ttrpc_pair.specs.Pipes.{Pipe as APipe};

    ghost Value = { APipe };

    ghost view = { λ a. record { bytes = a.bytes.items; cut = a.cut } };
}

impl Pipe {
    /// Returns an empty pipe that wasn't cut. Takes no memory.
    pub fn new(alloc: Global) -> Pipe
        ensures { result ≡ record { bytes = []; cut = false } }
    {
        Pipe {
            bytes: Vec::new(alloc),
            cut: false,
        }
    }

    /// Returns the bytes in flight.
    pub fn as_slice(&self) -> &[u8]
        ensures { result.now ≡ self.now.bytes }
    {
        self.bytes.as_slice()
    }

    /// Appends these bytes, or loses them if the pipe was cut. An error changes nothing, and is returned only if `bytes`
    /// isn't empty.
    pub fn put(&mut self, bytes: &[u8]) -> Result<(), AllocError>
        ensures ok { OnOk result (self.new ≡ record {
          bytes = (if self.old.cut then self.old.bytes else self.old.bytes ++ bytes.now);
          cut = self.old.cut;
        }) }
        ensures err { OnErr result (self.new ≡ self.old) }
        ensures some { OnErr result (0 < length bytes.now) }
    {
        if self.cut || bytes.is_empty() {
            return Ok(());
        }
        self.bytes.extend_from_slice(bytes)
    }

    /// Replaces all bytes from `at` on by these, unless the pipe was cut. Takes no memory.
    pub fn replace_from(&mut self, at: usize, bytes: &[u8])
        requires { self.old.cut ≡ false → at + length bytes.now ≤ length self.old.bytes }
        ensures { self.new ≡ record {
          bytes = (if self.old.cut then self.old.bytes else take at self.old.bytes ++ bytes.now);
          cut = self.old.cut;
        } }
    {
        if !self.cut {
            let end = at + bytes.len();
            self.bytes[at..end].copy_from_slice(bytes);
            self.bytes.truncate(end);
        }
    }

    /// Removes the first `n` bytes.
    pub fn drop_front(&mut self, n: usize)
        requires { n ≤ length self.old.bytes }
        ensures { self.new ≡ record { bytes = drop n self.old.bytes; cut = self.old.cut } }
    {
        drop(self.bytes.drain(..n));
    }

    /// Cuts the pipe: keeps the first `keep` bytes, and loses the others and all later ones. Takes no memory.
    pub fn cut(&mut self, keep: usize)
        ensures { self.new ≡ record { bytes = take keep self.old.bytes; cut = true } }
    {
        self.bytes.truncate(keep);
        self.cut = true;
    }

    /// Returns whether the pipe was cut and has no bytes left to deliver.
    pub fn is_over(&self) -> bool
        ensures { result ≡ is_over self.now }
    {
        self.cut && self.bytes.is_empty()
    }
}
