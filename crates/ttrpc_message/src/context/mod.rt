//! The context of a request: its metadata and its time limit.

mod pairs;

ghost use Rattle.std.specs.Prelude.{◌≡◌, ◌≢◌, ◌<◌, ◌≤◌, ◌^◌, [], codes, string_bytes, IfOk, IfErr, OnOk, OnErr, pos};
ghost use Rattle.std.specs.Duration.{as_nanos};
ghost use Rattle.ttrpc_message.specs.Metadata.{Adds, Sets, lower, seen, some_texts, texts};

pub use self::pairs::{from_pb, to_pb};
use crate::context::pairs::push;
use std::alloc::{AllocError, Global};
use std::collections::BTreeMap;
use std::marker::Model;
use std::time::Duration;
use ttrpc_proto::{Error, Result};
use ttrpc_wire::{Text, TryClone};

/// The data that goes with a request: texts under keys, and a time limit.
#[derive(Debug, Drop)]
pub struct Context {
    /// The texts of each key, in order.
    pub metadata: BTreeMap<String, Vec<String>>,
    /// The time that the request may take, in nanoseconds; 0 for no limit.
    pub timeout_nano: i64,
}

impl Model for Context {
    ghost use Rattle.ttrpc_message.specs.Metadata.{Carried, seen};

    ghost Value = { Carried };

    ghost view = { λ c.
        record { metadata = seen c.metadata.entries; timeout_nano = c.timeout_nano } };
}

impl Context {
    /// Makes a context without metadata and without a time limit. Takes no memory.
    pub fn new(alloc: Global) -> Context
        ensures { result ≡ record { metadata = []; timeout_nano = pos 0 } }
    {
        with_timeout(alloc, 0)
    }

    /// Adds a text for a key. The key's ASCII capitals are turned into small letters first. After an error nothing has changed.
    pub fn add(&mut self, alloc: Global, key: String, value: String) -> Result<()>
        ensures ok { OnOk result (Adds self.old.metadata (lower (string_bytes key))
            (string_bytes value) self.new.metadata) }
        ensures timeout { self.new.timeout_nano ≡ self.old.timeout_nano }
        ensures only_memory { IfErr result (λ e. e ≡ Error.NoMemory) }
        ensures err { OnErr result (self.new ≡ self.old) }
    {
        push(alloc, &mut self.metadata, lowered(key), value)
    }

    /// Sets the texts of a key, in place of the texts that it had. The key's ASCII capitals are turned into small letters first. If there
    /// are no texts, the key is removed, and no memory is asked for. After an error nothing has changed.
    pub fn set(&mut self, key: String, values: Vec<String>) -> Result<()>
        // At an `Ok` the key in small letters has these texts, and other keys have those that they had. The timeout is unchanged.
        ensures ok { OnOk result (Sets self.old.metadata (lower (string_bytes key))
            (some_texts (texts values)) self.new.metadata) }
        ensures timeout { self.new.timeout_nano ≡ self.old.timeout_nano }
        // An error is `NoMemory`, comes only if there are texts, and changes nothing.
        ensures only_memory { IfErr result (λ e. e ≡ Error.NoMemory) }
        ensures some_texts { OnErr result (values.items ≢ []) }
        ensures err { OnErr result (self.new ≡ self.old) }
    {
        let key = lowered(key);
        if values.as_slice().is_empty() {
            let _ = self.metadata.remove(key.as_str());
            return Ok(());
        }
        self.metadata.insert(key, values)?;
        Ok(())
    }
}

impl TryClone for Context {
    fn try_clone(&self) -> std::result::Result<Context, AllocError> {
        Ok(Context {
            metadata: self.metadata.clone()?,
            timeout_nano: self.timeout_nano,
        })
    }
}

/// Turns a key's ASCII capitals into small letters. Takes no memory.
fn lowered(mut key: String) -> String
    ensures { string_bytes result ≡ lower (string_bytes key) }
{
    key.make_ascii_lowercase();
    key
}

/// Makes a context with this time limit in nanoseconds, and without metadata. Takes no memory.
pub fn with_timeout(alloc: Global, i: i64) -> Context
    ensures { result ≡ record { metadata = []; timeout_nano = i } }
{
    Context {
        metadata: BTreeMap::new(alloc),
        timeout_nano: i,
    }
}

/// Makes a context with this time limit, and without metadata. Refuses only a duration of more nanoseconds than an `i64` holds. A duration
/// that fits takes no memory.
pub fn with_duration(alloc: Global, du: Duration) -> Result<Context>
    ensures ok { IfOk result (λ context. (context.metadata ≡ [])
        × (context.timeout_nano ≡ pos (as_nanos du)) × (as_nanos du < 2 ^ 63)) }
    ensures too_long { OnErr result (2 ^ 63 ≤ as_nanos du) }
    // Memory for the text of the error may be refused.
    ensures told { IfErr result
        (λ e. e ≢ Error.NoMemory → e ≡ Error.Others (codes "timeout does not fit")) }
{
    let nanos = du.as_nanos();
    if nanos > i64::MAX as u128 {
        return Err(Error::Others(Text::from_str(alloc, "timeout does not fit")?));
    }
    Ok(with_timeout(alloc, nanos as i64))
}

/// Makes a context with this metadata, and without a time limit. Takes no memory.
pub fn with_metadata(md: BTreeMap<String, Vec<String>>) -> Context
    ensures { result ≡ record { metadata = seen md.entries; timeout_nano = pos 0 } }
{
    Context {
        metadata: md,
        timeout_nano: 0,
    }
}
