//! Metadata as the pairs of an envelope.
ghost use Rattle.std.specs.Prelude.{◌≡◌, ◌++◌, ℕ, List, [], string_bytes, IfOk, IfErr, OnOk, OnErr};
ghost use Rattle.std.specs.List.Sorted.{IsStrictlySortedBy};
ghost use Rattle.std.specs.Map.{keys_of};
ghost use Rattle.std.specs.Option.{unwrap_or};
ghost use Rattle.std.specs.String.{string_cmp};
ghost use Rattle.ttrpc_message.specs.Metadata.{Adds, pairs_at, pairs_of, seen, some_texts, texts as texts_in, texts_of, values_at};

use std::alloc::Global;
use std::collections::BTreeMap;
use ttrpc_proto::{Error, KeyValue, Result};
use ttrpc_wire::{Text, TryClone};

/// Collects pairs to metadata: each key with its values, in order.
pub fn from_pb(alloc: Global, kvs: &[KeyValue]) -> Result<BTreeMap<String, Vec<String>>>
    ensures ok { IfOk result (λ metadata. (key : List ℕ)
        → texts_of (seen metadata.entries) key ≡ some_texts (values_at kvs.now key)) }
    ensures only_memory { IfErr result (λ e. e ≡ Error.NoMemory) }
{
    let mut metadata = BTreeMap::new(alloc);
    for pair in kvs {
        let key = pair.key.try_clone()?.into_string();
        let value = pair.value.try_clone()?.into_string();
        push(alloc, &mut metadata, key, value)?;
    }
    Ok(metadata)
}

/// Converts metadata to pairs: one for each text, by rising keys.
pub fn to_pb(alloc: Global, kvs: BTreeMap<String, Vec<String>>) -> Result<Vec<KeyValue>>
    ensures ok { IfOk result (λ pairs. pairs.items ≡ pairs_of (seen kvs.entries)) }

    // So `from_pb` of these pairs gives the metadata without the keys that have no text.
    ensures again { IfOk result (λ pairs. (key : List ℕ)
        → values_at pairs.items key ≡ unwrap_or (texts_of (seen kvs.entries) key) []) }
    ensures rising { IsStrictlySortedBy string_cmp (keys_of kvs.entries) }
    ensures only_memory { IfErr result (λ e. e ≡ Error.NoMemory) }
{
    let pairs = Vec::with_capacity(alloc, kvs.len())?;
    all_pairs(pairs, kvs)
}

/// Appends a pair for each text of a map.
fn all_pairs(mut pairs: Vec<KeyValue>, kvs: BTreeMap<String, Vec<String>>) -> Result<Vec<KeyValue>>
    requires { pairs.items ≡ [] }
    ensures ok { IfOk result (λ all. all.items ≡ pairs_of (seen kvs.entries)) }
    ensures only_memory { IfErr result (λ e. e ≡ Error.NoMemory) }
{
    for (key, texts) in kvs {
        push_pairs(&mut pairs, &Text::from_string(key), texts)?;
    }
    Ok(pairs)
}

/// Appends a pair for each text of a key.
fn push_pairs(pairs: &mut Vec<KeyValue>, key: &Text, texts: Vec<String>) -> Result<()>
    ensures ok { OnOk result
        (pairs.new.items ≡ pairs.old.items ++ pairs_at key.now (texts_in texts)) }
    ensures only_memory { IfErr result (λ e. e ≡ Error.NoMemory) }
{
    for text in texts {
        let key = key.try_clone()?;
        let value = Text::from_string(text);
        pairs.push(KeyValue { key, value })?;
    }
    Ok(())
}

/// Adds a text for a key. After an error nothing has changed.
pub(crate) fn push(
    alloc: Global,
    metadata: &mut BTreeMap<String, Vec<String>>,
    key: String,
    value: String,
) -> Result<()>
    ensures ok { OnOk result (Adds (seen metadata.old.entries) (string_bytes key)
        (string_bytes value) (seen metadata.new.entries)) }
    ensures only_memory { IfErr result (λ e. e ≡ Error.NoMemory) }
    ensures err { OnErr result (seen metadata.new.entries ≡ seen metadata.old.entries) }
{
    if let Some(texts) = metadata.get_mut(key.as_str()) {
        texts.push(value)?;
        return Ok(());
    }
    let mut texts = Vec::new(alloc);
    texts.push(value)?;
    metadata.insert(key, texts)?;
    Ok(())
}
