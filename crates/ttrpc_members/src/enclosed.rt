//! Messages that may contain themselves: a message in another one is kept as its bytes.
ghost use Rattle.std.specs.Prelude.{◌≡◌, ◌≢◌, ◌≤◌, ◌^◌, ◌⊎◌, [], length, List, ℕ, Some, None, IfOk, IfErr, OnErr};
ghost use Rattle.ttrpc_wire.specs.Field.{fields_bytes};
ghost use Rattle.ttrpc_wire.specs.Fold.{Gives, read_from};
ghost use Rattle.ttrpc_members.specs.Nesting.{TellsDepth, nested_upto, with_more, within};

use crate::item::{ItemKind, delimited_len, put_delimited};
use crate::nesting::{Recursive, check};
use std::alloc::{AllocError, Global};
use std::marker::{Model, PhantomData};
use ttrpc_wire::codec::message::{WireMessage, decode, encode};
use ttrpc_wire::{CodecError, Reader, TryClone, Value, WireType};

/// A message that may contain the one that it is in, kept as its bytes. Contracts see it as the list of these bytes. They are fields of the
/// message, and of the messages in it, in at most 100 levels.
#[derive(Drop)]
pub struct Enclosed<R: Recursive> {
    bytes: Vec<u8>,
    of: PhantomData<R>,
}

impl<R: Recursive> Model for Enclosed<R> {
    ghost use Rattle.std.specs.Prelude.{◌≡◌, ℕ, List, Some};
    ghost use Rattle.ttrpc_members.specs.Nesting.{within};

    ghost Value = { List ℕ };

    ghost view = { λ enclosed. enclosed.bytes.items };

    ghost invariant = { λ enclosed. within R.rules R.message enclosed.bytes.items ≡ Some tt };
}

/// A message that may contain itself, with the rules for its bytes when it is in another message.
pub trait Enclosable: WireMessage {
    ghost use Rattle.std.specs.Prelude.{◌≢◌, None};

    type Rules: Recursive;

    /// Bytes that are accepted as the message mean one.
    ghost reads: { (bytes : List ℕ) → within Self.Rules.rules Self.Rules.message bytes ≡ Some tt
        → read_from Self.step Self.empty bytes ≢ None };

    /// Bytes that mean a message are accepted in some number of levels.
    ghost deep: { (bytes : List ℕ) → read_from Self.step Self.empty bytes ≢ None
        → (levels : ℕ) × (nested_upto Self.Rules.rules levels Self.Rules.message bytes ≡ Some tt) };
}

impl<R: Recursive> Enclosed<R> {
    /// Makes the message without fields. Takes no memory.
    #[tactic(auto, using(crate::proofs::NestingLaws::nothing_within))]
    pub fn new(alloc: Global) -> Enclosed<R>
        ensures { result ≡ [] }
    {
        Enclosed {
            bytes: Vec::new(alloc),
            of: PhantomData,
        }
    }

    /// Makes the message that has these bytes as its fields. The error is `TooDeep` if messages in it nest in 100 levels or more. Any other
    /// error, except that of refused memory, comes only if the bytes mean no message, however deep they nest.
    pub fn from_bytes(alloc: Global, bytes: &[u8]) -> Result<Enclosed<R>, CodecError>
        ensures taken { Gives (λ enclosed. enclosed) result
            (with_more (within R.rules R.message) [] bytes.now) }
        ensures told { IfErr result (λ e. e ≢ CodecError.NoMemory
            → TellsDepth e (λ k. nested_upto R.rules k R.message bytes.now)) }
    {
        let mut enclosed = Enclosed::new(alloc);
        enclosed.append(bytes)?;
        Ok(enclosed)
    }

    /// Adds more fields, as if they followed those of the message, with the errors of `from_bytes`. After an error nothing has changed.
    #[tactic(auto, using(crate::proofs::NestingLaws::more_within))]
    pub fn append(&mut self, bytes: &[u8]) -> Result<(), CodecError>
        ensures taken { Gives (λ _. self.new) result
            (with_more (within R.rules R.message) self.old bytes.now) }
        ensures told { IfErr result (λ e. e ≢ CodecError.NoMemory
            → TellsDepth e (λ k. nested_upto R.rules k R.message bytes.now)) }
        ensures err { OnErr result (self.new ≡ self.old) }
    {
        check::<R>(bytes)?;
        self.bytes.extend_from_slice(bytes)?;
        Ok(())
    }

    /// Makes the written form of the message. The error is `TooLong` if that is 2^32 bytes or longer, and `TooDeep` if messages in it nest
    /// in 100 levels already. The only other error is that of refused memory.
    pub fn from_message<M: Enclosable<Rules = R>>(
        alloc: Global,
        message: &M,
    ) -> Result<Enclosed<R>, CodecError>
        ensures ok { IfOk result (λ enclosed. enclosed ≡ fields_bytes (M.fields message.now)) }
        ensures refused { IfErr result (λ e. e ≢ CodecError.NoMemory
            → ((e ≡ CodecError.TooLong) × (2 ^ 32 ≤ length (fields_bytes (M.fields message.now))))
            ⊎ ((e ≡ CodecError.TooDeep)
            × (within R.rules R.message (fields_bytes (M.fields message.now)) ≡ None))) }
    {
        let bytes = encode(alloc, message)?;
        check::<R>(bytes.as_slice())?;
        let of = PhantomData;
        Ok(Enclosed { bytes, of })
    }

    /// Returns the message that the bytes mean. The messages in it are kept as their bytes again. Only refused memory is an error.
    pub fn message<M: Enclosable<Rules = R>>(&self, alloc: Global) -> Result<M, CodecError>
        ensures ok { IfOk result (λ m. read_from M.step M.empty self.now ≡ Some m) }
        ensures memory { IfErr result (λ e. e ≡ CodecError.NoMemory) }
    {
        self.lemma_is_within();
        decode(alloc, self.as_bytes())
    }

    /// Returns the message that the bytes mean, as `message` does, and releases the bytes. A walk that takes each message out of the one
    /// before holds no byte more than twice, however deep the messages nest.
    pub fn into_message<M: Enclosable<Rules = R>>(self, alloc: Global) -> Result<M, CodecError>
        ensures ok { IfOk result (λ m. read_from M.step M.empty self ≡ Some m) }
        ensures memory { IfErr result (λ e. e ≡ CodecError.NoMemory) }
    {
        self.message(alloc)
    }

    /// Returns a reader of the fields in place: the bytes of a message in it are lent, and nothing is copied.
    pub fn reader(&self) -> Reader<'_>
        ensures { result ≡ self.now }
    {
        Reader::new(self.as_bytes())
    }

    /// Returns the bytes.
    pub fn as_bytes(&self) -> &[u8]
        ensures { result.now ≡ self.now }
    {
        self.bytes.as_slice()
    }

    /// A lemma, which does nothing when it runs: the bytes are fields of the message.
    fn lemma_is_within(&self)
        ensures { within R.rules R.message self.now ≡ Some tt }
    {
        let _bytes = &self.bytes;
    }
}

impl<R: Recursive> TryClone for Enclosed<R> {
    fn try_clone(&self) -> Result<Enclosed<R>, AllocError> {
        let bytes = Vec::from_slice(*self.bytes.allocator(), self.bytes.as_slice())?;
        let of = PhantomData;
        Ok(Enclosed { bytes, of })
    }
}

/// The kind of a message that may contain the one that it is in.
pub struct Enclosing<R> {
    of: PhantomData<R>,
}

impl<R: Recursive> ItemKind for Enclosing<R> {
    ghost use Rattle.std.specs.Prelude.{refl};
    ghost use Rattle.ttrpc_members.specs.Items.{enclosed};
    ghost use Rattle.ttrpc_members.specs.Nesting.{within};

    type Item = Enclosed<R>;

    ghost form = { enclosed (within R.rules R.message) };

    fn first(alloc: Global) -> Enclosed<R> {
        Enclosed::new(alloc)
    }

    fn is_first(_item: &Enclosed<R>) -> bool {
        false
    }

    fn read(item: &mut Enclosed<R>, _alloc: Global, value: Value<'_>) -> Result<bool, CodecError> {
        let Value::LengthDelimited(bytes) = value else {
            return Ok(false);
        };
        item.append(bytes)?;
        Ok(true)
    }

    fn wire_type() -> WireType {
        WireType::LengthDelimited
    }

    fn value_len(item: &Enclosed<R>) -> u64 {
        delimited_len(item.as_bytes())
    }

    fn write_value(item: &Enclosed<R>, out: &mut Vec<u8>) -> Result<(), CodecError> {
        put_delimited(out, item.as_bytes())?;
        Ok(())
    }

    fn try_clone(item: &Enclosed<R>) -> Result<Enclosed<R>, AllocError> {
        item.try_clone()
    }

    fn lemma_is_value(item: &Enclosed<R>) {
        item.lemma_is_within();
    }

    ghost typed = { λ _. refl };
}
