//! The messages of well_known.proto.
//! Written by tools/messages from ../../tools/proto/include/well_known.proto: change that, and run the tool.

use std::alloc::{AllocError, Global};
use ttrpc_members::choice::Choice;
use ttrpc_members::enclosed::{Enclosable, Enclosed, Enclosing};
use ttrpc_members::entries::MapOf;
use ttrpc_members::item::{
    Bits32, Bits64, Boolean, Bytes, Int32, Int64, ItemKind, Uint32, Uint64, Utf8,
};
use ttrpc_members::kind::{MemberKind, Repeated, Single, item_len, put_item};
use ttrpc_members::map::Map;
use ttrpc_members::named::Named;
use ttrpc_members::nesting::{Content, Recursive, Rule};
use ttrpc_wire::codec::message::WireMessage;
use ttrpc_wire::{Blob, CodecError, Field, FieldNumber, Sequence, Text, TryClone, Value};

/// Null.
pub const NULL_VALUE_NULL_VALUE: i32 = 0;

/// A message of any type, with the address of its type.
#[derive(Drop)]
pub struct Any {
    /// The address, whose last part is the type's name.
    pub type_url: Text,
    /// The message's bytes.
    pub value: Blob,
}

const ANY_TYPE_URL: FieldNumber = FieldNumber { value: 1 };

const ANY_VALUE: FieldNumber = FieldNumber { value: 2 };

impl TryClone for Any {
    fn try_clone(&self) -> Result<Any, AllocError> {
        let type_url = Single::<Utf8>::try_clone(&self.type_url)?;
        let value = Single::<Bytes>::try_clone(&self.value)?;
        Ok(Any { type_url, value })
    }
}

impl WireMessage for Any {
    ghost use Rattle.ttrpc_well_known.specs.Messages.{any};

    ghost is_value = { any.part.is_value };

    ghost empty = { any.part.empty };

    ghost step = { any.part.step };

    ghost fields = { any.part.fields };

    fn new(alloc: Global) -> Any {
        Any {
            type_url: Single::<Utf8>::empty(alloc),
            value: Single::<Bytes>::empty(alloc),
        }
    }

    fn put(&mut self, alloc: Global, field: Field<'_>) -> Result<(), CodecError> {
        match field.number.value {
            1 => Single::<Utf8>::take(&mut self.type_url, alloc, field.value),
            2 => Single::<Bytes>::take(&mut self.value, alloc, field.value),
            _ => Ok(()),
        }
    }

    #[tactic(auto, using(ttrpc_members::proofs::Groups::flat_measured))]
    fn length(&self) -> u64 {
        let len: u64 = 0;
        let len = len.saturating_add(Single::<Utf8>::length(&self.type_url, ANY_TYPE_URL));
        len.saturating_add(Single::<Bytes>::length(&self.value, ANY_VALUE))
    }

    #[tactic(auto, using(ttrpc_members::proofs::Groups::flat_written, ttrpc_members::proofs::Groups::flat_len))]
    fn write(&self, out: &mut Vec<u8>) -> Result<(), CodecError> {
        Single::<Utf8>::write(&self.type_url, ANY_TYPE_URL, out)?;
        Single::<Bytes>::write(&self.value, ANY_VALUE, out)
    }

    fn lemma_is_value(&self) {
        Single::<Utf8>::lemma_is_value(&self.type_url);
        Single::<Bytes>::lemma_is_value(&self.value);
    }

    ghost again = { any.laws.again any.valid };

    ghost fits = { any.laws.fits any.valid };
}

impl Named for Any {
    ghost use Rattle.std.specs.Prelude.{codes};

    ghost full_name = { codes "google.protobuf.Any" };

    fn full_name() -> &'static str {
        "google.protobuf.Any"
    }
}

/// A span of time.
#[derive(Drop)]
pub struct Duration {
    /// Whole seconds.
    pub seconds: i64,
    /// Nanoseconds, of the sign of the seconds.
    pub nanos: i32,
}

const DURATION_SECONDS: FieldNumber = FieldNumber { value: 1 };

const DURATION_NANOS: FieldNumber = FieldNumber { value: 2 };

impl TryClone for Duration {
    fn try_clone(&self) -> Result<Duration, AllocError> {
        Ok(Duration {
            seconds: self.seconds,
            nanos: self.nanos,
        })
    }
}

impl WireMessage for Duration {
    ghost use Rattle.ttrpc_well_known.specs.Messages.{duration};

    ghost is_value = { duration.part.is_value };

    ghost empty = { duration.part.empty };

    ghost step = { duration.part.step };

    ghost fields = { duration.part.fields };

    fn new(alloc: Global) -> Duration {
        Duration {
            seconds: Single::<Int64>::empty(alloc),
            nanos: Single::<Int32>::empty(alloc),
        }
    }

    fn put(&mut self, alloc: Global, field: Field<'_>) -> Result<(), CodecError> {
        match field.number.value {
            1 => Single::<Int64>::take(&mut self.seconds, alloc, field.value),
            2 => Single::<Int32>::take(&mut self.nanos, alloc, field.value),
            _ => Ok(()),
        }
    }

    #[tactic(auto, using(ttrpc_members::proofs::Groups::flat_measured))]
    fn length(&self) -> u64 {
        let len: u64 = 0;
        let len = len.saturating_add(Single::<Int64>::length(&self.seconds, DURATION_SECONDS));
        len.saturating_add(Single::<Int32>::length(&self.nanos, DURATION_NANOS))
    }

    #[tactic(auto, using(ttrpc_members::proofs::Groups::flat_written, ttrpc_members::proofs::Groups::flat_len))]
    fn write(&self, out: &mut Vec<u8>) -> Result<(), CodecError> {
        Single::<Int64>::write(&self.seconds, DURATION_SECONDS, out)?;
        Single::<Int32>::write(&self.nanos, DURATION_NANOS, out)
    }

    fn lemma_is_value(&self) {
        Single::<Int64>::lemma_is_value(&self.seconds);
        Single::<Int32>::lemma_is_value(&self.nanos);
    }

    ghost again = { duration.laws.again duration.valid };

    ghost fits = { duration.laws.fits duration.valid };
}

impl Named for Duration {
    ghost use Rattle.std.specs.Prelude.{codes};

    ghost full_name = { codes "google.protobuf.Duration" };

    fn full_name() -> &'static str {
        "google.protobuf.Duration"
    }
}

/// Nothing.
#[derive(Drop)]
pub struct Empty {}

impl TryClone for Empty {
    fn try_clone(&self) -> Result<Empty, AllocError> {
        Ok(Empty {})
    }
}

impl WireMessage for Empty {
    ghost use Rattle.ttrpc_well_known.specs.Messages.{empty};

    ghost is_value = { empty.part.is_value };

    ghost empty = { empty.part.empty };

    ghost step = { empty.part.step };

    ghost fields = { empty.part.fields };

    fn new(_alloc: Global) -> Empty {
        Empty {}
    }

    fn put(&mut self, _alloc: Global, _field: Field<'_>) -> Result<(), CodecError> {
        Ok(())
    }

    #[tactic(auto, using(ttrpc_members::proofs::Groups::flat_measured))]
    fn length(&self) -> u64 {
        0
    }

    #[tactic(auto, using(ttrpc_members::proofs::Groups::flat_written, ttrpc_members::proofs::Groups::flat_len))]
    fn write(&self, _out: &mut Vec<u8>) -> Result<(), CodecError> {
        Ok(())
    }

    fn lemma_is_value(&self) {}

    ghost again = { empty.laws.again empty.valid };

    ghost fits = { empty.laws.fits empty.valid };
}

impl Named for Empty {
    ghost use Rattle.std.specs.Prelude.{codes};

    ghost full_name = { codes "google.protobuf.Empty" };

    fn full_name() -> &'static str {
        "google.protobuf.Empty"
    }
}

/// Some members of a message.
#[derive(Drop)]
pub struct FieldMask {
    /// The way to each, as names joined by dots.
    pub paths: Sequence<Text>,
}

const FIELD_MASK_PATHS: FieldNumber = FieldNumber { value: 1 };

impl TryClone for FieldMask {
    fn try_clone(&self) -> Result<FieldMask, AllocError> {
        let paths = Repeated::<Utf8>::try_clone(&self.paths)?;
        Ok(FieldMask { paths })
    }
}

impl WireMessage for FieldMask {
    ghost use Rattle.ttrpc_well_known.specs.Messages.{field_mask};

    ghost is_value = { field_mask.part.is_value };

    ghost empty = { field_mask.part.empty };

    ghost step = { field_mask.part.step };

    ghost fields = { field_mask.part.fields };

    fn new(alloc: Global) -> FieldMask {
        FieldMask {
            paths: Repeated::<Utf8>::empty(alloc),
        }
    }

    fn put(&mut self, alloc: Global, field: Field<'_>) -> Result<(), CodecError> {
        match field.number.value {
            1 => Repeated::<Utf8>::take(&mut self.paths, alloc, field.value),
            _ => Ok(()),
        }
    }

    #[tactic(auto, using(ttrpc_members::proofs::Groups::flat_measured))]
    fn length(&self) -> u64 {
        let len: u64 = 0;
        len.saturating_add(Repeated::<Utf8>::length(&self.paths, FIELD_MASK_PATHS))
    }

    #[tactic(auto, using(ttrpc_members::proofs::Groups::flat_written, ttrpc_members::proofs::Groups::flat_len))]
    fn write(&self, out: &mut Vec<u8>) -> Result<(), CodecError> {
        Repeated::<Utf8>::write(&self.paths, FIELD_MASK_PATHS, out)
    }

    fn lemma_is_value(&self) {
        Repeated::<Utf8>::lemma_is_value(&self.paths);
    }

    ghost again = { field_mask.laws.again field_mask.valid };

    ghost fits = { field_mask.laws.fits field_mask.valid };
}

impl Named for FieldMask {
    ghost use Rattle.std.specs.Prelude.{codes};

    ghost full_name = { codes "google.protobuf.FieldMask" };

    fn full_name() -> &'static str {
        "google.protobuf.FieldMask"
    }
}

/// An object of JSON.
#[derive(Drop)]
pub struct Struct {
    /// The value of each name.
    pub fields: Map<Text, Enclosed<ValueMessageRules>>,
}

const STRUCT_FIELDS: FieldNumber = FieldNumber { value: 1 };

impl TryClone for Struct {
    fn try_clone(&self) -> Result<Struct, AllocError> {
        let fields = MapOf::<Utf8, Enclosing<ValueMessageRules>>::try_clone(&self.fields)?;
        Ok(Struct { fields })
    }
}

impl WireMessage for Struct {
    ghost use Rattle.ttrpc_well_known.specs.Messages.{struct};

    ghost is_value = { struct.part.is_value };

    ghost empty = { struct.part.empty };

    ghost step = { struct.part.step };

    ghost fields = { struct.part.fields };

    fn new(alloc: Global) -> Struct {
        Struct {
            fields: MapOf::<Utf8, Enclosing<ValueMessageRules>>::empty(alloc),
        }
    }

    fn put(&mut self, alloc: Global, field: Field<'_>) -> Result<(), CodecError> {
        match field.number.value {
            1 => MapOf::<Utf8, Enclosing<ValueMessageRules>>::take(
                &mut self.fields,
                alloc,
                field.value,
            ),
            _ => Ok(()),
        }
    }

    #[tactic(auto, using(ttrpc_members::proofs::Groups::flat_measured))]
    fn length(&self) -> u64 {
        let len: u64 = 0;
        len.saturating_add(MapOf::<Utf8, Enclosing<ValueMessageRules>>::length(
            &self.fields,
            STRUCT_FIELDS,
        ))
    }

    #[tactic(auto, using(ttrpc_members::proofs::Groups::flat_written, ttrpc_members::proofs::Groups::flat_len))]
    fn write(&self, out: &mut Vec<u8>) -> Result<(), CodecError> {
        MapOf::<Utf8, Enclosing<ValueMessageRules>>::write(&self.fields, STRUCT_FIELDS, out)
    }

    fn lemma_is_value(&self) {
        MapOf::<Utf8, Enclosing<ValueMessageRules>>::lemma_is_value(&self.fields);
    }

    ghost again = { struct.laws.again struct.valid };

    ghost fits = { struct.laws.fits struct.valid };
}

impl Named for Struct {
    ghost use Rattle.std.specs.Prelude.{codes};

    ghost full_name = { codes "google.protobuf.Struct" };

    fn full_name() -> &'static str {
        "google.protobuf.Struct"
    }
}

/// What it is.
#[derive(Drop)]
pub enum ValueMessageKind {
    /// Null.
    NullValue(i32),
    /// A number.
    NumberValue(u64),
    /// A text.
    StringValue(Text),
    /// True or false.
    BoolValue(bool),
    /// An object.
    StructValue(Enclosed<StructRules>),
    /// An array.
    ListValue(Enclosed<ListValueRules>),
}

/// A value of JSON.
#[derive(Drop)]
pub struct ValueMessage {
    /// What it is.
    pub kind: Option<ValueMessageKind>,
}

const VALUE_MESSAGE_NULL_VALUE: FieldNumber = FieldNumber { value: 1 };

const VALUE_MESSAGE_NUMBER_VALUE: FieldNumber = FieldNumber { value: 2 };

const VALUE_MESSAGE_STRING_VALUE: FieldNumber = FieldNumber { value: 3 };

const VALUE_MESSAGE_BOOL_VALUE: FieldNumber = FieldNumber { value: 4 };

const VALUE_MESSAGE_STRUCT_VALUE: FieldNumber = FieldNumber { value: 5 };

const VALUE_MESSAGE_LIST_VALUE: FieldNumber = FieldNumber { value: 6 };

impl ValueMessageKind {
    ghost use Rattle.ttrpc_wire.specs.Fold.{Gives};
    ghost use Rattle.ttrpc_wire.specs.Seen.{seen_value};
    ghost use Rattle.ttrpc_well_known.specs.Messages.{value_message_kind};

    /// Takes the value of a field of number 1 in.
    #[tactic(auto, unfolding(ttrpc_members::specs::Choices::choice_take))]
    fn take_null_value(
        choice: &mut Option<ValueMessageKind>,
        alloc: Global,
        value: Value<'_>,
    ) -> Result<(), CodecError>
        ensures { Gives (λ _. choice.new) result (value_message_kind.part.step choice.old (record { number = 1; value = seen_value value.entry })) }
    {
        if let Some(ValueMessageKind::NullValue(item)) = choice {
            Int32::read(item, alloc, value)?;
            return Ok(());
        }
        let mut item = Int32::first(alloc);
        if Int32::read(&mut item, alloc, value)? {
            *choice = Some(ValueMessageKind::NullValue(item));
        }
        Ok(())
    }

    /// Takes the value of a field of number 2 in.
    #[tactic(auto, unfolding(ttrpc_members::specs::Choices::choice_take))]
    fn take_number_value(
        choice: &mut Option<ValueMessageKind>,
        alloc: Global,
        value: Value<'_>,
    ) -> Result<(), CodecError>
        ensures { Gives (λ _. choice.new) result (value_message_kind.part.step choice.old (record { number = 2; value = seen_value value.entry })) }
    {
        if let Some(ValueMessageKind::NumberValue(item)) = choice {
            Bits64::read(item, alloc, value)?;
            return Ok(());
        }
        let mut item = Bits64::first(alloc);
        if Bits64::read(&mut item, alloc, value)? {
            *choice = Some(ValueMessageKind::NumberValue(item));
        }
        Ok(())
    }

    /// Takes the value of a field of number 3 in.
    #[tactic(auto, unfolding(ttrpc_members::specs::Choices::choice_take))]
    fn take_string_value(
        choice: &mut Option<ValueMessageKind>,
        alloc: Global,
        value: Value<'_>,
    ) -> Result<(), CodecError>
        ensures { Gives (λ _. choice.new) result (value_message_kind.part.step choice.old (record { number = 3; value = seen_value value.entry })) }
    {
        if let Some(ValueMessageKind::StringValue(item)) = choice {
            Utf8::read(item, alloc, value)?;
            return Ok(());
        }
        let mut item = Utf8::first(alloc);
        if Utf8::read(&mut item, alloc, value)? {
            *choice = Some(ValueMessageKind::StringValue(item));
        }
        Ok(())
    }

    /// Takes the value of a field of number 4 in.
    #[tactic(auto, unfolding(ttrpc_members::specs::Choices::choice_take))]
    fn take_bool_value(
        choice: &mut Option<ValueMessageKind>,
        alloc: Global,
        value: Value<'_>,
    ) -> Result<(), CodecError>
        ensures { Gives (λ _. choice.new) result (value_message_kind.part.step choice.old (record { number = 4; value = seen_value value.entry })) }
    {
        if let Some(ValueMessageKind::BoolValue(item)) = choice {
            Boolean::read(item, alloc, value)?;
            return Ok(());
        }
        let mut item = Boolean::first(alloc);
        if Boolean::read(&mut item, alloc, value)? {
            *choice = Some(ValueMessageKind::BoolValue(item));
        }
        Ok(())
    }

    /// Takes the value of a field of number 5 in.
    #[tactic(auto, unfolding(ttrpc_members::specs::Choices::choice_take))]
    fn take_struct_value(
        choice: &mut Option<ValueMessageKind>,
        alloc: Global,
        value: Value<'_>,
    ) -> Result<(), CodecError>
        ensures { Gives (λ _. choice.new) result (value_message_kind.part.step choice.old (record { number = 5; value = seen_value value.entry })) }
    {
        if let Some(ValueMessageKind::StructValue(item)) = choice {
            Enclosing::<StructRules>::read(item, alloc, value)?;
            return Ok(());
        }
        let mut item = Enclosing::<StructRules>::first(alloc);
        if Enclosing::<StructRules>::read(&mut item, alloc, value)? {
            *choice = Some(ValueMessageKind::StructValue(item));
        }
        Ok(())
    }

    /// Takes the value of a field of number 6 in.
    #[tactic(auto, unfolding(ttrpc_members::specs::Choices::choice_take))]
    fn take_list_value(
        choice: &mut Option<ValueMessageKind>,
        alloc: Global,
        value: Value<'_>,
    ) -> Result<(), CodecError>
        ensures { Gives (λ _. choice.new) result (value_message_kind.part.step choice.old (record { number = 6; value = seen_value value.entry })) }
    {
        if let Some(ValueMessageKind::ListValue(item)) = choice {
            Enclosing::<ListValueRules>::read(item, alloc, value)?;
            return Ok(());
        }
        let mut item = Enclosing::<ListValueRules>::first(alloc);
        if Enclosing::<ListValueRules>::read(&mut item, alloc, value)? {
            *choice = Some(ValueMessageKind::ListValue(item));
        }
        Ok(())
    }
}

impl Choice for ValueMessageKind {
    ghost use Rattle.ttrpc_well_known.specs.Messages.{value_message_kind};

    ghost part = { value_message_kind.part };

    fn put(
        choice: &mut Option<ValueMessageKind>,
        alloc: Global,
        field: Field<'_>,
    ) -> Result<(), CodecError> {
        match field.number.value {
            1 => ValueMessageKind::take_null_value(choice, alloc, field.value),
            2 => ValueMessageKind::take_number_value(choice, alloc, field.value),
            3 => ValueMessageKind::take_string_value(choice, alloc, field.value),
            4 => ValueMessageKind::take_bool_value(choice, alloc, field.value),
            5 => ValueMessageKind::take_struct_value(choice, alloc, field.value),
            6 => ValueMessageKind::take_list_value(choice, alloc, field.value),
            _ => Ok(()),
        }
    }

    fn length(choice: &Option<ValueMessageKind>) -> u64 {
        match choice {
            None => 0,
            Some(ValueMessageKind::NullValue(item)) => {
                item_len::<Int32>(item, VALUE_MESSAGE_NULL_VALUE)
            }
            Some(ValueMessageKind::NumberValue(item)) => {
                item_len::<Bits64>(item, VALUE_MESSAGE_NUMBER_VALUE)
            }
            Some(ValueMessageKind::StringValue(item)) => {
                item_len::<Utf8>(item, VALUE_MESSAGE_STRING_VALUE)
            }
            Some(ValueMessageKind::BoolValue(item)) => {
                item_len::<Boolean>(item, VALUE_MESSAGE_BOOL_VALUE)
            }
            Some(ValueMessageKind::StructValue(item)) => {
                item_len::<Enclosing<StructRules>>(item, VALUE_MESSAGE_STRUCT_VALUE)
            }
            Some(ValueMessageKind::ListValue(item)) => {
                item_len::<Enclosing<ListValueRules>>(item, VALUE_MESSAGE_LIST_VALUE)
            }
        }
    }

    fn write(choice: &Option<ValueMessageKind>, out: &mut Vec<u8>) -> Result<(), CodecError> {
        match choice {
            None => Ok(()),
            Some(ValueMessageKind::NullValue(item)) => {
                put_item::<Int32>(item, VALUE_MESSAGE_NULL_VALUE, out)
            }
            Some(ValueMessageKind::NumberValue(item)) => {
                put_item::<Bits64>(item, VALUE_MESSAGE_NUMBER_VALUE, out)
            }
            Some(ValueMessageKind::StringValue(item)) => {
                put_item::<Utf8>(item, VALUE_MESSAGE_STRING_VALUE, out)
            }
            Some(ValueMessageKind::BoolValue(item)) => {
                put_item::<Boolean>(item, VALUE_MESSAGE_BOOL_VALUE, out)
            }
            Some(ValueMessageKind::StructValue(item)) => {
                put_item::<Enclosing<StructRules>>(item, VALUE_MESSAGE_STRUCT_VALUE, out)
            }
            Some(ValueMessageKind::ListValue(item)) => {
                put_item::<Enclosing<ListValueRules>>(item, VALUE_MESSAGE_LIST_VALUE, out)
            }
        }
    }

    fn try_clone(
        choice: &Option<ValueMessageKind>,
    ) -> Result<Option<ValueMessageKind>, AllocError> {
        Ok(match choice {
            None => None,
            Some(ValueMessageKind::NullValue(item)) => {
                Some(ValueMessageKind::NullValue(Int32::try_clone(item)?))
            }
            Some(ValueMessageKind::NumberValue(item)) => {
                Some(ValueMessageKind::NumberValue(Bits64::try_clone(item)?))
            }
            Some(ValueMessageKind::StringValue(item)) => {
                Some(ValueMessageKind::StringValue(Utf8::try_clone(item)?))
            }
            Some(ValueMessageKind::BoolValue(item)) => {
                Some(ValueMessageKind::BoolValue(Boolean::try_clone(item)?))
            }
            Some(ValueMessageKind::StructValue(item)) => {
                Some(ValueMessageKind::StructValue(Enclosing::<StructRules>::try_clone(item)?))
            }
            Some(ValueMessageKind::ListValue(item)) => {
                Some(ValueMessageKind::ListValue(Enclosing::<ListValueRules>::try_clone(item)?))
            }
        })
    }

    fn lemma_is_value(choice: &Option<ValueMessageKind>) {
        match choice {
            None => {}
            Some(ValueMessageKind::NullValue(item)) => Int32::lemma_is_value(item),
            Some(ValueMessageKind::NumberValue(item)) => Bits64::lemma_is_value(item),
            Some(ValueMessageKind::StringValue(item)) => Utf8::lemma_is_value(item),
            Some(ValueMessageKind::BoolValue(item)) => Boolean::lemma_is_value(item),
            Some(ValueMessageKind::StructValue(item)) => {
                Enclosing::<StructRules>::lemma_is_value(item)
            }
            Some(ValueMessageKind::ListValue(item)) => {
                Enclosing::<ListValueRules>::lemma_is_value(item)
            }
        }
    }
}

impl TryClone for ValueMessage {
    fn try_clone(&self) -> Result<ValueMessage, AllocError> {
        let kind = ValueMessageKind::try_clone(&self.kind)?;
        Ok(ValueMessage { kind })
    }
}

impl WireMessage for ValueMessage {
    ghost use Rattle.ttrpc_well_known.specs.Messages.{value_message};

    ghost is_value = { value_message.part.is_value };

    ghost empty = { value_message.part.empty };

    ghost step = { value_message.part.step };

    ghost fields = { value_message.part.fields };

    fn new(alloc: Global) -> ValueMessage {
        ValueMessage { kind: None }
    }

    fn put(&mut self, alloc: Global, field: Field<'_>) -> Result<(), CodecError> {
        match field.number.value {
            1 | 2 | 3 | 4 | 5 | 6 => ValueMessageKind::put(&mut self.kind, alloc, field),
            _ => Ok(()),
        }
    }

    #[tactic(auto, using(ttrpc_members::proofs::Groups::flat_measured))]
    fn length(&self) -> u64 {
        let len: u64 = 0;
        len.saturating_add(ValueMessageKind::length(&self.kind))
    }

    #[tactic(auto, using(ttrpc_members::proofs::Groups::flat_written, ttrpc_members::proofs::Groups::flat_len))]
    fn write(&self, out: &mut Vec<u8>) -> Result<(), CodecError> {
        ValueMessageKind::write(&self.kind, out)
    }

    fn lemma_is_value(&self) {
        ValueMessageKind::lemma_is_value(&self.kind);
    }

    ghost again = { value_message.laws.again value_message.valid };

    ghost fits = { value_message.laws.fits value_message.valid };
}

impl Named for ValueMessage {
    ghost use Rattle.std.specs.Prelude.{codes};

    ghost full_name = { codes "google.protobuf.Value" };

    fn full_name() -> &'static str {
        "google.protobuf.Value"
    }
}

/// An array of JSON.
#[derive(Drop)]
pub struct ListValue {
    /// Its values.
    pub values: Sequence<Enclosed<ValueMessageRules>>,
}

const LIST_VALUE_VALUES: FieldNumber = FieldNumber { value: 1 };

impl TryClone for ListValue {
    fn try_clone(&self) -> Result<ListValue, AllocError> {
        let values = Repeated::<Enclosing<ValueMessageRules>>::try_clone(&self.values)?;
        Ok(ListValue { values })
    }
}

impl WireMessage for ListValue {
    ghost use Rattle.ttrpc_well_known.specs.Messages.{list_value};

    ghost is_value = { list_value.part.is_value };

    ghost empty = { list_value.part.empty };

    ghost step = { list_value.part.step };

    ghost fields = { list_value.part.fields };

    fn new(alloc: Global) -> ListValue {
        ListValue {
            values: Repeated::<Enclosing<ValueMessageRules>>::empty(alloc),
        }
    }

    fn put(&mut self, alloc: Global, field: Field<'_>) -> Result<(), CodecError> {
        match field.number.value {
            1 => {
                Repeated::<Enclosing<ValueMessageRules>>::take(&mut self.values, alloc, field.value)
            }
            _ => Ok(()),
        }
    }

    #[tactic(auto, using(ttrpc_members::proofs::Groups::flat_measured))]
    fn length(&self) -> u64 {
        let len: u64 = 0;
        len.saturating_add(Repeated::<Enclosing<ValueMessageRules>>::length(
            &self.values,
            LIST_VALUE_VALUES,
        ))
    }

    #[tactic(auto, using(ttrpc_members::proofs::Groups::flat_written, ttrpc_members::proofs::Groups::flat_len))]
    fn write(&self, out: &mut Vec<u8>) -> Result<(), CodecError> {
        Repeated::<Enclosing<ValueMessageRules>>::write(&self.values, LIST_VALUE_VALUES, out)
    }

    fn lemma_is_value(&self) {
        Repeated::<Enclosing<ValueMessageRules>>::lemma_is_value(&self.values);
    }

    ghost again = { list_value.laws.again list_value.valid };

    ghost fits = { list_value.laws.fits list_value.valid };
}

impl Named for ListValue {
    ghost use Rattle.std.specs.Prelude.{codes};

    ghost full_name = { codes "google.protobuf.ListValue" };

    fn full_name() -> &'static str {
        "google.protobuf.ListValue"
    }
}

/// A point in time.
#[derive(Drop)]
pub struct Timestamp {
    /// Seconds since the beginning of 1970.
    pub seconds: i64,
    /// Nanoseconds of the second.
    pub nanos: i32,
}

const TIMESTAMP_SECONDS: FieldNumber = FieldNumber { value: 1 };

const TIMESTAMP_NANOS: FieldNumber = FieldNumber { value: 2 };

impl TryClone for Timestamp {
    fn try_clone(&self) -> Result<Timestamp, AllocError> {
        Ok(Timestamp {
            seconds: self.seconds,
            nanos: self.nanos,
        })
    }
}

impl WireMessage for Timestamp {
    ghost use Rattle.ttrpc_well_known.specs.Messages.{timestamp};

    ghost is_value = { timestamp.part.is_value };

    ghost empty = { timestamp.part.empty };

    ghost step = { timestamp.part.step };

    ghost fields = { timestamp.part.fields };

    fn new(alloc: Global) -> Timestamp {
        Timestamp {
            seconds: Single::<Int64>::empty(alloc),
            nanos: Single::<Int32>::empty(alloc),
        }
    }

    fn put(&mut self, alloc: Global, field: Field<'_>) -> Result<(), CodecError> {
        match field.number.value {
            1 => Single::<Int64>::take(&mut self.seconds, alloc, field.value),
            2 => Single::<Int32>::take(&mut self.nanos, alloc, field.value),
            _ => Ok(()),
        }
    }

    #[tactic(auto, using(ttrpc_members::proofs::Groups::flat_measured))]
    fn length(&self) -> u64 {
        let len: u64 = 0;
        let len = len.saturating_add(Single::<Int64>::length(&self.seconds, TIMESTAMP_SECONDS));
        len.saturating_add(Single::<Int32>::length(&self.nanos, TIMESTAMP_NANOS))
    }

    #[tactic(auto, using(ttrpc_members::proofs::Groups::flat_written, ttrpc_members::proofs::Groups::flat_len))]
    fn write(&self, out: &mut Vec<u8>) -> Result<(), CodecError> {
        Single::<Int64>::write(&self.seconds, TIMESTAMP_SECONDS, out)?;
        Single::<Int32>::write(&self.nanos, TIMESTAMP_NANOS, out)
    }

    fn lemma_is_value(&self) {
        Single::<Int64>::lemma_is_value(&self.seconds);
        Single::<Int32>::lemma_is_value(&self.nanos);
    }

    ghost again = { timestamp.laws.again timestamp.valid };

    ghost fits = { timestamp.laws.fits timestamp.valid };
}

impl Named for Timestamp {
    ghost use Rattle.std.specs.Prelude.{codes};

    ghost full_name = { codes "google.protobuf.Timestamp" };

    fn full_name() -> &'static str {
        "google.protobuf.Timestamp"
    }
}

/// A double, as a message.
#[derive(Drop)]
pub struct DoubleValue {
    /// The number.
    pub value: u64,
}

const DOUBLE_VALUE_VALUE: FieldNumber = FieldNumber { value: 1 };

impl TryClone for DoubleValue {
    fn try_clone(&self) -> Result<DoubleValue, AllocError> {
        Ok(DoubleValue { value: self.value })
    }
}

impl WireMessage for DoubleValue {
    ghost use Rattle.ttrpc_well_known.specs.Messages.{double_value};

    ghost is_value = { double_value.part.is_value };

    ghost empty = { double_value.part.empty };

    ghost step = { double_value.part.step };

    ghost fields = { double_value.part.fields };

    fn new(alloc: Global) -> DoubleValue {
        DoubleValue {
            value: Single::<Bits64>::empty(alloc),
        }
    }

    fn put(&mut self, alloc: Global, field: Field<'_>) -> Result<(), CodecError> {
        match field.number.value {
            1 => Single::<Bits64>::take(&mut self.value, alloc, field.value),
            _ => Ok(()),
        }
    }

    #[tactic(auto, using(ttrpc_members::proofs::Groups::flat_measured))]
    fn length(&self) -> u64 {
        let len: u64 = 0;
        len.saturating_add(Single::<Bits64>::length(&self.value, DOUBLE_VALUE_VALUE))
    }

    #[tactic(auto, using(ttrpc_members::proofs::Groups::flat_written, ttrpc_members::proofs::Groups::flat_len))]
    fn write(&self, out: &mut Vec<u8>) -> Result<(), CodecError> {
        Single::<Bits64>::write(&self.value, DOUBLE_VALUE_VALUE, out)
    }

    fn lemma_is_value(&self) {
        Single::<Bits64>::lemma_is_value(&self.value);
    }

    ghost again = { double_value.laws.again double_value.valid };

    ghost fits = { double_value.laws.fits double_value.valid };
}

impl Named for DoubleValue {
    ghost use Rattle.std.specs.Prelude.{codes};

    ghost full_name = { codes "google.protobuf.DoubleValue" };

    fn full_name() -> &'static str {
        "google.protobuf.DoubleValue"
    }
}

/// A float, as a message.
#[derive(Drop)]
pub struct FloatValue {
    /// The number.
    pub value: u32,
}

const FLOAT_VALUE_VALUE: FieldNumber = FieldNumber { value: 1 };

impl TryClone for FloatValue {
    fn try_clone(&self) -> Result<FloatValue, AllocError> {
        Ok(FloatValue { value: self.value })
    }
}

impl WireMessage for FloatValue {
    ghost use Rattle.ttrpc_well_known.specs.Messages.{float_value};

    ghost is_value = { float_value.part.is_value };

    ghost empty = { float_value.part.empty };

    ghost step = { float_value.part.step };

    ghost fields = { float_value.part.fields };

    fn new(alloc: Global) -> FloatValue {
        FloatValue {
            value: Single::<Bits32>::empty(alloc),
        }
    }

    fn put(&mut self, alloc: Global, field: Field<'_>) -> Result<(), CodecError> {
        match field.number.value {
            1 => Single::<Bits32>::take(&mut self.value, alloc, field.value),
            _ => Ok(()),
        }
    }

    #[tactic(auto, using(ttrpc_members::proofs::Groups::flat_measured))]
    fn length(&self) -> u64 {
        let len: u64 = 0;
        len.saturating_add(Single::<Bits32>::length(&self.value, FLOAT_VALUE_VALUE))
    }

    #[tactic(auto, using(ttrpc_members::proofs::Groups::flat_written, ttrpc_members::proofs::Groups::flat_len))]
    fn write(&self, out: &mut Vec<u8>) -> Result<(), CodecError> {
        Single::<Bits32>::write(&self.value, FLOAT_VALUE_VALUE, out)
    }

    fn lemma_is_value(&self) {
        Single::<Bits32>::lemma_is_value(&self.value);
    }

    ghost again = { float_value.laws.again float_value.valid };

    ghost fits = { float_value.laws.fits float_value.valid };
}

impl Named for FloatValue {
    ghost use Rattle.std.specs.Prelude.{codes};

    ghost full_name = { codes "google.protobuf.FloatValue" };

    fn full_name() -> &'static str {
        "google.protobuf.FloatValue"
    }
}

/// An int64, as a message.
#[derive(Drop)]
pub struct Int64Value {
    /// The number.
    pub value: i64,
}

const INT64_VALUE_VALUE: FieldNumber = FieldNumber { value: 1 };

impl TryClone for Int64Value {
    fn try_clone(&self) -> Result<Int64Value, AllocError> {
        Ok(Int64Value { value: self.value })
    }
}

impl WireMessage for Int64Value {
    ghost use Rattle.ttrpc_well_known.specs.Messages.{int64_value};

    ghost is_value = { int64_value.part.is_value };

    ghost empty = { int64_value.part.empty };

    ghost step = { int64_value.part.step };

    ghost fields = { int64_value.part.fields };

    fn new(alloc: Global) -> Int64Value {
        Int64Value {
            value: Single::<Int64>::empty(alloc),
        }
    }

    fn put(&mut self, alloc: Global, field: Field<'_>) -> Result<(), CodecError> {
        match field.number.value {
            1 => Single::<Int64>::take(&mut self.value, alloc, field.value),
            _ => Ok(()),
        }
    }

    #[tactic(auto, using(ttrpc_members::proofs::Groups::flat_measured))]
    fn length(&self) -> u64 {
        let len: u64 = 0;
        len.saturating_add(Single::<Int64>::length(&self.value, INT64_VALUE_VALUE))
    }

    #[tactic(auto, using(ttrpc_members::proofs::Groups::flat_written, ttrpc_members::proofs::Groups::flat_len))]
    fn write(&self, out: &mut Vec<u8>) -> Result<(), CodecError> {
        Single::<Int64>::write(&self.value, INT64_VALUE_VALUE, out)
    }

    fn lemma_is_value(&self) {
        Single::<Int64>::lemma_is_value(&self.value);
    }

    ghost again = { int64_value.laws.again int64_value.valid };

    ghost fits = { int64_value.laws.fits int64_value.valid };
}

impl Named for Int64Value {
    ghost use Rattle.std.specs.Prelude.{codes};

    ghost full_name = { codes "google.protobuf.Int64Value" };

    fn full_name() -> &'static str {
        "google.protobuf.Int64Value"
    }
}

/// A uint64, as a message.
#[derive(Drop)]
pub struct UInt64Value {
    /// The number.
    pub value: u64,
}

const U_INT64_VALUE_VALUE: FieldNumber = FieldNumber { value: 1 };

impl TryClone for UInt64Value {
    fn try_clone(&self) -> Result<UInt64Value, AllocError> {
        Ok(UInt64Value { value: self.value })
    }
}

impl WireMessage for UInt64Value {
    ghost use Rattle.ttrpc_well_known.specs.Messages.{u_int64_value};

    ghost is_value = { u_int64_value.part.is_value };

    ghost empty = { u_int64_value.part.empty };

    ghost step = { u_int64_value.part.step };

    ghost fields = { u_int64_value.part.fields };

    fn new(alloc: Global) -> UInt64Value {
        UInt64Value {
            value: Single::<Uint64>::empty(alloc),
        }
    }

    fn put(&mut self, alloc: Global, field: Field<'_>) -> Result<(), CodecError> {
        match field.number.value {
            1 => Single::<Uint64>::take(&mut self.value, alloc, field.value),
            _ => Ok(()),
        }
    }

    #[tactic(auto, using(ttrpc_members::proofs::Groups::flat_measured))]
    fn length(&self) -> u64 {
        let len: u64 = 0;
        len.saturating_add(Single::<Uint64>::length(&self.value, U_INT64_VALUE_VALUE))
    }

    #[tactic(auto, using(ttrpc_members::proofs::Groups::flat_written, ttrpc_members::proofs::Groups::flat_len))]
    fn write(&self, out: &mut Vec<u8>) -> Result<(), CodecError> {
        Single::<Uint64>::write(&self.value, U_INT64_VALUE_VALUE, out)
    }

    fn lemma_is_value(&self) {
        Single::<Uint64>::lemma_is_value(&self.value);
    }

    ghost again = { u_int64_value.laws.again u_int64_value.valid };

    ghost fits = { u_int64_value.laws.fits u_int64_value.valid };
}

impl Named for UInt64Value {
    ghost use Rattle.std.specs.Prelude.{codes};

    ghost full_name = { codes "google.protobuf.UInt64Value" };

    fn full_name() -> &'static str {
        "google.protobuf.UInt64Value"
    }
}

/// An int32, as a message.
#[derive(Drop)]
pub struct Int32Value {
    /// The number.
    pub value: i32,
}

const INT32_VALUE_VALUE: FieldNumber = FieldNumber { value: 1 };

impl TryClone for Int32Value {
    fn try_clone(&self) -> Result<Int32Value, AllocError> {
        Ok(Int32Value { value: self.value })
    }
}

impl WireMessage for Int32Value {
    ghost use Rattle.ttrpc_well_known.specs.Messages.{int32_value};

    ghost is_value = { int32_value.part.is_value };

    ghost empty = { int32_value.part.empty };

    ghost step = { int32_value.part.step };

    ghost fields = { int32_value.part.fields };

    fn new(alloc: Global) -> Int32Value {
        Int32Value {
            value: Single::<Int32>::empty(alloc),
        }
    }

    fn put(&mut self, alloc: Global, field: Field<'_>) -> Result<(), CodecError> {
        match field.number.value {
            1 => Single::<Int32>::take(&mut self.value, alloc, field.value),
            _ => Ok(()),
        }
    }

    #[tactic(auto, using(ttrpc_members::proofs::Groups::flat_measured))]
    fn length(&self) -> u64 {
        let len: u64 = 0;
        len.saturating_add(Single::<Int32>::length(&self.value, INT32_VALUE_VALUE))
    }

    #[tactic(auto, using(ttrpc_members::proofs::Groups::flat_written, ttrpc_members::proofs::Groups::flat_len))]
    fn write(&self, out: &mut Vec<u8>) -> Result<(), CodecError> {
        Single::<Int32>::write(&self.value, INT32_VALUE_VALUE, out)
    }

    fn lemma_is_value(&self) {
        Single::<Int32>::lemma_is_value(&self.value);
    }

    ghost again = { int32_value.laws.again int32_value.valid };

    ghost fits = { int32_value.laws.fits int32_value.valid };
}

impl Named for Int32Value {
    ghost use Rattle.std.specs.Prelude.{codes};

    ghost full_name = { codes "google.protobuf.Int32Value" };

    fn full_name() -> &'static str {
        "google.protobuf.Int32Value"
    }
}

/// A uint32, as a message.
#[derive(Drop)]
pub struct UInt32Value {
    /// The number.
    pub value: u32,
}

const U_INT32_VALUE_VALUE: FieldNumber = FieldNumber { value: 1 };

impl TryClone for UInt32Value {
    fn try_clone(&self) -> Result<UInt32Value, AllocError> {
        Ok(UInt32Value { value: self.value })
    }
}

impl WireMessage for UInt32Value {
    ghost use Rattle.ttrpc_well_known.specs.Messages.{u_int32_value};

    ghost is_value = { u_int32_value.part.is_value };

    ghost empty = { u_int32_value.part.empty };

    ghost step = { u_int32_value.part.step };

    ghost fields = { u_int32_value.part.fields };

    fn new(alloc: Global) -> UInt32Value {
        UInt32Value {
            value: Single::<Uint32>::empty(alloc),
        }
    }

    fn put(&mut self, alloc: Global, field: Field<'_>) -> Result<(), CodecError> {
        match field.number.value {
            1 => Single::<Uint32>::take(&mut self.value, alloc, field.value),
            _ => Ok(()),
        }
    }

    #[tactic(auto, using(ttrpc_members::proofs::Groups::flat_measured))]
    fn length(&self) -> u64 {
        let len: u64 = 0;
        len.saturating_add(Single::<Uint32>::length(&self.value, U_INT32_VALUE_VALUE))
    }

    #[tactic(auto, using(ttrpc_members::proofs::Groups::flat_written, ttrpc_members::proofs::Groups::flat_len))]
    fn write(&self, out: &mut Vec<u8>) -> Result<(), CodecError> {
        Single::<Uint32>::write(&self.value, U_INT32_VALUE_VALUE, out)
    }

    fn lemma_is_value(&self) {
        Single::<Uint32>::lemma_is_value(&self.value);
    }

    ghost again = { u_int32_value.laws.again u_int32_value.valid };

    ghost fits = { u_int32_value.laws.fits u_int32_value.valid };
}

impl Named for UInt32Value {
    ghost use Rattle.std.specs.Prelude.{codes};

    ghost full_name = { codes "google.protobuf.UInt32Value" };

    fn full_name() -> &'static str {
        "google.protobuf.UInt32Value"
    }
}

/// A bool, as a message.
#[derive(Drop)]
pub struct BoolValue {
    /// Whether it is so.
    pub value: bool,
}

const BOOL_VALUE_VALUE: FieldNumber = FieldNumber { value: 1 };

impl TryClone for BoolValue {
    fn try_clone(&self) -> Result<BoolValue, AllocError> {
        Ok(BoolValue { value: self.value })
    }
}

impl WireMessage for BoolValue {
    ghost use Rattle.ttrpc_well_known.specs.Messages.{bool_value};

    ghost is_value = { bool_value.part.is_value };

    ghost empty = { bool_value.part.empty };

    ghost step = { bool_value.part.step };

    ghost fields = { bool_value.part.fields };

    fn new(alloc: Global) -> BoolValue {
        BoolValue {
            value: Single::<Boolean>::empty(alloc),
        }
    }

    fn put(&mut self, alloc: Global, field: Field<'_>) -> Result<(), CodecError> {
        match field.number.value {
            1 => Single::<Boolean>::take(&mut self.value, alloc, field.value),
            _ => Ok(()),
        }
    }

    #[tactic(auto, using(ttrpc_members::proofs::Groups::flat_measured))]
    fn length(&self) -> u64 {
        let len: u64 = 0;
        len.saturating_add(Single::<Boolean>::length(&self.value, BOOL_VALUE_VALUE))
    }

    #[tactic(auto, using(ttrpc_members::proofs::Groups::flat_written, ttrpc_members::proofs::Groups::flat_len))]
    fn write(&self, out: &mut Vec<u8>) -> Result<(), CodecError> {
        Single::<Boolean>::write(&self.value, BOOL_VALUE_VALUE, out)
    }

    fn lemma_is_value(&self) {
        Single::<Boolean>::lemma_is_value(&self.value);
    }

    ghost again = { bool_value.laws.again bool_value.valid };

    ghost fits = { bool_value.laws.fits bool_value.valid };
}

impl Named for BoolValue {
    ghost use Rattle.std.specs.Prelude.{codes};

    ghost full_name = { codes "google.protobuf.BoolValue" };

    fn full_name() -> &'static str {
        "google.protobuf.BoolValue"
    }
}

/// A string, as a message.
#[derive(Drop)]
pub struct StringValue {
    /// The text.
    pub value: Text,
}

const STRING_VALUE_VALUE: FieldNumber = FieldNumber { value: 1 };

impl TryClone for StringValue {
    fn try_clone(&self) -> Result<StringValue, AllocError> {
        let value = Single::<Utf8>::try_clone(&self.value)?;
        Ok(StringValue { value })
    }
}

impl WireMessage for StringValue {
    ghost use Rattle.ttrpc_well_known.specs.Messages.{string_value};

    ghost is_value = { string_value.part.is_value };

    ghost empty = { string_value.part.empty };

    ghost step = { string_value.part.step };

    ghost fields = { string_value.part.fields };

    fn new(alloc: Global) -> StringValue {
        StringValue {
            value: Single::<Utf8>::empty(alloc),
        }
    }

    fn put(&mut self, alloc: Global, field: Field<'_>) -> Result<(), CodecError> {
        match field.number.value {
            1 => Single::<Utf8>::take(&mut self.value, alloc, field.value),
            _ => Ok(()),
        }
    }

    #[tactic(auto, using(ttrpc_members::proofs::Groups::flat_measured))]
    fn length(&self) -> u64 {
        let len: u64 = 0;
        len.saturating_add(Single::<Utf8>::length(&self.value, STRING_VALUE_VALUE))
    }

    #[tactic(auto, using(ttrpc_members::proofs::Groups::flat_written, ttrpc_members::proofs::Groups::flat_len))]
    fn write(&self, out: &mut Vec<u8>) -> Result<(), CodecError> {
        Single::<Utf8>::write(&self.value, STRING_VALUE_VALUE, out)
    }

    fn lemma_is_value(&self) {
        Single::<Utf8>::lemma_is_value(&self.value);
    }

    ghost again = { string_value.laws.again string_value.valid };

    ghost fits = { string_value.laws.fits string_value.valid };
}

impl Named for StringValue {
    ghost use Rattle.std.specs.Prelude.{codes};

    ghost full_name = { codes "google.protobuf.StringValue" };

    fn full_name() -> &'static str {
        "google.protobuf.StringValue"
    }
}

/// Bytes, as a message.
#[derive(Drop)]
pub struct BytesValue {
    /// The bytes.
    pub value: Blob,
}

const BYTES_VALUE_VALUE: FieldNumber = FieldNumber { value: 1 };

impl TryClone for BytesValue {
    fn try_clone(&self) -> Result<BytesValue, AllocError> {
        let value = Single::<Bytes>::try_clone(&self.value)?;
        Ok(BytesValue { value })
    }
}

impl WireMessage for BytesValue {
    ghost use Rattle.ttrpc_well_known.specs.Messages.{bytes_value};

    ghost is_value = { bytes_value.part.is_value };

    ghost empty = { bytes_value.part.empty };

    ghost step = { bytes_value.part.step };

    ghost fields = { bytes_value.part.fields };

    fn new(alloc: Global) -> BytesValue {
        BytesValue {
            value: Single::<Bytes>::empty(alloc),
        }
    }

    fn put(&mut self, alloc: Global, field: Field<'_>) -> Result<(), CodecError> {
        match field.number.value {
            1 => Single::<Bytes>::take(&mut self.value, alloc, field.value),
            _ => Ok(()),
        }
    }

    #[tactic(auto, using(ttrpc_members::proofs::Groups::flat_measured))]
    fn length(&self) -> u64 {
        let len: u64 = 0;
        len.saturating_add(Single::<Bytes>::length(&self.value, BYTES_VALUE_VALUE))
    }

    #[tactic(auto, using(ttrpc_members::proofs::Groups::flat_written, ttrpc_members::proofs::Groups::flat_len))]
    fn write(&self, out: &mut Vec<u8>) -> Result<(), CodecError> {
        Single::<Bytes>::write(&self.value, BYTES_VALUE_VALUE, out)
    }

    fn lemma_is_value(&self) {
        Single::<Bytes>::lemma_is_value(&self.value);
    }

    ghost again = { bytes_value.laws.again bytes_value.valid };

    ghost fits = { bytes_value.laws.fits bytes_value.valid };
}

impl Named for BytesValue {
    ghost use Rattle.std.specs.Prelude.{codes};

    ghost full_name = { codes "google.protobuf.BytesValue" };

    fn full_name() -> &'static str {
        "google.protobuf.BytesValue"
    }
}

/// What has to hold of the bytes of messages that may contain themselves, and of all that may be in them, by the place of a message's first rule.
const RULES: &[Rule] = &[
    Rule {
        message: 0,
        number: 1,
        content: Content::Message(5),
    },
    Rule {
        message: 1,
        number: 3,
        content: Content::Text,
    },
    Rule {
        message: 1,
        number: 5,
        content: Content::Message(0),
    },
    Rule {
        message: 1,
        number: 6,
        content: Content::Message(4),
    },
    Rule {
        message: 4,
        number: 1,
        content: Content::Message(1),
    },
    Rule {
        message: 5,
        number: 1,
        content: Content::Text,
    },
    Rule {
        message: 5,
        number: 2,
        content: Content::Message(1),
    },
];

/// Stands for `Struct` where it is in another message, and kept as its bytes.
pub struct StructRules {}

impl Recursive for StructRules {
    ghost use Rattle.ttrpc_well_known.specs.Messages.{all_rules};

    ghost rules = { all_rules };

    ghost message = { 0 };

    fn rules() -> &'static [Rule] {
        RULES
    }

    fn message() -> u32 {
        0
    }
}

impl Enclosable for Struct {
    ghost use Rattle.ttrpc_well_known.specs.Messages.{all_rules, struct, struct_wants};
    ghost use Rattle.ttrpc_members.proofs.Proved.{reads_deep, reads_within};

    type Rules = StructRules;

    ghost reads = { reads_within struct all_rules 0 struct_wants };

    ghost deep = { reads_deep struct all_rules 0 struct_wants };
}

/// Stands for `ValueMessage` where it is in another message, and kept as its bytes.
pub struct ValueMessageRules {}

impl Recursive for ValueMessageRules {
    ghost use Rattle.ttrpc_well_known.specs.Messages.{all_rules};

    ghost rules = { all_rules };

    ghost message = { 1 };

    fn rules() -> &'static [Rule] {
        RULES
    }

    fn message() -> u32 {
        1
    }
}

impl Enclosable for ValueMessage {
    ghost use Rattle.ttrpc_well_known.specs.Messages.{all_rules, value_message, value_message_wants};
    ghost use Rattle.ttrpc_members.proofs.Proved.{reads_deep, reads_within};

    type Rules = ValueMessageRules;

    ghost reads = { reads_within value_message all_rules 1 value_message_wants };

    ghost deep = { reads_deep value_message all_rules 1 value_message_wants };
}

/// Stands for `ListValue` where it is in another message, and kept as its bytes.
pub struct ListValueRules {}

impl Recursive for ListValueRules {
    ghost use Rattle.ttrpc_well_known.specs.Messages.{all_rules};

    ghost rules = { all_rules };

    ghost message = { 4 };

    fn rules() -> &'static [Rule] {
        RULES
    }

    fn message() -> u32 {
        4
    }
}

impl Enclosable for ListValue {
    ghost use Rattle.ttrpc_well_known.specs.Messages.{all_rules, list_value, list_value_wants};
    ghost use Rattle.ttrpc_members.proofs.Proved.{reads_deep, reads_within};

    type Rules = ListValueRules;

    ghost reads = { reads_within list_value all_rules 4 list_value_wants };

    ghost deep = { reads_deep list_value all_rules 4 list_value_wants };
}
