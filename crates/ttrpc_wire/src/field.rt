//! The parts of a field: its number, its wire type and its value.
ghost use Rattle.std.specs.Prelude.{◌≡◌, ◌≤◌, ◌<◌, ◌^◌, ◌↔◌, IsSome, IfSome};

/// A field's number, from 1 to 536870911.
#[derive(Clone, Copy, Debug, PartialEq, Eq)]
pub struct FieldNumber {
    pub value: u32,
    ghost low: { 1 ≤ value },
    ghost high: { value < 2 ^ 29 },
}

impl FieldNumber {
    /// Returns the field number with this value, if a field can have it.
    pub fn new(value: u32) -> Option<FieldNumber>
        ensures valid { IsSome result ↔ ((1 ≤ value) × (value < 2 ^ 29)) }
        ensures value { IfSome result (λ number. number.value ≡ value) }
    {
        if value >= 1 && value < 536870912 {
            Some(FieldNumber { value })
        } else {
            None
        }
    }
}

/// How a value is written. Wire types 3 and 4 (groups) aren't supported, and 6 and 7 don't exist.
#[derive(Clone, Copy, Debug, PartialEq, Eq)]
pub enum WireType {
    /// 0: a varint.
    Varint,
    /// 1: eight bytes.
    Fixed64,
    /// 2: a varint for the length, and this many bytes.
    LengthDelimited,
    /// 5: four bytes.
    Fixed32,
}

/// A tag: the field number and the wire type before a value.
#[derive(Clone, Copy, Debug, PartialEq, Eq)]
pub struct Tag {
    pub number: FieldNumber,
    pub wire_type: WireType,
}

/// A field's value, by its wire type.
#[derive(Clone, Copy, Debug, PartialEq, Eq)]
pub enum Value<'a> {
    Varint(u64),
    /// The number in eight bytes, the lowest byte first.
    Fixed64(u64),
    LengthDelimited(&'a [u8]),
    /// The number in four bytes, the lowest byte first.
    Fixed32(u32),
}

/// A field: its number and its value.
#[derive(Clone, Copy, Debug, PartialEq, Eq)]
pub struct Field<'a> {
    pub number: FieldNumber,
    pub value: Value<'a>,
}

impl Value<'_> {
    ghost use Rattle.ttrpc_wire.specs.Field.{wire_type_of};
    ghost use Rattle.ttrpc_wire.specs.Seen.{seen_value};

    /// Returns the wire type of the value.
    pub fn wire_type(&self) -> WireType
        ensures { result ≡ wire_type_of (seen_value self.now) }
    {
        match self {
            Value::Varint(_) => WireType::Varint,
            Value::Fixed64(_) => WireType::Fixed64,
            Value::LengthDelimited(_) => WireType::LengthDelimited,
            Value::Fixed32(_) => WireType::Fixed32,
        }
    }
}

impl Field<'_> {
    ghost use Rattle.ttrpc_wire.specs.Field.{wire_type_of};
    ghost use Rattle.ttrpc_wire.specs.Seen.{seen_value};

    /// Returns the field's tag.
    pub fn tag(&self) -> Tag
        ensures number { result.number ≡ self.now.number }
        ensures wire_type { result.wire_type ≡ wire_type_of (seen_value self.now.value) }
    {
        Tag {
            number: self.number,
            wire_type: self.value.wire_type(),
        }
    }
}
