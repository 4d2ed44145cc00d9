//! The Protocol Buffers wire format: the fields of a message, read from a slice and appended to a vector. `codec` has
//! the messages that are made of fields, and `values` the small types that the values of all layers are made of.
#![tactic(auto)]

pub mod codec;
mod field;
pub mod laws;
mod number;
mod reader;
pub mod values;
mod varint;
mod writer;

pub use codec::Codec;
pub use field::{Field, FieldNumber, Tag, Value, WireType};
pub use number::{int32_to_varint, int64_to_varint, varint_to_int32, varint_to_int64};
pub use reader::Reader;
pub use values::{Blob, Code, CodecError, Sequence, Text, TryClone};
pub use writer::{field_len, put_field, put_tag, put_varint, tag_len, varint_len};
