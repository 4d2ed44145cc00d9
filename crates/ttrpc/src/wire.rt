//! The fields of messages, read and written, and why bytes mean no value.
pub use ttrpc_wire::{
    CodecError, Field, FieldNumber, Reader, Tag, Value, WireType, field_len, int32_to_varint,
    int64_to_varint, put_field, put_tag, put_varint, tag_len, varint_len, varint_to_int32,
    varint_to_int64,
};
