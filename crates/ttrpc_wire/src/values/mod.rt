//! The small types that values of all layers are made of: texts, bytes, lists, the codes of a status, and the reasons
//! why bytes mean no value.

mod blob;
mod clones;
mod code;
pub mod codec_error;
pub mod laws;
mod sequence;
pub mod slices;
mod text;

pub use self::blob::Blob;
pub use self::clones::TryClone;
pub use self::code::Code;
pub use self::codec_error::CodecError;
pub use self::sequence::Sequence;
pub use self::text::Text;
