//! The full name of a message.
ghost use Rattle.std.specs.Prelude.{◌≡◌, List, ℕ};

use ttrpc_wire::codec::message::WireMessage;

/// A message with its full name: its own name, after that of its package. An `Any` names its message by the full name.
pub trait Named: WireMessage {
    ghost use Rattle.std.specs.Prelude.{List, ℕ};

    /// The full name.
    ghost full_name: { List ℕ };

    /// Returns the full name, such as `google.protobuf.Timestamp`.
    fn full_name() -> &'static str
        ensures { result.now ≡ full_name };
}
