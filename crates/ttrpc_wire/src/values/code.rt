//! The codes of a status.
ghost use Rattle.std.specs.Prelude.{◌≡◌};

/// How a call ended, under gRPC's names and numbers (gRPC, "Status codes and their use in gRPC").
#[derive(Clone, Copy, Debug, PartialEq, Eq)]
pub enum Code {
    OK = 0,
    CANCELLED = 1,
    UNKNOWN = 2,
    INVALID_ARGUMENT = 3,
    DEADLINE_EXCEEDED = 4,
    NOT_FOUND = 5,
    ALREADY_EXISTS = 6,
    PERMISSION_DENIED = 7,
    RESOURCE_EXHAUSTED = 8,
    FAILED_PRECONDITION = 9,
    ABORTED = 10,
    OUT_OF_RANGE = 11,
    UNIMPLEMENTED = 12,
    INTERNAL = 13,
    UNAVAILABLE = 14,
    DATA_LOSS = 15,
    UNAUTHENTICATED = 16,
}

impl Code {
    ghost use Rattle.ttrpc_wire.specs.Code.{number_of_code};

    /// Returns the code's number in a status.
    pub fn number(self) -> i32
        ensures { result ≡ number_of_code self }
    {
        self as i32
    }
}
