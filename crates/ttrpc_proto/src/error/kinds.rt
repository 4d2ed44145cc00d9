//! The printed text of each kind of the system's errors. std prints the same, but no clause of std says so.
ghost use Rattle.std.specs.Prelude.{◌≡◌};
ghost use Rattle.ttrpc_proto.specs.KindText.{kind_text};

use std::io::ErrorKind;

// The kinds' texts, in the order in which std declares the kinds.
const TEXTS: [&str; 42] = [
    "entity not found",
    "permission denied",
    "connection refused",
    "connection reset",
    "host unreachable",
    "network unreachable",
    "connection aborted",
    "not connected",
    "address in use",
    "address not available",
    "network down",
    "broken pipe",
    "entity already exists",
    "operation would block",
    "not a directory",
    "is a directory",
    "directory not empty",
    "read-only filesystem or storage medium",
    "filesystem loop or indirection limit (e.g. symlink loop)",
    "stale network file handle",
    "invalid input parameter",
    "invalid data",
    "timed out",
    "write zero",
    "no storage space",
    "seek on unseekable file",
    "quota exceeded",
    "file too large",
    "resource busy",
    "executable file busy",
    "deadlock",
    "cross-device link or rename",
    "too many links",
    "invalid filename",
    "argument list too long",
    "operation interrupted",
    "unsupported",
    "unexpected end of file",
    "out of memory",
    "in progress",
    "other error",
    "uncategorized error",
];

/// Returns the text of a kind of the system's errors, as std prints it.
pub fn kind_text(kind: ErrorKind) -> &'static str
    ensures { result.now ≡ kind_text kind }
{
    TEXTS[kind as usize]
}
